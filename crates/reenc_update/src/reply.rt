//! The reply to the call for a batch.
ghost use Rattle.std.specs.Prelude.{◌≡◌, IsTrue};
ghost use Rattle.reenc_update.specs.Replies.{FitsSent};

use hk_base::{Edek, Listing};
use reenc_walk::BatchNote;
use std::marker::Model;

/// What the key management service replied to the call for a batch.
#[derive(Drop)]
pub enum BatchResult {
    /// It refused the call.
    Refused,
    /// The new encrypted key of each file of the batch, in the same order.
    Ready(Listing<Edek>),
}

/// A batch, and the reply to the call for it: a refusal, or a new encrypted key for each of its files,
/// each of the same key as the one that was sent. Contracts see the batch and the result.
#[derive(Drop)]
pub struct BatchReply {
    note: BatchNote,
    result: BatchResult,
}

impl Model for BatchReply {
    ghost use Rattle.reenc_update.specs.Replies.{FitsSent, ReplyState};

    ghost Value = { ReplyState };

    ghost view = { λ reply. record { note = reply.note; result = reply.result } };

    ghost invariant = { λ reply. FitsSent reply.note.sent reply.result };
}

impl BatchReply {
    /// Pairs a batch and the reply to the call for it. The reply must have as many keys as the batch has
    /// files, each of the same key as the one that was sent. It does not allocate.
    pub fn new(note: BatchNote, came: BatchResult) -> BatchReply
        requires { FitsSent note.sent came }
        ensures { result ≡ record { note = note; result = came } }
    {
        BatchReply { note, result: came }
    }

    /// Returns the batch.
    pub fn note(&self) -> &BatchNote
        ensures { result.now ≡ self.now.note }
    {
        &self.note
    }

    /// Returns what the reply is.
    pub fn result(&self) -> &BatchResult
        ensures same { result.now ≡ self.now.result }
        ensures fits { FitsSent self.now.note.sent self.now.result }
    {
        &self.result
    }
}
