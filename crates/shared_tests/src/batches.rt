//! Batches of a re-encryption: walks, calls and deliveries.
ghost use Rattle.std.specs.Prelude.{◌≡◌, ◌≤◌, length};
ghost use Rattle.name_history.specs.Served.{GotForBatch};

use crate::callers::{Caller, path};
use crate::gates::OpenGate;
use hk_base::Gate;
use name_calls::{Delivered, NameRefusal};
use name_core::Walked;
use reenc_update::BatchReply;
use reenc_walk::BatchNote;
use std::marker::Model;
use std::process::Abort;
use std::sync::Wait;
use turns::{Lent, Turns};

/// The reply to the call for a batch, with the front of the walk that gave the batch, and the pass that
/// has got the reply. Contracts see the front.
#[derive(Drop)]
pub struct Served<S: Turns> {
    front: u64,
    keys: S::Keys,
    reply: BatchReply,
}

impl<S: Turns> Model for Served<S> {
    ghost use Rattle.std.specs.Prelude.{ℕ};
    ghost use Rattle.name_history.specs.Served.{GotForBatch};

    ghost Value = { ℕ };

    ghost view = { λ served. served.front };

    ghost invariant = { λ served. GotForBatch served.front served.reply (S.keys_seen served.keys) };
}

impl<S: Turns> Served<S> {
    /// Returns the front of the walk.
    pub fn front(&self) -> u64
        ensures { result ≡ self.now }
    {
        self.front
    }

    /// Returns the pass and the reply. At least as many entries as an earlier front come before the
    /// reply too.
    fn into_parts(self, front: u64) -> (S::Keys, BatchReply)
        requires { front ≤ self }
        ensures { GotForBatch front result.1 (S.keys_seen result.0) }
    {
        let Served {
            front: _,
            keys,
            reply,
        } = self;
        (keys, reply)
    }
}

fn note_in(rt: &impl Abort, walked: Result<Walked, NameRefusal>) -> BatchNote {
    match walked {
        Ok(Walked::Batch(note)) => note,
        _ => panic!(rt; "no batch"),
    }
}

fn outstanding_in(walked: &Result<Walked, NameRefusal>) -> Option<u32> {
    match walked {
        Ok(Walked::NoneLeft { outstanding }) => Some(*outstanding),
        Ok(Walked::Completed) => Some(0),
        _ => None,
    }
}

impl<S: Turns, R: Wait + Abort + AllocGlobal> Caller<'_, S, R> {
    /// Walks through the zone.
    fn walk(&mut self) -> Lent<S::Keys>
        ensures { result.front ≡ length (S.keys_seen result.keys).seen }
    {
        let zone = path(self.rt, "/z");
        let lent = self.shared.walk_turn(self.rt, &mut self.names, zone);
        lent.expect(self.rt, "memory")
    }

    /// Walks through the zone. Returns the number of outstanding batches if no file is left, else `None`.
    pub fn outstanding(&mut self) -> Option<u32> {
        let lent = self.walk();
        let outstanding = outstanding_in(&lent.walked);
        drop(lent);
        outstanding
    }

    /// Takes the next batch of the zone and has it re-encrypted by the pass that the walk lends.
    pub fn serve_next(&mut self) -> Served<S> {
        let Lent {
            walked,
            front,
            mut keys,
        } = self.walk();
        let note = note_in(self.rt, walked);
        let alloc = self.rt.alloc();
        let reply = self
            .shared
            .serve_turn(self.rt, alloc, &mut keys, note, &OpenGate);
        Served { front, keys, reply }
    }

    /// Delivers the reply to the call for a batch, with this front, through a gate.
    pub fn deliver<G: Gate>(&mut self, served: Served<S>, front: u64, gate: &G) -> Delivered
        requires { front ≤ served }
    {
        let (keys, reply) = served.into_parts(front);
        let delivered = self
            .shared
            .update_turn(self.rt, &mut self.names, keys, front, reply, gate);
        delivered.expect(self.rt, "a delivery")
    }

    /// Delivers the reply to the call for a batch, with the front of its walk.
    pub fn deliver_as_walked(&mut self, served: Served<S>) -> Delivered {
        let front = served.front();
        self.deliver(served, front, &OpenGate)
    }
}
