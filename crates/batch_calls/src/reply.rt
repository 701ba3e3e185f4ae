//! What the reply to the call for a batch means for it.
ghost use Rattle.std.specs.Prelude.{◌≡◌, ◌≤◌, [], length, vec_capacity};
ghost use Rattle.std.specs.Str.{bytes_eq};
ghost use Rattle.reenc_update.specs.Replies.{are_of_keys};
ghost use Rattle.batch_calls.specs.Batches.{ReplyFits, reply_for};

use hk_base::{Edek, Listing};
use kms_calls::KmsReply;
use reenc_update::{BatchReply, BatchResult};
use reenc_walk::{BatchNote, Sent};

/// Pairs a batch and what the reply to its call means for it: a refusal, unless the reply has one
/// key for each file of the batch, of the same key. The keys are copied into `room`, so no memory is
/// taken.
pub fn reply_for(note: BatchNote, room: Vec<Edek>, reply: &KmsReply) -> BatchReply
    requires empty { room.items ≡ [] }
    requires room { length note.sent ≤ vec_capacity room }
    ensures { ReplyFits note reply.now → result ≡ reply_for note reply.now }
{
    let keys = match reply {
        KmsReply::Ready(keys) => keys.as_slice(),
        _ => return BatchReply::new(note, BatchResult::Refused),
    };
    if !are_of_keys(note.sent.as_slice(), keys) {
        return BatchReply::new(note, BatchResult::Refused);
    }
    let keys = copy_keys(room, keys);
    BatchReply::new(note, BatchResult::Ready(keys))
}

/// Returns whether there is one encrypted key for each file, of the same key as the one that was sent.
fn are_of_keys(sent: &[Sent], keys: &[Edek]) -> bool
    ensures { result ≡ are_of_keys sent.now keys.now }
{
    if sent.len() != keys.len() {
        return false;
    }
    for k in 0..sent.len() {
        if !is_of_same_key(&keys[k], &sent[k].edek) {
            return false;
        }
    }
    true
}

fn is_of_same_key(edek: &Edek, other: &Edek) -> bool
    ensures { result ≡ bytes_eq edek.now.version.key other.now.version.key }
{
    edek.version.key.as_bytes() == other.version.key.as_bytes()
}

fn copy_keys(room: Vec<Edek>, keys: &[Edek]) -> Listing<Edek>
    requires empty { room.items ≡ [] }
    requires room { length keys.now ≤ vec_capacity room }
    ensures { result ≡ keys.now }
{
    let mut copied = room;
    let _ = copied.extend_from_slice(keys);
    Listing::of(copied)
}
