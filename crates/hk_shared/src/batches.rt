//! The call for a batch.
ghost use Rattle.std.specs.Prelude.{◌≡◌, ◌≤◌, [], length, vec_capacity, IfErr, IfOk};
ghost use Rattle.batch_calls.specs.Batches.{batch_call};
ghost use Rattle.name_core.specs.Calls.{superuser};
ghost use Rattle.turns.specs.Turns.{AnswersBatch, ServesTurn, is_temporary, unserved};

use crate::keys::KeyService;
use batch_calls::{BatchCall, reply_for};
use hk_base::{NoMemory, Text};
use kms_calls::{KmsRefusal, KmsReply};
use name_core::superuser;
use reenc_update::{BatchReply, BatchResult};
use reenc_walk::BatchNote;
use std::alloc::Global;
use std::sync::Wait;

/// Makes what the call for a batch takes: the user who makes it, and the call.
fn prepare(alloc: Global, batch: &BatchNote) -> Result<(Text, BatchCall), NoMemory>
    ensures user { IfOk result (λ made. made.0 ≡ superuser) }
    ensures call { IfOk result (λ made. made.1.call ≡ batch_call batch.now) }
    ensures empty { IfOk result (λ made. made.1.room.items ≡ []) }
    ensures room { IfOk result (λ made. length batch.now.sent ≤ vec_capacity made.1.room) }
{
    let user = superuser(alloc)?;
    let call = BatchCall::of(alloc, batch)?;
    Ok((user, call))
}

/// Returns whether a reply is a refusal for the disk or for memory.
fn is_temporary(reply: &KmsReply) -> bool
    ensures { result ≡ is_temporary reply.now }
{
    match reply {
        KmsReply::Refused(KmsRefusal::NoMemory) => true,
        KmsReply::Refused(KmsRefusal::StoreFault) => true,
        _ => false,
    }
}

/// Has a batch re-encrypted: calls the key management service as `hdfs`, with all encrypted keys of the
/// batch, under the key of the first. All memory is taken before the call. If there is none, nothing is
/// called, and the batch is returned. So it is if the call is refused for the disk or for memory. It may
/// wait for the lock.
pub(crate) fn try_serve_batch<K: KeyService, R: Wait>(
    rt: &R,
    alloc: Global,
    keys: &K,
    pass: &mut K::Pass,
    note: BatchNote,
) -> Result<BatchReply, BatchNote>
    ensures served { IfOk result
        (λ came. AnswersBatch K.D.state K.to_come (K.seen pass.old) note came (K.seen pass.new)) }
    ensures unserved { IfErr result
        (λ left.
        (left ≡ note) ×
        ServesTurn K.D.state K.to_come (K.seen pass.old) note (unserved note) (K.seen pass.new)) }
{
    let (user, BatchCall { call, room }) = match prepare(alloc, &note) {
        Ok(prepared) => prepared,
        Err(_) => return Err(note),
    };
    let reply = keys.call(rt, pass, user, call);
    let temporary = is_temporary(&reply);
    if temporary {
        return Err(note);
    }
    Ok(reply_for(note, room, &reply))
}

/// Has a batch re-encrypted, as `try_serve_batch` does. A batch that is not served is refused.
pub(crate) fn serve_batch<K: KeyService, R: Wait>(
    rt: &R,
    alloc: Global,
    keys: &K,
    pass: &mut K::Pass,
    note: BatchNote,
) -> BatchReply
    ensures { ServesTurn K.D.state K.to_come (K.seen pass.old) note result (K.seen pass.new) }
{
    match try_serve_batch(rt, alloc, keys, pass, note) {
        Ok(reply) => reply,
        Err(note) => BatchReply::new(note, BatchResult::Refused),
    }
}
