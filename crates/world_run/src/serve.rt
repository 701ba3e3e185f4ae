//! What the call for a kept batch needs. All of its memory is taken before the call.
ghost use Rattle.std.specs.Prelude.{◌≡◌, ◌≤◌, [], length, vec_capacity, IfOk};
ghost use Rattle.world_run.specs.Batches.{batch_call};

use batch_calls::BatchCall;
use hk_base::{Edek, NoMemory};
use kms_calls::KmsCall;
use reenc_walk::BatchNote;
use std::alloc::Global;

/// A copy of a batch, the call for it, and an empty vector with room for the keys of the reply.
#[derive(Drop)]
pub struct Serving {
    pub note: BatchNote,
    pub call: KmsCall,
    pub room: Vec<Edek>,
}

/// Prepares the call for a batch. Returns `NoMemory` if allocation fails.
pub fn prepare(alloc: Global, batch: &BatchNote) -> Result<Serving, NoMemory>
    ensures note { IfOk result (λ serving. serving.note ≡ batch.now) }
    ensures call { IfOk result (λ serving. serving.call ≡ batch_call batch.now) }
    ensures empty { IfOk result (λ serving. serving.room.items ≡ []) }
    ensures room { IfOk result (λ serving. length batch.now.sent ≤ vec_capacity serving.room) }
{
    let note = copy_of(alloc, batch)?;
    let BatchCall { call, room } = BatchCall::of(alloc, batch)?;
    Ok(Serving { note, call, room })
}

/// Returns a copy of a batch.
fn copy_of(alloc: Global, batch: &BatchNote) -> Result<BatchNote, NoMemory>
    ensures { IfOk result (λ note. note ≡ batch.now) }
{
    let sent = batch.sent.copy(alloc)?;
    Ok(BatchNote {
        zone: batch.zone,
        session: batch.session,
        sent,
    })
}
