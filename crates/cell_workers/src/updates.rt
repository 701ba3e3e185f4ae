//! The replies for batches, on their way to the updater.
ghost use Rattle.std.specs.Prelude.{◌≡◌};
ghost use Rattle.cell_workers.specs.Batches.{HasAnswer};

use crate::batches::Batch;
use reenc_update::BatchReply;
use std::marker::Model;
use turns::Turns;

/// A batch and the reply to the call for it, with the pass that made this call and no other. The call was not
/// refused for the disk or for memory. Contracts see the batch.
#[derive(Drop)]
pub struct Update<D, W, K: Drop, N: Drop, S: Turns<D = D, W = W, Keys = K, Names = N>> {
    batch: Batch<D, W, K, N, S>,
    keys: K,
    reply: BatchReply,
}

impl<D, W, K: Drop, N: Drop, S: Turns<D = D, W = W, Keys = K, Names = N>> Model
    for Update<D, W, K, N, S> {
    ghost use Rattle.std.specs.Prelude.{◌≡◌};
    ghost use Rattle.cell_workers.specs.Batches.{BatchState, HasAnswer};

    ghost Value = { BatchState };

    ghost view = { λ u. u.batch };

    ghost invariant = { λ u.
        (u.reply.note ≡ u.batch.note) × HasAnswer u.batch.front u.reply (S.keys_seen u.keys) };
}

impl<D, W, K: Drop, N: Drop, S: Turns<D = D, W = W, Keys = K, Names = N>> Update<D, W, K, N, S> {
    /// A reply that this pass has got to the call for the batch, after the front. The pass made no other
    /// call.
    pub fn new(batch: Batch<D, W, K, N, S>, keys: K, reply: BatchReply) -> Update<D, W, K, N, S>
        requires note { reply.note ≡ batch.note }
        requires served { HasAnswer batch.front reply (S.keys_seen keys) }
        ensures { result ≡ batch }
    {
        Update { batch, keys, reply }
    }

    /// Returns the batch, its front, the pass and the reply.
    pub fn into_parts(self) -> (Batch<D, W, K, N, S>, u64, K, BatchReply)
        ensures batch { result.0 ≡ self }
        ensures note { result.3.note ≡ self.note }
        ensures served { HasAnswer result.1 result.3 (S.keys_seen result.2) }
    {
        let Update { batch, keys, reply } = self;
        let front = batch.front();
        (batch, front, keys, reply)
    }
}
