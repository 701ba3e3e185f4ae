//! Batches that are served until one delivery of them is accepted.
ghost use Rattle.std.specs.Prelude.{◌≡◌, IfOk};
ghost use Rattle.cell_workers.specs.Batches.{IsLent};

use hk_base::NoMemory;
use name_calls::NPath;
use reenc_walk::BatchNote;
use std::alloc::Global;
use std::marker::{Model, PhantomData};
use std::snapshot::Snapshot;
use std::sync::Wait;
use turns::Turns;

/// A batch of a zone, with the front of the walk that gave it, and the pass that the walk lent. This pass
/// makes no call. Each time the batch is served, a pass is split from it.
// All types of `S` are parameters, since the threads of a scope share no type in which one is hidden.
#[derive(Drop)]
pub struct Batch<D, W, K: Drop, N: Drop, S: Turns<D = D, W = W, Keys = K, Names = N>> {
    zone: NPath,
    note: BatchNote,
    front: u64,
    keys: K,
    of: PhantomData<Snapshot<(D, W, N, S)>>,
}

impl<D, W, K: Drop, N: Drop, S: Turns<D = D, W = W, Keys = K, Names = N>> Model
    for Batch<D, W, K, N, S> {
    ghost use Rattle.cell_workers.specs.Batches.{BatchState, IsLent};

    ghost Value = { BatchState };

    ghost view = { λ b. record { zone = b.zone; note = b.note; front = b.front } };

    ghost invariant = { λ b. IsLent b.front (S.keys_seen b.keys) };
}

/// Returns a copy of a batch.
fn copy_note(alloc: Global, note: &BatchNote) -> Result<BatchNote, NoMemory>
    ensures { IfOk result (λ copy. copy ≡ note.now) }
{
    let sent = note.sent.copy(alloc)?;
    Ok(BatchNote {
        zone: note.zone,
        session: note.session,
        sent,
    })
}

impl<D, W, K: Drop, N: Drop, S: Turns<D = D, W = W, Keys = K, Names = N>> Batch<D, W, K, N, S> {
    /// A batch that a walk through the zone gave, with the pass that it lent.
    pub fn new(zone: NPath, note: BatchNote, front: u64, keys: K) -> Batch<D, W, K, N, S>
        requires { IsLent front (S.keys_seen keys) }
        ensures { result ≡ record { zone = zone; note = note; front = front } }
    {
        Batch {
            zone,
            note,
            front,
            keys,
            of: PhantomData,
        }
    }

    /// Returns the front.
    pub fn front(&self) -> u64
        ensures { result ≡ self.now.front }
    {
        self.front
    }

    /// Returns the path of the zone.
    pub fn zone(&self) -> &NPath
        ensures { result.now ≡ self.now.zone }
    {
        &self.zone
    }

    /// Returns a copy of the batch as the walk gave it. Returns `NoMemory` if allocation fails.
    pub fn note(&self, alloc: Global) -> Result<BatchNote, NoMemory>
        ensures { IfOk result (λ note. note ≡ self.now.note) }
    {
        copy_note(alloc, &self.note)
    }

    /// Splits a pass from the one that the walk lent. The batch is unchanged.
    pub fn split_keys<R: Wait>(&mut self, rt: &R, shared: &S) -> K
        ensures same { self.new ≡ self.old }
        ensures lent { IsLent self.old.front (S.keys_seen result) }
    {
        shared.split_keys(rt, &mut self.keys)
    }

    /// Gives the path of the zone back.
    pub fn into_zone(self) -> NPath
        ensures { result ≡ self.zone }
    {
        let Batch {
            zone,
            note,
            front: _,
            keys,
            of: _,
        } = self;
        drop(note);
        drop(keys);
        zone
    }
}
