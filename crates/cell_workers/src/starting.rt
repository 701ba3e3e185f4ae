//! Starting the workers.
ghost use Rattle.std.specs.Prelude.{◌≡◌};
ghost use Rattle.std.specs.Thread.{IsSend, IsSync};
ghost use Rattle.cell_workers.specs.Work.{PoolWorks};

use crate::must_join::MustJoin;
use crate::workers::WorkerPool;
use hk_base::{Gate, Words};
use std::snapshot::Snapshot;
use std::sync::Wait;
use std::thread::{Promise, Scope, Threads};
use turns::Turns;

/// What the workers begin with. Their thread promises that they do nothing but work.
#[derive(Drop)]
pub struct PoolStart<V, S: Turns> {
    pub keys: Snapshot<S::Keys>,
    pub names: Snapshot<S::Names>,
    pub first: Snapshot<V>,
    pub second: Snapshot<V>,
}

impl<V, S: Turns> PoolStart<V, S> {
    /// What workers with these passes and words begin with.
    pub fn of(keys: &S::Keys, names: &S::Names, first: &V, second: &V) -> PoolStart<V, S>
        ensures keys { result.keys.value ≡ keys.now }
        ensures names { result.names.value ≡ names.now }
        ensures first { result.first.value ≡ first.now }
        ensures second { result.second.value ≡ second.now }
    {
        PoolStart {
            keys: Snapshot::of(keys),
            names: Snapshot::of(names),
            first: Snapshot::of(first),
            second: Snapshot::of(second),
        }
    }
}

impl<V: Words, S: Turns> Promise<(S::Keys, S::Names)> for PoolStart<V, S> {
    ghost use Rattle.cell_workers.specs.Work.{PoolWorks};

    ghost kept_by = { λ start done.
        PoolWorks (V.to_come start.first.value) (V.to_come start.second.value)
        (S.keys_seen start.keys.value) (S.names_seen start.names.value) (S.keys_seen done.0)
        (S.names_seen done.1) };
}

impl<
    's,
    R: Threads + Wait + Sync + 's,
    D: 's,
    W: 's,
    K: Drop + Send + 's,
    N: Drop + Send + 's,
    S: Turns<D = D, W = W, Keys = K, Names = N> + Sync + 's,
    G: Gate + Sync + 's,
> WorkerPool<'s, R, D, W, K, N, S, G> {
    /// Starts the workers in a thread of their own. If none can be made, the channels are closed, so
    /// that nothing is sent which no worker would receive, and the workers find nothing to do.
    pub fn start<E, V: Words + Send + Drop + 's>(
        &'s self,
        scope: &Scope<'s, E>,
        keys: K,
        names: N,
        first: V,
        second: V,
    ) -> MustJoin<(K, N), PoolStart<V, S>>
        ensures keys { result.keys.value ≡ keys }
        ensures names { result.names.value ≡ names }
        ensures first { result.first.value ≡ first }
        ensures second { result.second.value ≡ second }
    {
        let start: PoolStart<V, S> = PoolStart::of(&keys, &names, &first, &second);
        let promise = Snapshot::of(&start);
        let begun = scope.spawn_with(
            start,
            move || -> (K, N)
                requires { IsSync R.row × IsSend K.row × IsSend N.row × IsSync S.row ×
                    IsSync G.row × IsSend V.row }
                ensures { PoolWorks (V.to_come first) (V.to_come second) (S.keys_seen keys)
                    (S.names_seen names) (S.keys_seen result.0) (S.names_seen result.1) }
            { self.run(keys, names, first, second) },
        );
        match begun {
            Ok(thread) => MustJoin::of_thread(promise, thread),
            Err(refused) => {
                self.senders.close(self.rt);
                MustJoin::of_result(promise, (refused.value)())
            }
        }
    }
}
