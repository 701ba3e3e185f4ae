//! Work that must be joined.
ghost use Rattle.std.specs.Prelude.{◌≡◌};

use std::marker::Model;
use std::snapshot::Snapshot;
use std::thread::{Promise, PromisedHandle, Threads};

/// Work in a thread of its own, or work that is done already because no thread could be made. It
/// can't be dropped, so no thread is forgotten. Contracts see what its result keeps.
pub struct MustJoin<T, P: Promise<T>> {
    promise: Snapshot<P>,
    work: Result<PromisedHandle<T, P>, T>,
}

impl<T, P: Promise<T>> Model for MustJoin<T, P> {
    ghost use Rattle.std.specs.Prelude.{◌≡◌, MatchResult};

    ghost Value = { P };

    ghost view = { λ m. m.promise.value };

    ghost invariant = { λ m.
        MatchResult m.work (λ thread. thread.promise ≡ m.promise.value)
        (λ done. P.kept_by m.promise.value done) };
}

impl<T, P: Promise<T>> MustJoin<T, P> {
    /// The work of a thread.
    pub fn of_thread(promise: Snapshot<P>, thread: PromisedHandle<T, P>) -> MustJoin<T, P>
        requires { thread.promise ≡ promise.value }
        ensures { result ≡ promise.value }
    {
        MustJoin {
            promise,
            work: Ok(thread),
        }
    }

    /// Work that is done.
    pub fn of_result(promise: Snapshot<P>, done: T) -> MustJoin<T, P>
        requires { P.kept_by promise.value done }
        ensures { result ≡ promise.value }
    {
        MustJoin {
            promise,
            work: Err(done),
        }
    }

    /// Waits for the result.
    pub fn join<R: Threads>(self, rt: &R) -> T
        ensures { P.kept_by self result }
    {
        let MustJoin { promise: _, work } = self;
        match work {
            Ok(thread) => thread.join(rt),
            Err(done) => done,
        }
    }
}
