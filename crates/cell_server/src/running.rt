//! Connections that were begun.
ghost use Rattle.std.specs.Prelude.{◌≡◌, []};
ghost use Rattle.hist_cell.specs.History.{own};
ghost use Rattle.cell_server.specs.Connections.{EndsServed, serving_by};

use crate::context::ServeContext;
use crate::handles::SharedHandle;
use cell_workers::MustJoin;
use hk_base::{Ended, Gate, Sink, Source};
use server_parts::{CloseInput, CloseOutput, Door, HangUp};
use std::collections::VecDeque;
use std::marker::Model;
use std::snapshot::Snapshot;
use std::sync::Wait;
use std::thread::{Promise, Scope, Threads};
use turns::{Notices, Turns};

/// A connection that has ended: both ends, the passes that served it, and how it ended.
#[derive(Drop)]
pub struct Done<I, O, K, N> {
    pub input: I,
    pub out: O,
    pub keys: K,
    pub names: N,
    pub ended: Ended,
}

/// What a connection begins with. Its thread promises to have served it.
#[derive(Drop)]
pub struct ConnStart<I, O, S: Turns> {
    input: Snapshot<I>,
    out: Snapshot<O>,
    keys: Snapshot<S::Keys>,
    names: Snapshot<S::Names>,
}

impl<I, O, S: Turns> Model for ConnStart<I, O, S> {
    ghost use Rattle.cell_server.specs.Connections.{Start};

    ghost Value = { Start I O S.D S.W };

    ghost view = { λ s.
        record {
          input = s.input.value;
          out = s.out.value;
          keys = S.keys_seen s.keys.value;
          names = S.names_seen s.names.value;
        } };
}

impl<I, O, S: Turns> ConnStart<I, O, S> {
    /// What a connection with these ends and passes begins with.
    fn of(input: &I, out: &O, keys: &S::Keys, names: &S::Names) -> ConnStart<I, O, S>
        ensures { result ≡
            record {
              input = input.now;
              out = out.now;
              keys = S.keys_seen keys.now;
              names = S.names_seen names.now;
            } }
    {
        ConnStart {
            input: Snapshot::of(input),
            out: Snapshot::of(out),
            keys: Snapshot::of(keys),
            names: Snapshot::of(names),
        }
    }
}

impl<I: Source, O: Sink, S: Turns> Promise<Done<I, O, S::Keys, S::Names>> for ConnStart<I, O, S> {
    ghost use Rattle.cell_server.specs.Connections.{EndsServed, serving_by};

    ghost kept_by = { λ start done. EndsServed (serving_by I.Source O.Sink) start
        done.input done.out (S.keys_seen done.keys) (S.names_seen done.names) done.ended };
}

/// A connection that was begun. It cannot be dropped: its join returns both ends, the passes and how
/// it ended. Contracts see what it began with.
pub struct Running<I: Source, O: Sink, H: HangUp + Drop, S: Turns> {
    handle: SharedHandle<H>,
    work: MustJoin<Done<I, O, S::Keys, S::Names>, ConnStart<I, O, S>>,
}

impl<I: Source, O: Sink, H: HangUp + Drop, S: Turns> Model for Running<I, O, H, S> {
    ghost use Rattle.cell_server.specs.Connections.{Start};

    ghost Value = { Start I O S.D S.W };

    ghost view = { λ r. r.work };
}

/// The connections that were begun, in the order in which they were accepted.
pub type Queue<A, S> = VecDeque<Running<<A as Door>::In, <A as Door>::Out, <A as Door>::Handle, S>>;

impl<
    I: CloseInput + Send + Drop,
    O: CloseOutput + Send + Drop,
    H: HangUp + Send + Drop,
    K: Drop + Send,
    N: Drop + Send,
    S: Turns<Keys = K, Names = N> + Sync,
> Running<I, O, H, S> {
    /// Serves a connection in a thread of its own, or here if no thread can be made. The passes must
    /// have made no call.
    pub fn begin<'s, E, R: Wait + Sync + 's, G: Gate + Sync + 's, L: Notices + Sync + 's>(
        scope: &Scope<'s, E>,
        context: &'s ServeContext<'s, R, S, G, L>,
        input: I,
        out: O,
        handle: H,
        keys: K,
        names: N,
    ) -> Running<I, O, H, S>
    where
        I: 's,
        O: 's,
        H: 's,
        K: 's,
        N: 's,
        S: 's,
        requires keys { own (S.keys_seen keys).number (S.keys_seen keys).seen ≡ [] }
        requires names { own (S.names_seen names).number (S.names_seen names).seen ≡ [] }
        ensures { result ≡
            record {
              input = input;
              out = out;
              keys = S.keys_seen keys;
              names = S.names_seen names;
            } }
    {
        let start: ConnStart<I, O, S> = ConnStart::of(&input, &out, &keys, &names);
        let promise = Snapshot::of(&start);
        let (handle, theirs) = SharedHandle::pair(context.alloc, handle);
        let serving = move || context.serve(input, out, theirs, keys, names);
        let work = match scope.spawn_with(start, serving) {
            Ok(thread) => MustJoin::of_thread(promise, thread),
            Err(refused) => MustJoin::of_result(promise, (refused.value)()),
        };
        Running { handle, work }
    }
}

impl<I: Source, O: Sink, H: HangUp + Drop, S: Turns> Running<I, O, H, S> {
    /// Ends the connection, as `HangUp::hang_up` does.
    pub fn hang_up<R: Wait>(&self, rt: &R) {
        self.handle.hang_up(rt);
    }

    /// Returns since when the connection has waited for a request, if it waits.
    pub fn waits_since<R: Wait>(&self, rt: &R) -> Option<u64> {
        self.handle.waits_since(rt)
    }

    /// Returns whether the connection is known to have ended.
    pub fn has_ended<R: Wait>(&self, rt: &R) -> bool {
        self.handle.has_ended(rt)
    }

    /// Waits for the connection to end.
    pub fn join<R: Threads>(self, rt: &R) -> Done<I, O, S::Keys, S::Names>
        ensures { EndsServed (serving_by I.Source O.Sink) self result.input
            result.out (S.keys_seen result.keys) (S.names_seen result.names) result.ended }
    {
        let Running { handle, work } = self;
        drop(handle);
        work.join(rt)
    }
}
