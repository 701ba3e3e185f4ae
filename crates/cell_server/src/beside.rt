//! Serving connections beside the workers.
ghost use Rattle.std.specs.Prelude.{◌≡◌};
ghost use Rattle.cell_server.specs.Connections.{Connections, serving_by};
ghost use Rattle.cell_server.specs.Ends.{EndsServing, ServedBeside};

use crate::connections::serve_connections;
use crate::context::ServeContext;
use crate::ends::ServeEnd;
use crate::places::Places;
use cell_workers::{WorkSenders, WorkerPool, open_channels};
use hk_base::{Gate, Words};
use server_parts::Door;
use std::alloc::Global;
use std::sync::Wait;
use std::thread;
use std::thread::{Scope, Threads};
use turns::Turns;

/// Serves connections beside the workers. Once all were left the channels to the workers are closed,
/// and the workers' passes are met.
fn serve_beside<
    's,
    E,
    R: Threads + Wait + Sync + 's,
    D: 's,
    W: 's,
    K: Drop + Send + 's,
    N: Drop + Send + 's,
    S: Turns<D = D, W = W, Keys = K, Names = N> + Sync + 's,
    G: Gate + Sync + 's,
    A: Door,
    V: Words + Send + Drop + 's,
>(
    context: &'s ServeContext<'s, R, S, G, WorkSenders<D, W, K, N, S>>,
    pool: &'s WorkerPool<'s, R, D, W, K, N, S, G>,
    scope: &Scope<'s, E>,
    door: &mut A,
    keys: &mut K,
    names: &mut N,
    conns: u32,
    first: V,
    second: V,
) -> ServeEnd
where
    A::In: 's,
    A::Out: 's,
    A::Handle: 's,
    ensures connections { Connections (serving_by A.In.Source A.Out.Sink)
        (V.to_come first) (V.to_come second)
        (A.state door.old) (S.keys_seen keys.old) (S.names_seen names.old) (A.state door.new)
        (S.keys_seen keys.new) (S.names_seen names.new) }
    ensures ends { EndsServing (A.state door.old) (A.faults door.old) conns result
        (A.state door.new) (A.faults door.new) }
{
    let their_keys = context.shared.split_keys(context.rt, keys);
    let their_names = context.shared.split_names(context.rt, names);
    let workers = pool.start(scope, their_keys, their_names, first, second);
    let end = serve_connections(context, scope, door, keys, names, conns);
    context.notices.close(context.rt);
    let (their_keys, their_names) = workers.join(context.rt);
    context.meet(keys, names, their_keys, their_names);
    end
}

// What is lent ends here, so that the caller's clauses know how.
fn end_of<A, K, N>(_door: &mut A, _keys: &mut K, _names: &mut N, end: ServeEnd) -> ServeEnd
    ensures result { result ≡ end }
    ensures same { (_door.new ≡ _door.old) × (_keys.new ≡ _keys.old) × (_names.new ≡ _names.old) }
{
    end
}

fn serve_in_scope<
    R: Threads + Wait + Sync,
    D,
    W,
    K: Drop + Send,
    N: Drop + Send,
    S: Turns<D = D, W = W, Keys = K, Names = N> + Sync,
    G: Gate + Sync,
    A: Door,
    V: Words + Send + Drop,
>(
    context: &ServeContext<'_, R, S, G, WorkSenders<D, W, K, N, S>>,
    pool: &WorkerPool<'_, R, D, W, K, N, S, G>,
    door: &mut A,
    keys: &mut K,
    names: &mut N,
    conns: u32,
    first: V,
    second: V,
) -> ServeEnd
    ensures connections { Connections (serving_by A.In.Source A.Out.Sink)
        (V.to_come first) (V.to_come second)
        (A.state door.old) (S.keys_seen keys.old) (S.names_seen names.old) (A.state door.new)
        (S.keys_seen keys.new) (S.names_seen names.new) }
    ensures ends { EndsServing (A.state door.old) (A.faults door.old) conns result
        (A.state door.new) (A.faults door.new) }
{
    let served = thread::scope(
        thread::scope_env(),
        context.rt,
        move |scope| -> (&mut A, &mut K, &mut N, ServeEnd)
            ensures { ServedBeside (serving_by A.In.Source A.Out.Sink) (V.to_come first)
                (V.to_come second) A.Door S.keys_seen S.names_seen door.entry keys.entry
                names.entry conns result.0 result.1 result.2 result.3 }
        {
            let end = serve_beside(
                context, pool, scope, door, keys, names, conns, first, second,
            );
            (door, keys, names, end)
        },
    );
    let (door, keys, names, end) = served;
    end_of(door, keys, names, end)
}

/// Accepts `conns` connections, and serves each in a thread of its own, at most `places` at a time.
/// Each is left at the door once it has ended, in the order in which they came. Beside them run two
/// fillers, which draw from `first` and `second`, and the workers of re-encryptions. All passes that were
/// given out are met in the end. If the door fails or takes no more connections, those that run are
/// ended. If allocation fails, none are accepted.
pub fn serve_with_workers<
    R: Threads + Wait + Sync,
    D,
    W,
    K: Drop + Send,
    N: Drop + Send,
    S: Turns<D = D, W = W, Keys = K, Names = N> + Sync,
    G: Gate + Sync,
    A: Door,
    V: Words + Send + Drop,
>(
    rt: &R,
    alloc: Global,
    shared: &S,
    keys: &mut K,
    names: &mut N,
    door: &mut A,
    conns: u32,
    places: u16,
    first: V,
    second: V,
    gate: &G,
) -> ServeEnd
    ensures connections { Connections (serving_by A.In.Source A.Out.Sink)
        (V.to_come first) (V.to_come second)
        (A.state door.old) (S.keys_seen keys.old) (S.names_seen names.old) (A.state door.new)
        (S.keys_seen keys.new) (S.names_seen names.new) }
    ensures ends { EndsServing (A.state door.old) (A.faults door.old) conns result
        (A.state door.new) (A.faults door.new) }
{
    let Ok((senders, receivers)) = open_channels(alloc) else {
        return ServeEnd::NoMemory;
    };
    let all_places = Places::new(places);
    let context = ServeContext {
        rt,
        alloc,
        shared,
        gate,
        notices: &senders,
        places: &all_places,
    };
    let pool = WorkerPool {
        rt,
        alloc,
        shared,
        gate,
        senders: &senders,
        receivers: &receivers,
    };
    serve_in_scope(&context, &pool, door, keys, names, conns, first, second)
}
