//! Serving connections, with a door and passes that the caller lends.
ghost use Rattle.std.specs.Prelude.{◌≡◌, ◌+◌, []};
ghost use Rattle.cell_server.specs.Connections.{Going, HasOut, serving_by};
ghost use Rattle.cell_server.specs.Ends.{EndsServing};

use crate::acceptor::{accept_all, drain};
use crate::context::ServeContext;
use crate::ends::ServeEnd;
use crate::hang_ups::hang_up_unserved;
use crate::running::Queue;
use hk_base::Gate;
use server_parts::Door;
use std::alloc::AllocError;
use std::collections::VecDeque;
use std::sync::Wait;
use std::thread::{Scope, Threads};
use turns::{Notices, Turns};

/// How many connections beyond those with a place may wait to be joined.
const UNJOINED: usize = 1024;

// No more connections were left than accepted.
fn no_more_left<A: Door>(_door: &A)
    ensures { HasOut (A.state _door.now) 0 }
{}

/// Accepts `conns` connections, and serves each in a thread of its own, at most as many at a time as the
/// context has places. If all places are taken for half a second, the connection that has waited longest
/// for a request is ended. Each connection is left at the door once it has ended, in the order in which
/// they came, and its passes are then met into those of the caller. If the door fails or takes no more
/// connections, those that run are ended. If allocation fails, none are accepted.
pub fn serve_connections<
    's,
    E,
    R: Threads + Wait + Sync + 's,
    K: Drop + Send + 's,
    N: Drop + Send + 's,
    S: Turns<Keys = K, Names = N> + Sync + 's,
    G: Gate + Sync + 's,
    H: Notices + Sync + 's,
    A: Door,
>(
    context: &'s ServeContext<'s, R, S, G, H>,
    scope: &Scope<'s, E>,
    door: &mut A,
    keys: &mut K,
    names: &mut N,
    conns: u32,
) -> ServeEnd
where
    A::In: 's,
    A::Out: 's,
    A::Handle: 's,
    ensures going { Going (serving_by A.In.Source A.Out.Sink)
        (A.state door.old) (S.keys_seen keys.old) (S.names_seen names.old) (A.state door.new)
        (S.keys_seen keys.new) (S.names_seen names.new) [] }
    ensures ends { EndsServing (A.state door.old) (A.faults door.old) conns result
        (A.state door.new) (A.faults door.new) }
{
    no_more_left(door);
    let opened: Result<Queue<A, S>, AllocError> = VecDeque::with_capacity(
        context.alloc,
        usize::from(context.places.count()) + UNJOINED,
    );
    let Ok(mut queue) = opened else {
        return ServeEnd::NoMemory;
    };
    let end = accept_all(context, scope, door, keys, names, &mut queue, conns);
    hang_up_unserved::<R, A, S>(context.rt, &queue, end);
    drain(context, door, keys, names, &mut queue);
    queue.destroy_empty();
    end
}
