//! The acceptor.
ghost use Rattle.std.specs.Prelude.{◌≡◌, ◌≢◌, ◌+◌, ◌<◌, ◌≤◌, ◌∷◌, [], List, IfNone, IsTrue, None, Some};
ghost use Rattle.std.specs.VecDeque.{deque_len, deque_capacity};
ghost use Rattle.hk_base.specs.Faults.{Rose};
ghost use Rattle.server_parts.specs.Doors.{DoorState, with_accepted};
ghost use Rattle.cell_server.specs.Connections.{ConnectionsGoOn, HasOut, Start, serving_by};

use crate::context::ServeContext;
use crate::ends::ServeEnd;
use crate::hang_ups::{count_to_join, take_place};
use crate::running::{Done, Queue, Running};
use hk_base::Gate;
use server_parts::{Accepted, Door};
use std::sync::Wait;
use std::thread::{Scope, Threads};
use turns::{Notices, Turns};

/// Waits for a connection to end, leaves it at the door, and meets its passes.
fn finish<'a, R: Threads + Wait, S: Turns, G: Gate, H: Notices, A: Door>(
    context: &ServeContext<'a, R, S, G, H>,
    door: &mut A,
    keys: &mut S::Keys,
    names: &mut S::Names,
    oldest: Running<A::In, A::Out, A::Handle, S>,
)
    requires { HasOut (A.state door.old) 1 }
    ensures goes_on { (more : List (Start A.In A.Out S.D S.W)) →
        ConnectionsGoOn (serving_by A.In.Source A.Out.Sink)
        (A.state door.old) (S.keys_seen keys.old) (S.names_seen names.old) (oldest ∷ more)
        (A.state door.new) (S.keys_seen keys.new) (S.names_seen names.new) more }
    ensures left { (A.state door.new).left ≡ (A.state door.old).left + 1 }
    ensures accepted { (A.state door.new).accepted ≡ (A.state door.old).accepted }
    ensures closed { (A.state door.new).closed ≡ (A.state door.old).closed }
    ensures faults { A.faults door.new ≡ A.faults door.old }
{
    let done = oldest.join(context.rt);
    let Done {
        input,
        out,
        keys: their_keys,
        names: their_names,
        ended,
    } = done;
    door.leave(input, out, ended);
    context.meet(keys, names, their_keys, their_names);
}

/// Joins the first `count` connections of the queue.
fn finish_first<'a, R: Threads + Wait, S: Turns, G: Gate, H: Notices, A: Door>(
    context: &ServeContext<'a, R, S, G, H>,
    door: &mut A,
    keys: &mut S::Keys,
    names: &mut S::Names,
    queue: &mut Queue<A, S>,
    count: usize,
)
    requires count { count ≤ deque_len queue.old }
    requires running { HasOut (A.state door.old) (deque_len queue.old) }
    ensures goes_on { ConnectionsGoOn (serving_by A.In.Source A.Out.Sink)
        (A.state door.old) (S.keys_seen keys.old) (S.names_seen names.old) queue.old.items
        (A.state door.new) (S.keys_seen keys.new) (S.names_seen names.new) queue.new.items }
    ensures fewer { deque_len queue.new + count ≡ deque_len queue.old }
    ensures capacity { deque_capacity queue.new ≡ deque_capacity queue.old }
    ensures running { HasOut (A.state door.new) (deque_len queue.new) }
    ensures accepted { (A.state door.new).accepted ≡ (A.state door.old).accepted }
    ensures faults { A.faults door.new ≡ A.faults door.old }
{
    for _ in 0..count {
        match queue.pop_front() {
            Some(oldest) => finish(context, door, keys, names, oldest),
            None => unreachable!(),
        }
    }
}

/// Begins a connection that was accepted. The queue must have room for it.
fn begin_one<
    's,
    E,
    R: Threads + Wait + Sync + 's,
    K: Drop + Send + 's,
    N: Drop + Send + 's,
    S: Turns<Keys = K, Names = N> + Sync + 's,
    G: Gate + Sync + 's,
    H: Notices + Sync + 's,
    A: Door,
>(
    context: &'s ServeContext<'s, R, S, G, H>,
    scope: &Scope<'s, E>,
    accepted: Accepted<A::In, A::Out, A::Handle>,
    keys: &mut K,
    names: &mut N,
    queue: &mut Queue<A, S>,
)
where
    A::In: 's,
    A::Out: 's,
    A::Handle: 's,
    requires room { deque_len queue.old < deque_capacity queue.old }
    ensures goes_on { (door : DoorState A.In A.Out) →
        ConnectionsGoOn (serving_by A.In.Source A.Out.Sink) door (S.keys_seen keys.old)
        (S.names_seen names.old) queue.old.items
        (with_accepted door (accepted.input, accepted.out)) (S.keys_seen keys.new)
        (S.names_seen names.new) queue.new.items }
    ensures capacity { deque_capacity queue.new ≡ deque_capacity queue.old }
    ensures more { deque_len queue.new ≡ deque_len queue.old + 1 }
{
    let Accepted { input, out, handle } = accepted;
    let their_keys = context.shared.split_keys(context.rt, keys);
    let their_names = context.shared.split_names(context.rt, names);
    let begun = Running::begin(scope, context, input, out, handle, their_keys, their_names);
    queue.push_back_reserved(begun);
}

/// Accepts a connection, waits for a place for it, and begins it. The queue must have room for it.
/// If all places are taken for half a second, the connection that has waited longest for a request is
/// ended. Returns how the server ends if no connection came.
fn accept_one<
    's,
    E,
    R: Threads + Wait + Sync + 's,
    K: Drop + Send + 's,
    N: Drop + Send + 's,
    S: Turns<Keys = K, Names = N> + Sync + 's,
    G: Gate + Sync + 's,
    H: Notices + Sync + 's,
    A: Door,
>(
    context: &'s ServeContext<'s, R, S, G, H>,
    scope: &Scope<'s, E>,
    door: &mut A,
    keys: &mut K,
    names: &mut N,
    queue: &mut Queue<A, S>,
) -> Option<ServeEnd>
where
    A::In: 's,
    A::Out: 's,
    A::Handle: 's,
    requires room { deque_len queue.old < deque_capacity queue.old }
    requires running { HasOut (A.state door.old) (deque_len queue.old) }
    ensures goes_on { ConnectionsGoOn (serving_by A.In.Source A.Out.Sink)
        (A.state door.old) (S.keys_seen keys.old) (S.names_seen names.old) queue.old.items
        (A.state door.new) (S.keys_seen keys.new) (S.names_seen names.new) queue.new.items }
    ensures capacity { deque_capacity queue.new ≡ deque_capacity queue.old }
    ensures running { HasOut (A.state door.new) (deque_len queue.new) }
    ensures accepted { IfNone result
        ((A.state door.new).accepted ≡ (A.state door.old).accepted + 1) }
    ensures unserved { result ≢ Some ServeEnd.Served }
    ensures closed { result ≡ Some ServeEnd.Closed → IsTrue (A.state door.new).closed }
    ensures later { A.faults door.old ≤ A.faults door.new }
    ensures cause { result ≡ Some ServeEnd.DoorFault →
        Rose (A.faults door.old) (A.faults door.new) }
{
    match door.accept() {
        Ok(Some(accepted)) => {
            take_place::<R, A, S>(context.rt, context.places, queue);
            begin_one::<E, R, K, N, S, G, H, A>(context, scope, accepted, keys, names, queue);
            None
        }
        Ok(None) => Some(ServeEnd::Closed),
        Err(_) => Some(ServeEnd::DoorFault),
    }
}

/// Joins all connections that still run.
pub fn drain<'a, R: Threads + Wait, S: Turns, G: Gate, H: Notices, A: Door>(
    context: &ServeContext<'a, R, S, G, H>,
    door: &mut A,
    keys: &mut S::Keys,
    names: &mut S::Names,
    queue: &mut Queue<A, S>,
)
    requires { HasOut (A.state door.old) (deque_len queue.old) }
    ensures goes_on { ConnectionsGoOn (serving_by A.In.Source A.Out.Sink)
        (A.state door.old) (S.keys_seen keys.old) (S.names_seen names.old) queue.old.items
        (A.state door.new) (S.keys_seen keys.new) (S.names_seen names.new) [] }
    ensures none { queue.new.items ≡ [] }
    ensures accepted { (A.state door.new).accepted ≡ (A.state door.old).accepted }
    ensures closed { (A.state door.new).closed ≡ (A.state door.old).closed }
    ensures faults { A.faults door.new ≡ A.faults door.old }
{
    while let Some(oldest) = queue.pop_front() {
        finish(context, door, keys, names, oldest);
    }
}

/// Accepts `conns` connections, and begins each once there is a place for it. Returns how the server
/// ends: `Served` if all came.
pub fn accept_all<
    's,
    E,
    R: Threads + Wait + Sync + 's,
    K: Drop + Send + 's,
    N: Drop + Send + 's,
    S: Turns<Keys = K, Names = N> + Sync + 's,
    G: Gate + Sync + 's,
    H: Notices + Sync + 's,
    A: Door,
>(
    context: &'s ServeContext<'s, R, S, G, H>,
    scope: &Scope<'s, E>,
    door: &mut A,
    keys: &mut K,
    names: &mut N,
    queue: &mut Queue<A, S>,
    conns: u32,
) -> ServeEnd
where
    A::In: 's,
    A::Out: 's,
    A::Handle: 's,
    requires capacity { 0 < deque_capacity queue.old }
    requires running { HasOut (A.state door.old) (deque_len queue.old) }
    ensures goes_on { ConnectionsGoOn (serving_by A.In.Source A.Out.Sink)
        (A.state door.old) (S.keys_seen keys.old) (S.names_seen names.old) queue.old.items
        (A.state door.new) (S.keys_seen keys.new) (S.names_seen names.new) queue.new.items }
    ensures running { HasOut (A.state door.new) (deque_len queue.new) }
    ensures accepted { result ≡ ServeEnd.Served →
        (A.state door.new).accepted ≡ (A.state door.old).accepted + conns }
    ensures closed { result ≡ ServeEnd.Closed → IsTrue (A.state door.new).closed }
    ensures later { A.faults door.old ≤ A.faults door.new }
    ensures cause { result ≡ ServeEnd.DoorFault → Rose (A.faults door.old) (A.faults door.new) }
{
    for _ in 0..conns {
        let count = count_to_join::<R, A, S>(context.rt, queue);
        finish_first(context, door, keys, names, queue, count);
        if let Some(end) = accept_one(context, scope, door, keys, names, queue) {
            return end;
        }
    }
    ServeEnd::Served
}
