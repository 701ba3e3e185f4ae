//! A whole server.
ghost use Rattle.std.specs.Prelude.{◌≡◌};
ghost use Rattle.hk_base.specs.Faults.{Rose};
ghost use Rattle.cell_server.specs.Connections.{serving_by};
ghost use Rattle.cell_server.specs.Serves.{ServesAll, ServesOpened};

use crate::beside::serve_with_workers;
use crate::ends::ServeEnd;
use cell_workers::last_round;
use hk_base::{Gate, Words};
use server_parts::Door;
use std::alloc::Global;
use std::sync::Wait;
use std::thread::Threads;
use turns::Turns;

/// Serves connections at a door that is open, and then makes the last round if all connections were
/// served.
fn serve_opened<
    R: Threads + Wait + Sync,
    K: Drop + Send,
    N: Drop + Send,
    S: Turns<Keys = K, Names = N> + Sync,
    G: Gate + Sync,
    A: Door,
    V: Words + Send + Drop,
>(
    rt: &R,
    alloc: Global,
    shared: &S,
    keys: &mut K,
    names: &mut N,
    door: &mut A,
    conns: u32,
    places: u16,
    first: V,
    second: V,
    gate: &G,
) -> ServeEnd
    ensures serves { ServesOpened (serving_by A.In.Source A.Out.Sink) (V.to_come first)
        (V.to_come second) S.state S.to_come (A.state door.old) (S.keys_seen keys.old)
        (S.names_seen names.old) conns result (A.state door.new) (S.keys_seen keys.new)
        (S.names_seen names.new) }
    ensures cause { result ≡ ServeEnd.DoorFault → Rose (A.faults door.old) (A.faults door.new) }
{
    let end = serve_with_workers(
        rt, alloc, shared, keys, names, door, conns, places, first, second, gate,
    );
    // The histories that the passes have seen are legal.
    let _ = shared.count_keys(keys);
    let _ = shared.count_names(names);
    match end {
        ServeEnd::Served => match last_round(rt, alloc, shared, names, gate) {
            Ok(()) => ServeEnd::Served,
            Err(_) => ServeEnd::NoMemory,
        },
        ServeEnd::Closed => ServeEnd::Closed,
        ServeEnd::DoorFault => ServeEnd::DoorFault,
        ServeEnd::NoMemory => ServeEnd::NoMemory,
    }
}

/// Serves both services over connections: opens the door on `port`, and accepts `conns` connections.
/// Each is served in a thread of its own, at most `places` at a time, and left at the door once it
/// has ended, in the order in which they came. If all places are taken for half a second while a
/// connection waits for one, the connection that has waited longest for a request is ended. Beside them
/// run two fillers, which draw from `first` and `second`, and the workers of re-encryptions.
///
/// If all connections were served, a last round then finishes the re-encryptions that the workers left.
/// If the door fails or takes no more connections, those that run are ended, and there is no last round.
/// It may wait for the door, the connections, the gate and the locks, and waits for ever if `places` is 0.
pub fn serve_all<
    R: Threads + Wait + Sync,
    K: Drop + Send,
    N: Drop + Send,
    S: Turns<Keys = K, Names = N> + Sync,
    G: Gate + Sync,
    A: Door,
    V: Words + Send + Drop,
>(
    rt: &R,
    alloc: Global,
    shared: &S,
    keys: &mut K,
    names: &mut N,
    door: &mut A,
    port: u16,
    conns: u32,
    places: u16,
    first: V,
    second: V,
    gate: &G,
) -> ServeEnd
    ensures serves { ServesAll (serving_by A.In.Source A.Out.Sink)
        (V.to_come first) (V.to_come second) S.state S.to_come
        (A.state door.old) (S.keys_seen keys.old) (S.names_seen names.old) port conns result
        (A.state door.new) (S.keys_seen keys.new) (S.names_seen names.new) }
    ensures cause { result ≡ ServeEnd.DoorFault → Rose (A.faults door.old) (A.faults door.new) }
{
    match door.open(port) {
        Ok(()) => serve_opened(
            rt, alloc, shared, keys, names, door, conns, places, first, second, gate,
        ),
        Err(_) => {
            // The histories that the passes have seen are legal.
            let _ = shared.count_keys(keys);
            let _ = shared.count_names(names);
            ServeEnd::DoorFault
        }
    }
}
