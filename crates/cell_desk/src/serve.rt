//! Serving a connection over both cells.
ghost use Rattle.std.specs.Prelude.{◌≡◌, ◌≤◌, ℕ, List};
ghost use Rattle.hk_base.specs.Faults.{Rose};
ghost use Rattle.http_wire.specs.Reading.{ahead};
ghost use Rattle.hk_serve.specs.Served.{Served};
ghost use Rattle.cell_desk.specs.Connections.{MakesOrder, ServedByEntries, connection};

use crate::desk::CellDesk;
use hk_base::{Ended, Gate, Sink, Source};
use hk_serve::serve_conn;
use std::alloc::Global;
use std::sync::Wait;
use turns::{Notices, Turns};

/// Serves the requests of a connection with both services in their cells, as `serve_conn` does, and
/// returns the passes. A request that is a call takes one call of its cell. A request that is a change
/// with a call of the key management service in between takes its ask and its finish. The state of the
/// finish shows that call, made as `hdfs` by a pass that makes no other. If there is no memory for such a
/// request, it is refused and takes none. The passes make no other calls. Other threads may call the cells
/// in between. It passes the gate before each reply, and tells the notices what was generated and
/// submitted. It may wait for the gate and for the locks.
pub fn serve_cells<I: Source, O: Sink, S: Turns, R: Wait, G: Gate, H: Notices>(
    rt: &R,
    alloc: Global,
    shared: &S,
    source: &mut I,
    sink: &mut O,
    keys: S::Keys,
    names: S::Names,
    gate: &G,
    notices: &H,
) -> (Ended, S::Keys, S::Names)
    // Bytes that were read past the last request are unused.
    ensures served { (unused : List ℕ) ×
        Served (MakesOrder S.state S.to_come)
        (connection (I.left source.old) (S.keys_seen keys) (S.names_seen names)
        (O.written sink.old))
        (connection (ahead unused (I.left source.new)) (S.keys_seen result.1)
        (S.names_seen result.2) (O.written sink.new)) result.0 }
    ensures entries { ServedByEntries S.state S.to_come
        (connection (I.left source.old) (S.keys_seen keys) (S.names_seen names)
        (O.written sink.old))
        (connection (I.left source.new) (S.keys_seen result.1) (S.names_seen result.2)
        (O.written sink.new)) result.0 }

    ensures read_later { I.faults source.old ≤ I.faults source.new }
    ensures read_fault { result.0 ≡ Ended.ReadFault →
        Rose (I.faults source.old) (I.faults source.new) }
    ensures write_later { O.faults sink.old ≤ O.faults sink.new }
    ensures write_fault { result.0 ≡ Ended.WriteFault →
        Rose (O.faults sink.old) (O.faults sink.new) }
{
    // The histories that the passes have seen are legal.
    let _ = shared.count_keys(&keys);
    let _ = shared.count_names(&names);
    let mut desk = CellDesk::new(rt, alloc, shared, gate, notices, keys, names);
    let ended = serve_conn(alloc, source, sink, &mut desk);
    let (keys, names) = desk.into_passes();
    (ended, keys, names)
}
