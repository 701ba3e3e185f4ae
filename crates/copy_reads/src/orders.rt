//! Reading a range of a copy over events.
ghost use Rattle.std.specs.Prelude.{◌≡◌, ◌≤◌, IfErr};
ghost use Rattle.hk_base.specs.Faults.{Rose};
ghost use Rattle.name_core.specs.State.{service_of};
ghost use Rattle.backup_names.specs.Orders.{HoldsNamesystem, IsSettled, OrdersNames};
ghost use Rattle.copy_reads.specs.Copies.{CauseOfRead, FindsCopy, ReadsCopy};

use backup_names::look_file;
use body_stream::Vault;
use file_orders::{Events, FsEnd, ShownFile, open_shown, send};
use hk_base::{Disk, Sink, Text};
use name_calls::{NPath, NameRefusal, PathFault};
use name_core::Name;
use std::alloc::Global;

/// Returns the file at a path of the second namesystem, for a user. It changes nothing.
fn find_copy<E: Disk>(
    alloc: Global,
    name: &mut Name,
    backup: &mut E,
    user: &Text,
    path: &Text,
) -> Result<ShownFile, FsEnd>
    requires holds { HoldsNamesystem (E.state backup.old) name.old }
    requires settled { IsSettled name.old }
    ensures finds { FindsCopy name.old.store.table.rows path.now result }
    ensures cause { IfErr result (CauseOfRead name.old user.now path.now) }
    ensures same { service_of name.new ≡ service_of name.old }
    ensures orders { OrdersNames (E.state backup.old) (E.state backup.new) name.old name.new }
{
    match NPath::read(alloc, path.as_str().as_bytes()) {
        Ok(place) => look_file(alloc, name, backup, user, &place),
        Err(PathFault::BadPath) => Err(FsEnd::NameRefused(NameRefusal::BadPath)),
        Err(PathFault::NoMemory) => Err(FsEnd::NoMemory),
    }
}

/// Writes a range of the copy at a path for a user, decrypted if it has an encrypted key. A range past
/// the end is cut. The file is that of the second namesystem, which is not changed, and only the live
/// files are read. The events decrypt the key, and nothing else happens to them. If the read is refused
/// before that, the clause `cause` says by what.
pub fn read_copy<T: Events, E: Disk, U: Vault, K: Sink>(
    alloc: Global,
    events: &mut T,
    name: &mut Name,
    backup: &mut E,
    user: &Text,
    path: &Text,
    from: u64,
    count: u64,
    copies: &mut U,
    out: &mut K,
) -> FsEnd
    requires ready { T.ready events.old }
    requires holds { HoldsNamesystem (E.state backup.old) name.old }
    requires settled { IsSettled name.old }
    ensures reads { ReadsCopy T.leads name.old.store.table.rows user.now path.now from count
        events.old result events.new (U.state copies.old) (U.state copies.new)
        (K.written out.old) (K.written out.new) }
    ensures cause { CauseOfRead name.old user.now path.now result }
    ensures ready { T.ready events.new }
    ensures same { service_of name.new ≡ service_of name.old }
    ensures orders { OrdersNames (E.state backup.old) (E.state backup.new) name.old name.new }
    ensures out_later { K.faults out.old ≤ K.faults out.new }
    ensures write { result ≡ FsEnd.WriteFault → Rose (K.faults out.old) (K.faults out.new) }
    ensures vault { result ≡ FsEnd.VaultFault →
        Rose (U.state copies.old).faults (U.state copies.new).faults }
    ensures own { (result ≡ FsEnd.ReadFault → ⊥) × (result ≡ FsEnd.TooLong → ⊥) }
{
    let found = find_copy(alloc, name, backup, user, path);
    match open_shown(alloc, events, user, found) {
        Ok(file) => send(copies, out, file, from, count),
        Err(end) => end,
    }
}
