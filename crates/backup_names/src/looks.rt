//! Entries of a copy.
ghost use Rattle.std.specs.Prelude.{◌≡◌, ◌⊎◌, Err, IfErr, IfOk, IsErrOf, None, Some, true};
ghost use Rattle.std.specs.Option.{option_map};
ghost use Rattle.backup_names.specs.Ends.{row_end, row_shown};
ghost use Rattle.backup_names.specs.Orders.{HoldsNamesystem, IsSettled, OrdersNames};
ghost use Rattle.backup_names.specs.Refusals.{CallRefused, NoMemoryOr, info_at};
ghost use Rattle.file_orders.specs.Ends.{IsFailure};
ghost use Rattle.inode_tree.specs.Rows.{IsRows, is_dir, is_dir_at, row_at};
ghost use Rattle.name_core.specs.State.{service_of};

use file_orders::{FsEnd, ShownFile, end_of_names};
use hk_base::{Disk, Text};
use inode_tree::{Kind, Row};
use name_calls::{NPath, NameCall, NameRefusal, NameReply, ReadPath};
use name_core::Name;
use std::alloc::Global;

/// Returns the row that a reply shows.
fn row_end(reply: NameReply) -> Result<Row, FsEnd>
    ensures { result ≡ row_end reply }
{
    match reply {
        NameReply::Dir { id, zone, key } => {
            drop(zone);
            Ok(Row {
                id,
                kind: Kind::Dir { key },
            })
        }
        NameReply::File { id, zone, edek } => {
            drop(zone);
            Ok(Row {
                id,
                kind: Kind::File { edek },
            })
        }
        NameReply::Refused(why) => Err(end_of_names(why)),
        _ => Err(FsEnd::NoMemory),
    }
}

/// Does nothing: its contract says that the rows keep their rules.
pub fn keeps_rules(name: &Name)
    ensures { IsRows name.now.store.table.rows }
{
    name.invariants();
}

/// Returns the row at a path, for a user. It changes nothing.
pub fn look<E: Disk>(
    alloc: Global,
    name: &mut Name,
    disk: &mut E,
    user: &Text,
    path: &NPath,
) -> Result<Row, FsEnd>
    requires holds { HoldsNamesystem (E.state disk.old) name.old }
    requires settled { IsSettled name.old }
    ensures row { IfOk result (λ row. row_at name.old.store.table.rows path.now ≡ Some row) }
    ensures none { result ≡ Err (FsEnd.NameRefused NameRefusal.NoSuchPath) →
        row_at name.old.store.table.rows path.now ≡ None }
    ensures own { IsErrOf result FsEnd.Directory → ⊥ }
    ensures same { service_of name.new ≡ service_of name.old }
    ensures fault { IsErrOf result FsEnd.StoreFault → ⊥ }
    ensures failure { IfErr result IsFailure }
    ensures cause { IfErr result (NoMemoryOr (CallRefused (E.state disk.old) (E.state disk.new)
        name.old name.new user.now (info_at path.now))) }
    ensures orders { OrdersNames (E.state disk.old) (E.state disk.new) name.old name.new }
{
    let path = match path.copy(alloc) {
        Err(_) => return Err(FsEnd::NoMemory),
        Ok(path) => path,
    };
    let path = ReadPath {
        path,
        snapshot: None,
    };
    let reply = name.act(disk, user, NameCall::Info { path });
    row_end(reply)
}

/// Returns whether the row at a path is a directory, or `None` if there is none, for a user. It
/// changes nothing.
pub fn is_directory<E: Disk>(
    alloc: Global,
    name: &mut Name,
    disk: &mut E,
    user: &Text,
    path: &NPath,
) -> Result<Option<bool>, FsEnd>
    requires holds { HoldsNamesystem (E.state disk.old) name.old }
    requires settled { IsSettled name.old }
    ensures found { IfOk result
        (λ found. found ≡
        option_map (λ row. is_dir row.kind) (row_at name.old.store.table.rows path.now)) }
    ensures same { service_of name.new ≡ service_of name.old }
    ensures fault { IsErrOf result FsEnd.StoreFault → ⊥ }
    ensures failure { IfErr result IsFailure }
    ensures cause { IfErr result (NoMemoryOr (CallRefused (E.state disk.old) (E.state disk.new)
        name.old name.new user.now (info_at path.now))) }
    ensures orders { OrdersNames (E.state disk.old) (E.state disk.new) name.old name.new }
{
    match look(alloc, name, disk, user, path) {
        Ok(row) => Ok(Some(row.kind.is_dir())),
        Err(FsEnd::NameRefused(NameRefusal::NoSuchPath)) => Ok(None),
        Err(end) => Err(end),
    }
}

/// Returns the file of a row.
fn file_shown(row: Row) -> Result<ShownFile, FsEnd>
    ensures file { IfOk result (λ shown. row ≡ row_shown shown) }
    ensures directory { IfErr result (λ end. (end ≡ FsEnd.Directory) × (is_dir row.kind ≡ true)) }
{
    let Row { id, kind } = row;
    match kind {
        Kind::Dir { .. } => Err(FsEnd::Directory),
        Kind::File { edek } => Ok(ShownFile { id, edek }),
    }
}

/// Returns the file at a path, for a user. Returns `Directory` if it is a directory. It changes
/// nothing.
pub fn look_file<E: Disk>(
    alloc: Global,
    name: &mut Name,
    disk: &mut E,
    user: &Text,
    path: &NPath,
) -> Result<ShownFile, FsEnd>
    requires holds { HoldsNamesystem (E.state disk.old) name.old }
    requires settled { IsSettled name.old }
    ensures file { IfOk result
        (λ shown. row_at name.old.store.table.rows path.now ≡ Some (row_shown shown)) }
    ensures directory { IsErrOf result FsEnd.Directory →
        is_dir_at (row_at name.old.store.table.rows path.now) ≡ true }
    ensures same { service_of name.new ≡ service_of name.old }
    ensures fault { IsErrOf result FsEnd.StoreFault → ⊥ }
    ensures failure { IfErr result IsFailure }
    ensures cause { IfErr result (λ end. (end ≡ FsEnd.Directory) ⊎
        NoMemoryOr (CallRefused (E.state disk.old) (E.state disk.new) name.old name.new user.now
        (info_at path.now)) end) }
    ensures orders { OrdersNames (E.state disk.old) (E.state disk.new) name.old name.new }
{
    match look(alloc, name, disk, user, path) {
        Err(end) => Err(end),
        Ok(row) => file_shown(row),
    }
}
