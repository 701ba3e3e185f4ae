//! Directories of a copy.
ghost use Rattle.std.specs.Prelude.{◌≡◌, IfErr, IsErrOf};
ghost use Rattle.hk_base.specs.Faults.{Rose};
ghost use Rattle.backup_names.specs.Changes.{ChangesTable, MakesDirectory};
ghost use Rattle.backup_names.specs.Ends.{change_end};
ghost use Rattle.backup_names.specs.Orders.{HoldsNamesystem, IsSettled, OrdersNames};
ghost use Rattle.backup_names.specs.Refusals.{CallRefused, NoMemoryOr};
ghost use Rattle.file_orders.specs.Ends.{IsFailure};
ghost use Rattle.name_calls.specs.declared.calls.NameCall.TheVariants as call;

use file_orders::{FsEnd, end_of_names};
use hk_base::{Disk, Text};
use name_calls::{NPath, NameCall, NameReply};
use name_core::Name;
use std::alloc::Global;

/// Returns how a change ended.
fn change_end(reply: NameReply) -> Result<(), FsEnd>
    ensures { result ≡ change_end reply }
{
    match reply {
        NameReply::Done => Ok(()),
        NameReply::Refused(why) => Err(end_of_names(why)),
        _ => Err(FsEnd::NoMemory),
    }
}

/// Makes a directory for a user. Its parent must exist. After an error the table is as before. If
/// the disk failed, the directory may be pending, and then the next change settles it.
pub fn make_directory<E: Disk>(
    alloc: Global,
    name: &mut Name,
    disk: &mut E,
    user: &Text,
    path: &NPath,
) -> Result<(), FsEnd>
    requires holds { HoldsNamesystem (E.state disk.old) name.old }
    requires settled { IsSettled name.old }
    ensures makes { ChangesTable result (MakesDirectory path.now) name.old name.new }
    ensures orders { OrdersNames (E.state disk.old) (E.state disk.new) name.old name.new }
    ensures fault { IsErrOf result FsEnd.StoreFault →
        Rose (E.state disk.old).faults (E.state disk.new).faults }
    ensures failure { IfErr result IsFailure }
    ensures cause { IfErr result (NoMemoryOr (CallRefused (E.state disk.old) (E.state disk.new)
        name.old name.new user.now (call.Mkdir path.now))) }
{
    name.invariants();
    let path = match path.copy(alloc) {
        Err(_) => return Err(FsEnd::NoMemory),
        Ok(path) => path,
    };
    let reply = name.act(disk, user, NameCall::Mkdir { path });
    change_end(reply)
}
