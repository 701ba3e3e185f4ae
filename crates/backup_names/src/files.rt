//! Files of a copy, with their encrypted keys.
ghost use Rattle.std.specs.Prelude.{◌≡◌, IfErr, IfOk, IsErrOf};
ghost use Rattle.hk_base.specs.Faults.{Rose};
ghost use Rattle.backup_names.specs.Changes.{ChangesTable, FinishesFile, IsAsked};
ghost use Rattle.backup_names.specs.Orders.{HoldsNamesystem, IsSettled, OnlyAsks, OrdersNames};
ghost use Rattle.backup_names.specs.Refusals.{AskRefused, FinishRefused, NoMemoryOr};
ghost use Rattle.file_orders.specs.Ends.{IsFailure};
ghost use Rattle.name_calls.specs.declared.calls.Ask.TheVariants as ask;
ghost use Rattle.name_calls.specs.declared.calls.KeyAnswer.TheVariants as answer;

use crate::zones::finish_end;
use file_orders::{FsEnd, end_of_names};
use hk_base::{Disk, Edek, Text};
use name_calls::{Ask, KeyAnswer, NPath};
use name_core::Name;
use std::alloc::Global;

/// Asks for a new file for a user, and returns its id. The body may be written under the id before
/// the ask is finished. This does not use the disk, and the table stays as it is.
pub fn ask_file(alloc: Global, name: &mut Name, user: &Text, path: &NPath) -> Result<u64, FsEnd>
    ensures asked { IfOk result (IsAsked (ask.Create path.now) name.new) }
    ensures only { OnlyAsks user.now (ask.Create path.now) name.old name.new }
    ensures fault { IsErrOf result FsEnd.StoreFault → ⊥ }
    ensures failure { IfErr result IsFailure }
    ensures cause { IfErr result (NoMemoryOr (AskRefused name.old name.new user.now
        (ask.Create path.now))) }
{
    name.invariants();
    let path = match path.copy(alloc) {
        Err(_) => return Err(FsEnd::NoMemory),
        Ok(path) => path,
    };
    match name.ask(user, Ask::Create { path }) {
        Ok(note) => Ok(note.id),
        Err(why) => Err(end_of_names(why)),
    }
}

/// Finishes the ask for a file with the encrypted key that the file gets, or with none outside all
/// zones. After an error the table is as before. If the disk failed, the file may be pending, and
/// then the next change settles it.
pub fn finish_file<E: Disk>(
    name: &mut Name,
    disk: &mut E,
    id: u64,
    edek: Option<Edek>,
) -> Result<(), FsEnd>
    requires holds { HoldsNamesystem (E.state disk.old) name.old }
    requires settled { IsSettled name.old }
    ensures makes { ChangesTable result (FinishesFile id edek name.old) name.old name.new }
    ensures orders { OrdersNames (E.state disk.old) (E.state disk.new) name.old name.new }
    ensures fault { IsErrOf result FsEnd.StoreFault →
        Rose (E.state disk.old).faults (E.state disk.new).faults }
    ensures failure { IfErr result IsFailure }
    ensures cause { IfErr result (FinishRefused (E.state disk.old) (E.state disk.new) name.old
        name.new id (answer.Given edek)) }
{
    finish_end(name.finish_with(disk, id, KeyAnswer::Given(edek)))
}
