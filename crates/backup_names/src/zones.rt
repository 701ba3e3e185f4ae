//! Zones of a copy, with their keys.
ghost use Rattle.std.specs.Prelude.{◌≡◌, ◌⊎◌, IfErr, IfOk, IsErrOf, Some};
ghost use Rattle.hk_base.specs.Faults.{Rose};
ghost use Rattle.backup_names.specs.Changes.{ChangesTable, FinishesZone, IsAsked};
ghost use Rattle.backup_names.specs.Ends.{IsFaultOfKeys, ShowsRefusal, finish_end};
ghost use Rattle.backup_names.specs.Orders.{HoldsNamesystem, IsSettled, OnlyAsks, OrdersNames};
ghost use Rattle.backup_names.specs.Refusals.{AskRefused, FinishRefused, NoMemoryOr};
ghost use Rattle.file_orders.specs.Ends.{IsFailure};
ghost use Rattle.name_calls.specs.Answers.{answer_of};
ghost use Rattle.name_calls.specs.declared.calls.Ask.TheVariants as ask;

use file_orders::{FsEnd, end_of_names};
use hk_base::{Disk, KeyName, Text};
use kms_calls::KmsReply;
use name_calls::{Answered, Ask, NPath, NameRefusal};
use name_core::Name;
use std::alloc::Global;

/// Returns how a finish ended.
pub(crate) fn finish_end(finished: Result<(), NameRefusal>) -> Result<(), FsEnd>
    ensures { result ≡ finish_end finished }
{
    match finished {
        Ok(()) => Ok(()),
        Err(why) => Err(end_of_names(why)),
    }
}

/// Asks for a directory to become a zone of a key, for a user, and returns the id of the ask. This
/// does not use the disk, and the table stays as it is.
pub fn ask_zone(
    alloc: Global,
    name: &mut Name,
    user: &Text,
    path: &NPath,
    key: KeyName,
) -> Result<u64, FsEnd>
    ensures asked { IfOk result (IsAsked (ask.Zone path.now key) name.new) }
    ensures only { OnlyAsks user.now (ask.Zone path.now key) name.old name.new }
    ensures fault { IsErrOf result FsEnd.StoreFault → ⊥ }
    ensures failure { IfErr result IsFailure }
    ensures cause { IfErr result (NoMemoryOr (AskRefused name.old name.new user.now
        (ask.Zone path.now key))) }
{
    name.invariants();
    let path = match path.copy(alloc) {
        Err(_) => return Err(FsEnd::NoMemory),
        Ok(path) => path,
    };
    match name.ask(user, Ask::Zone { path, key }) {
        Ok(note) => Ok(note.id),
        Err(why) => Err(end_of_names(why)),
    }
}

/// Finishes the ask for a zone with the reply of the key management service to the call for the
/// metadata of its key. If the service refused that call, its refusal is returned. After an error
/// the table is as before. If the disk failed, the mark may be pending, and then the next change
/// settles it.
pub fn finish_zone<E: Disk>(
    name: &mut Name,
    disk: &mut E,
    id: u64,
    reply: KmsReply,
) -> Result<(), FsEnd>
    requires holds { HoldsNamesystem (E.state disk.old) name.old }
    requires settled { IsSettled name.old }
    ensures makes { ChangesTable result (FinishesZone id name.old) name.old name.new }
    ensures orders { OrdersNames (E.state disk.old) (E.state disk.new) name.old name.new }
    ensures refused { ShowsRefusal reply id name.old result }
    ensures fault { IsErrOf result FsEnd.StoreFault →
        Rose (E.state disk.old).faults (E.state disk.new).faults ⊎ IsFaultOfKeys reply }
    ensures failure { IfErr result IsFailure }
    ensures cause { IfErr result (FinishRefused (E.state disk.old) (E.state disk.new) name.old
        name.new id (answer_of (Some reply))) }
{
    let reply = Some(reply);
    finish_end(name.finish(disk, Answered { id, reply }))
}
