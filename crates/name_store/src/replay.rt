//! Reading an edit log: each record is an operation that applies to the table of those before it.
ghost use Rattle.std.specs.Prelude.{◌≡◌, ℕ, List, [], false, IfOk, OnOk, IsErrOf};
ghost use Rattle.hk_base.specs.Disk.{Tells, Reads, RunOn, LeavesOnly};
ghost use Rattle.hk_base.specs.Faults.{Rose};
ghost use Rattle.frame_log.specs.declared.fault.StartFault.TheVariants.{Damaged, StoreFault, Spent};
ghost use Rattle.edit_log.specs.Reader.{OpsAhead};
ghost use Rattle.name_store.specs.Replay.{IsMade, IsNext, IsRefusedAt, IsTaken, applies_beside};
ghost use Rattle.name_store.specs.Table.{nothing_logged};
ghost use Rattle.name_store.specs.Used.{RowsUsed, is_used};

use crate::names::NameTables;
use crate::used::UsedIds;
use edit_log::{OpReader, PlacedOp};
use edit_ops::EditOp;
use frame_log::StartFault;
use hk_base::{Disk, NoMemory};
use std::alloc::Global;

/// Lets an operation take effect if it applies. Returns whether it does. No row has an id that was never
/// used, so the rows are not searched for the id.
fn take(names: &mut NameTables, used: &mut UsedIds, op: &EditOp) -> Result<bool, NoMemory>
    requires { RowsUsed names.old.table (is_used used.old) }
    ensures { IfOk result
        (IsTaken names.old.table (is_used used.old) op.now names.new.table (is_used used.new)) }
{
    names.focus(op);
    let fresh = used.is_fresh(op);
    if !fresh {
        return Ok(false);
    }
    let allowed = names.allows(op)?;
    if !allowed {
        return Ok(false);
    }
    names.reserve_mark(op)?;
    names.apply(op)?;
    used.add(op)?;
    Ok(true)
}

/// Lets an operation take effect, or returns `Damaged` with its offset if it does not apply.
fn take_placed(
    names: &mut NameTables,
    used: &mut UsedIds,
    placed: PlacedOp,
) -> Result<(), StartFault>
    requires { RowsUsed names.old.table (is_used used.old) }
    ensures taken { OnOk result
        (IsNext names.old.table (is_used used.old) placed.op names.new.table (is_used used.new)) }
    ensures damaged { (at : ℕ) → IsErrOf result (Damaged at) →
        (placed.at ≡ at) × (applies_beside names.old.table (is_used used.old) placed.op ≡ false) }
    ensures fault { IsErrOf result StoreFault → ⊥ }
    ensures spent { IsErrOf result Spent → ⊥ }
{
    let at = placed.at;
    let taken = take(names, used, &placed.op);
    drop(placed);
    match taken {
        Ok(true) => Ok(()),
        Ok(false) => Err(StartFault::Damaged { at }),
        Err(why) => Err(StartFault::from(why)),
    }
}

/// Lets the operations that a reader returns take effect. `Damaged` has the offset of the first record
/// that is not an operation or does not apply.
fn take_all<D: Disk>(
    alloc: Global,
    disk: &mut D,
    reader: &mut OpReader,
    names: &mut NameTables,
    used: &mut UsedIds,
) -> Result<(), StartFault>
    requires ahead { Tells (D.state disk.old) →
        ((todo : List (List ℕ)) × OpsAhead (D.state disk.old) reader.old [] todo) }
    requires empty { names.old.table ≡ nothing_logged.table }
    requires unused { (id : ℕ) → is_used used.old id ≡ false }

    ensures made { OnOk result (IsMade (D.state disk.old) reader.old names.new.table) }
    ensures damaged { (at : ℕ) → IsErrOf result (Damaged at) → Tells (D.state disk.old) →
        (todo : List (List ℕ)) → OpsAhead (D.state disk.old) reader.old [] todo →
        IsRefusedAt todo at }
    ensures spent { IsErrOf result Spent → ⊥ }
    ensures cause { IsErrOf result StoreFault →
        Rose (D.state disk.old).faults (D.state disk.new).faults }
    ensures same { Reads 1 (D.state disk.old) (D.state disk.new) }
    ensures run { RunOn 1 (D.state disk.old) (D.state disk.new) }
    ensures moments { LeavesOnly 1 (D.state disk.old) (D.state disk.new)
        ((D.state disk.old).leaves 1) }
{
    'each: loop {
        match reader.next(alloc, disk)? {
            None => return Ok(()),
            Some(placed) => take_placed(names, used, placed)?,
        }
    }
}

/// Makes the table of the operations that a reader returns. `Damaged` has the offset of the first record
/// that is not an operation or does not apply.
pub(crate) fn replay<D: Disk>(
    alloc: Global,
    disk: &mut D,
    reader: &mut OpReader,
) -> Result<NameTables, StartFault>
    requires ahead { Tells (D.state disk.old) →
        ((todo : List (List ℕ)) × OpsAhead (D.state disk.old) reader.old [] todo) }

    ensures made { IfOk result (λ names. IsMade (D.state disk.old) reader.old names.table) }
    ensures damaged { (at : ℕ) → IsErrOf result (Damaged at) → Tells (D.state disk.old) →
        (todo : List (List ℕ)) → OpsAhead (D.state disk.old) reader.old [] todo →
        IsRefusedAt todo at }
    ensures spent { IsErrOf result Spent → ⊥ }
    ensures cause { IsErrOf result StoreFault →
        Rose (D.state disk.old).faults (D.state disk.new).faults }
    ensures same { Reads 1 (D.state disk.old) (D.state disk.new) }
    ensures run { RunOn 1 (D.state disk.old) (D.state disk.new) }
    ensures moments { LeavesOnly 1 (D.state disk.old) (D.state disk.new)
        ((D.state disk.old).leaves 1) }
{
    let mut names = NameTables::new(alloc)?;
    let mut used = UsedIds::new(alloc);
    let taken = take_all(alloc, disk, reader, &mut names, &mut used);
    drop(used);
    match taken {
        Ok(()) => Ok(names),
        Err(fault) => {
            drop(names);
            Err(fault)
        }
    }
}
