//! Recording an opening.
ghost use Rattle.std.specs.Prelude.{◌≡◌, ◌++◌, [], ◌∷◌, ℕ, List, None, OnOk, IsErrOf};
ghost use Rattle.hk_base.specs.Disk.{LeavesOnly, RunOn, Tells};
ghost use Rattle.hk_base.specs.Faults.{Rose};
ghost use Rattle.frame_log.specs.declared.fault.StartFault.TheVariants as start;
ghost use Rattle.edit_ops.specs.declared.ops.EditOp.{EditOp};
ghost use Rattle.edit_log.specs.Log.{IsEditLogOf};
ghost use Rattle.name_store.specs.Table.{after_table, next_opening};
ghost use Rattle.name_store.specs.Store.{IsWritten};

use crate::names::NameTables;
use edit_log::EditLog;
use edit_ops::EditOp;
use frame_log::StartFault;
use hk_base::Disk;
use std::alloc::Global;

/// Records a new opening after the operations of a log, which make this table. Returns `Spent` only if
/// the last opening is 4,294,967,295.
pub(crate) fn open<D: Disk>(
    alloc: Global,
    disk: &mut D,
    log: &mut EditLog,
    names: &mut NameTables,
) -> Result<(), StartFault>
    requires settled { log.old.pending ≡ None }
    requires stands { Tells (D.state disk.old) →
        ((ops : List EditOp) × IsEditLogOf (D.state disk.old) log.old ops) }

    ensures opened { OnOk result
        ((names.new.table ≡ after_table names.old.table (next_opening names.old.table)) ×
        (log.new.pending ≡ None)) }
    ensures log { OnOk result
        (Tells (D.state disk.old) → (ops : List EditOp) → IsEditLogOf (D.state disk.old) log.old ops
        → IsEditLogOf (D.state disk.new) log.new (ops ++ next_opening names.old.table ∷ [])) }
    ensures damaged { (at : ℕ) → IsErrOf result (start.Damaged at) → ⊥ }
    ensures spent { IsErrOf result start.Spent → names.old.table.opening ≡ 4294967295 }
    ensures moments { Tells (D.state disk.old) → (ops : List EditOp) →
        IsEditLogOf (D.state disk.old) log.old ops
        → LeavesOnly 1 (D.state disk.old) (D.state disk.new)
        (IsWritten ops (next_opening names.old.table)) }
    ensures run { RunOn 1 (D.state disk.old) (D.state disk.new) }
    ensures cause { IsErrOf result start.StoreFault →
        Rose (D.state disk.old).faults (D.state disk.new).faults }
{
    let last = names.opening();
    match log.open(alloc, disk, last) {
        Ok(()) => {
            let next = EditOp::Opened { opening: last + 1 };
            let applied = names.apply(&next);
            drop(next);
            applied?;
            return Ok(());
        }
        Err(fault) => return Err(fault),
    }
}
