//! The operations of an edit log, one after another.
ghost use Rattle.std.specs.Prelude.{◌≡◌};

use crate::replay::{PlacedOp, opening_after, read_record};
use frame_log::{Records, StartFault};
use hk_base::Disk;
use std::alloc::Global;

/// A reader of the operations of an edit log, in file order. The log must not be written before the last
/// operation is read.
#[derive(Drop)]
pub struct OpReader {
    pub(crate) records: Records,
    /// The last opening among the operations returned, or 0.
    pub(crate) opening: u32,
    ghost names: { records.file ≡ 1 },
}

impl OpReader {
    ghost use Rattle.std.specs.Prelude.{◌<◌, ℕ, List, IfOk, IsSome, IsErrOf};
    ghost use Rattle.hk_base.specs.Disk.{Tells, Reads, RunOn, LeavesOnly};
    ghost use Rattle.hk_base.specs.Faults.{Rose};
    ghost use Rattle.frame_log.specs.Ahead.{left};
    ghost use Rattle.frame_log.specs.declared.fault.StartFault.TheVariants.{Damaged, StoreFault, Spent};
    ghost use Rattle.edit_ops.specs.declared.ops.EditOp.{EditOp};
    ghost use Rattle.edit_log.specs.Reader.{OpsAhead, IsNextOp, HasNoNextOp};

    /// Reads the next operation, or `None` after the last. After `None` nothing is ahead: unless the disk
    /// fails, the next call returns `None` again. Returns `Damaged` only if the next record is not an
    /// operation, or is an opening that is not one more than the last, or another operation before the first
    /// opening, or if the disk doesn't tell what the file holds. The offset is that of the gate before the
    /// record. After an error the reader must not be used.
    pub fn next<D: Disk>(
        &mut self,
        alloc: Global,
        disk: &mut D,
    ) -> Result<Option<PlacedOp>, StartFault>
        requires ahead { Tells (D.state disk.old) →
            ((done : List EditOp) × (todo : List (List ℕ)) ×
            OpsAhead (D.state disk.old) self.old done todo) }

        ensures next { IfOk result
            (λ found. Tells (D.state disk.old) → (done : List EditOp) (todo : List (List ℕ)) →
            OpsAhead (D.state disk.old) self.old done todo
            → IsNextOp (D.state disk.new) self.new done todo found) }
        ensures damaged { (at : ℕ) → IsErrOf result (Damaged at) → Tells (D.state disk.old) →
            (done : List EditOp) (todo : List (List ℕ)) →
            OpsAhead (D.state disk.old) self.old done todo
            → HasNoNextOp self.old done todo at }
        ensures spent { IsErrOf result Spent → ⊥ }

        // Whatever the disk answers, fewer bytes are left afterwards.
        ensures nearer { IfOk result
            (λ found. IsSome found → left self.new.records < left self.old.records) }

        ensures cause { IsErrOf result StoreFault →
            Rose (D.state disk.old).faults (D.state disk.new).faults }
        ensures same { Reads 1 (D.state disk.old) (D.state disk.new) }
        ensures run { RunOn 1 (D.state disk.old) (D.state disk.new) }
        ensures moments { LeavesOnly 1 (D.state disk.old) (D.state disk.new)
            ((D.state disk.old).leaves 1) }
    {
        match self.records.next(disk)? {
            None => return Ok(None),
            Some(at) => {
                let placed = read_record(
                    alloc,
                    self.opening,
                    at.saturating_sub(5),
                    self.records.payload(),
                )?;
                self.opening = opening_after(self.opening, &placed.op);
                return Ok(Some(placed));
            }
        }
    }
}
