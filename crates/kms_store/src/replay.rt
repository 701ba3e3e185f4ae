//! Replaying a key log. Each record is a command that applies to the table that the commands before
//! it make.
ghost use Rattle.std.specs.Prelude.{◌≡◌, ◌-◌, ◌+◌, ◌*◌, ◌^◌, ◌<◌, IsTrue, IfOk, IsErrOf, ℕ, List, [], ◌∷◌, ◌++◌};
ghost use Rattle.hk_base.specs.Disk.{LeavesOnly, Reads, RunOn, Tells};
ghost use Rattle.hk_base.specs.Faults.{Rose};
ghost use Rattle.frame_log.specs.Ahead.{Ahead};
ghost use Rattle.frame_log.specs.Format.{placed};
ghost use Rattle.frame_log.specs.declared.fault.StartFault.TheVariants.{Damaged, StoreFault, Spent};
ghost use Rattle.kms_store.specs.Keys.{IsBuilt, IsReadFrom};
ghost use Rattle.kms_store.specs.Replay.{IsTaken, IsStuck, HasRoomForBirths};

use crate::keys::Keys;
use frame_log::{Records, StartFault};
use hk_base::{Disk, NoMemory, RecordFault};
use key_rows::KeyCommand;
use std::alloc::Global;

/// Applies the command that a record encodes, which is at this offset of the log. Returns `false` if
/// the record encodes no command that applies.
fn take(alloc: Global, keys: &mut Keys, at: u64, payload: &[u8]) -> Result<bool, NoMemory>
    ensures taken { IfOk result (IsTaken keys.old.table payload.now keys.new.table) }
    ensures built { IfOk result
        (λ taken. IsTrue taken → (frames : List (ℕ × List ℕ)) → IsBuilt frames keys.old
        → IsBuilt (frames ++ (at, payload.now) ∷ []) keys.new) }
    ensures births { IfOk result
        (λ taken. IsTrue taken → HasRoomForBirths keys.old.table →
        HasRoomForBirths keys.new.table) }
{
    let command = match KeyCommand::read(alloc, payload) {
        Ok(command) => command,
        Err(RecordFault::NoRecord) => return Ok(false),
        Err(RecordFault::NoMemory) => return Err(NoMemory),
    };
    if !keys.applies(&command) {
        return Ok(false);
    }
    keys.apply(command, at.saturating_add(payload.len() as u64))?;
    Ok(true)
}

/// Builds the keys from the records that a reader returns, of which memory has one at a time. Returns
/// `Damaged` with the offset of the gate of the first record that encodes no command or one that
/// doesn't apply.
pub(crate) fn replay<D: Disk>(
    alloc: Global,
    disk: &mut D,
    records: &mut Records,
) -> Result<Keys, StartFault>
    requires ahead { Tells (D.state disk.old) →
        ((todo : List (List ℕ)) × Ahead (D.state disk.old) records.old todo) }

    ensures read { IfOk result (IsReadFrom (D.state disk.old) records.old) }
    ensures births { IfOk result (λ keys. HasRoomForBirths keys.table) }
    ensures damaged { (at : ℕ) → IsErrOf result (Damaged at) → Tells (D.state disk.old) →
        (todo : List (List ℕ)) → Ahead (D.state disk.old) records.old todo
        → IsStuck (placed records.old.at todo) at }
    ensures spent { IsErrOf result Spent → ⊥ }
    ensures cause { IsErrOf result StoreFault →
        Rose (D.state disk.old).faults (D.state disk.new).faults }
    ensures same { Reads records.old.file (D.state disk.old) (D.state disk.new) }
    ensures run { RunOn records.old.file (D.state disk.old) (D.state disk.new) }
    ensures moments { LeavesOnly records.old.file (D.state disk.old) (D.state disk.new)
        ((D.state disk.old).leaves records.old.file) }
{
    let mut keys = Keys::new(alloc);
    'records: loop {
        match records.next(disk)? {
            None => return Ok(keys),
            Some(at) => {
                let taken = take(alloc, &mut keys, at, records.payload())?;
                if !taken {
                    return Err(StartFault::Damaged {
                        at: at.saturating_sub(5),
                    });
                }
            }
        }
    }
}
