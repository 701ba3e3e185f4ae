//! Reading a log that another instance writes.
ghost use Rattle.std.specs.Prelude.{◌≡◌, ◌≤◌, ◌<◌, ◌^◌, ℕ, List, IfOk, IsErrOf, length};
ghost use Rattle.hk_base.specs.Disk.{Tells, Reads, RunOn, LeavesOnly};
ghost use Rattle.hk_base.specs.Faults.{Rose};
ghost use Rattle.frame_log.specs.declared.fault.LogFault.TheVariants.{Damaged, StoreFault};
ghost use Rattle.frame_log.specs.Ahead.{Ahead};
ghost use Rattle.frame_log.specs.Format.{log_of, Found, NoLog};

use crate::LogFault;
use crate::gates::pass_frames;
use crate::log::{Log, is_magic};
use crate::records::Records;
use hk_base::Disk;
use std::alloc::Global;

/// Looks for the end gate of a log of `size` bytes, and returns a reader at its first payload.
fn view_passed<D: Disk>(
    alloc: Global,
    disk: &mut D,
    file: u8,
    size: u64,
) -> Result<Records, LogFault>
    requires file { file < 2 }
    requires long { 9 < size }
    requires limit { size ≤ 2 ^ 62 }
    requires size { Tells (D.state disk.old) → size ≡ length ((D.state disk.old).reads file) }

    ensures log { IfOk result
        (λ records. Tells (D.state disk.old) → ((payloads : List (List ℕ)) × (gate : ℕ)
        × (log_of file ((D.state disk.old).reads file) ≡ Found payloads gate)
        × Ahead (D.state disk.new) records payloads)) }
    ensures reader { IfOk result
        (λ records. (records.file ≡ file) × (records.at ≡ 8) × (9 < records.size)) }
    ensures damaged { (at : ℕ) → IsErrOf result (Damaged at) → Tells (D.state disk.old) →
        log_of file ((D.state disk.old).reads file) ≡ NoLog at }
    ensures cause { IsErrOf result StoreFault →
        Rose (D.state disk.old).faults (D.state disk.new).faults }
    ensures same { Reads file (D.state disk.old) (D.state disk.new) }
    ensures run { RunOn file (D.state disk.old) (D.state disk.new) }
    ensures moments { LeavesOnly file (D.state disk.old) (D.state disk.new)
        ((D.state disk.old).leaves file) }
{
    let mut head = [0u8; 8];
    disk.read(file, 0, &mut head)?;
    if !is_magic(file, &head) {
        return Err(LogFault::Damaged { at: 0 });
    }
    pass_frames(alloc, disk, file, size)?;
    Ok(Records::new(alloc, file, size))
}

impl Log {
    ghost use Rattle.std.specs.Prelude.{IfSome, MatchOption, []};
    ghost use Rattle.hk_base.specs.Disk.{Only};

    /// Returns a reader of the payloads of a log, as `recover_records` does, but writes nothing: the log
    /// may be one that another instance has open. An unsettled payload is among them exactly if its gate
    /// byte reads 1. Returns `None` for a file of at most 9 bytes, which has no payloads.
    ///
    /// Returns `Damaged` exactly if the file is not a log, with the offset of the gate byte 1 that no
    /// frame follows, or 0 if the magic is wrong. Any error leaves the file as it was.
    pub fn view_records<D: Disk>(
        alloc: Global,
        disk: &mut D,
        file: u8,
    ) -> Result<Option<Records>, LogFault>
        requires { file < 2 }

        ensures log { IfOk result
            (λ r. Tells (D.state disk.old) → ((payloads : List (List ℕ)) × (gate : ℕ)
            × (log_of file ((D.state disk.old).reads file) ≡ Found payloads gate)
            × MatchOption r (payloads ≡ [])
            (λ records. Ahead (D.state disk.new) records payloads))) }
        ensures reader { IfOk result
            (λ r. IfSome r
            (λ records. (records.file ≡ file) × (records.at ≡ 8) × (9 < records.size))) }
        // The sync comes before the first read: no crash takes back what was read.
        ensures synced { IfOk result
            (λ _. Tells (D.state disk.old) →
            Only ((D.state disk.old).reads file) ((D.state disk.new).leaves file)) }
        ensures damaged { (at : ℕ) → IsErrOf result (Damaged at) → Tells (D.state disk.old) →
            log_of file ((D.state disk.old).reads file) ≡ NoLog at }
        ensures cause { IsErrOf result StoreFault →
            Rose (D.state disk.old).faults (D.state disk.new).faults }
        ensures same { Reads file (D.state disk.old) (D.state disk.new) }
        ensures run { RunOn file (D.state disk.old) (D.state disk.new) }
        ensures moments { LeavesOnly file (D.state disk.old) (D.state disk.new)
            ((D.state disk.old).leaves file) }
    {
        disk.sync(file)?;
        let size = disk.len(file)?;
        if size <= 9 {
            return Ok(None);
        }
        let records = view_passed(alloc, disk, file, size)?;
        Ok(Some(records))
    }
}
