//! All frames of a log in memory.
ghost use Rattle.std.specs.Prelude.{◌≡◌, ℕ, List, IfOk, IsErrOf};
ghost use Rattle.hk_base.specs.Disk.{Tells, Reads, RunOn, LeavesOnly};
ghost use Rattle.hk_base.specs.Faults.{Rose};
ghost use Rattle.frame_log.specs.declared.fault.LogFault.TheVariants.{Damaged, StoreFault};
ghost use Rattle.frame_log.specs.Format.{placed};
ghost use Rattle.frame_log.specs.Scan.{view};
ghost use Rattle.frame_log.specs.Ahead.{Ahead};

use crate::LogFault;
use crate::records::Records;
use hk_base::Disk;
use std::alloc::Global;

/// A payload and its offset in the file.
#[derive(Drop)]
pub struct Frame {
    pub at: u64,
    pub payload: Vec<u8>,
}

/// The payloads of a log, in file order.
#[derive(Drop)]
pub struct Frames {
    pub list: Vec<Frame>,
}

/// Reads all payloads that the reader has not returned yet.
pub(crate) fn read_frames<D: Disk>(
    alloc: Global,
    disk: &mut D,
    records: &mut Records,
) -> Result<Frames, LogFault>
    requires ahead { Tells (D.state disk.old) →
        ((todo : List (List ℕ)) × Ahead (D.state disk.old) records.old todo) }

    ensures frames { IfOk result
        (λ frames. Tells (D.state disk.old) → (todo : List (List ℕ)) →
        Ahead (D.state disk.old) records.old todo → view frames ≡ placed records.old.at todo) }
    ensures damaged { (at : ℕ) → IsErrOf result (Damaged at) → Tells (D.state disk.old) → ⊥ }
    ensures cause { IsErrOf result StoreFault →
        Rose (D.state disk.old).faults (D.state disk.new).faults }
    ensures same { Reads records.old.file (D.state disk.old) (D.state disk.new) }
    ensures run { RunOn records.old.file (D.state disk.old) (D.state disk.new) }
    ensures moments { LeavesOnly records.old.file (D.state disk.old) (D.state disk.new)
        ((D.state disk.old).leaves records.old.file) }
{
    let mut list = Vec::new(alloc);
    'payloads: loop {
        match records.next(disk)? {
            None => return Ok(Frames { list }),
            Some(at) => {
                let payload = Vec::from_slice(alloc, records.payload())?;
                list.push(Frame { at, payload })?;
            }
        }
    }
}
