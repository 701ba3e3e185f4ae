//! The gated log. The gate of a frame is a write of its own, after a sync of the frame.
ghost use Rattle.std.specs.Prelude.{◌≡◌, ◌≤◌, ◌<◌, ◌^◌, ◌++◌, [], ◌∷◌, IfOk, IfSome};
ghost use Rattle.frame_log.specs.Format.{behind, magic, starts_with, IsPayload};

use crate::LogFault;
use crate::frames::{Frames, read_frames};
use crate::gates::{OPEN, SHUT, pass_frames};
use crate::records::Records;
use hk_base::{Disk, LONGEST_FILE};
use std::alloc::Global;

/// Where a compacted log goes on: the offset of the first of its two selectors, whether the second one
/// counts, the turn of the one that counts, and the place of the area that it names.
#[derive(Clone, Copy)]
pub struct Selected {
    pub selectors: u64,
    pub second: bool,
    pub turn: u64,
    pub place: u64,
}

/// A log on one file of a disk: the offset of its end gate, where it goes on if it was compacted, and,
/// after a failure of the disk, the length of the payload that was being added. A gate is the commit
/// byte of a frame (docs/glossary.md).
#[derive(Drop)]
pub struct Log {
    pub file: u8,
    pub end: u64,
    pub area: Option<Selected>,
    pub unsettled: Option<u32>,
    ghost file_in: { file < 2 },
    ghost end_in: { end ≤ 2 ^ 62 },
    ghost unsettled_in: { ∥ IfSome unsettled (λ n. n ≤ 1048576) ∥₁ },
    ghost area_in: { ∥ IfSome area (λ now. now.selectors ≤ 2 ^ 62) ∥₁ },
}

/// Returns whether the first eight bytes are the magic of this file.
pub(crate) fn is_magic(file: u8, head: &[u8; 8]) -> bool
    ensures { result ≡ starts_with (magic file) head.now }
{
    *head == magic_of(file)
}

fn magic_of(file: u8) -> [u8; 8]
    ensures { result ≡ magic file }
{
    if file == 0 {
        *b"HKMSKEY1"
    } else {
        *b"HKMSNAM1"
    }
}

/// Returns the bytes of a log without frames.
fn fresh(file: u8) -> [u8; 9]
    ensures { result ≡ magic file ++ 0 ∷ [] }
{
    let m = magic_of(file);
    [m[0], m[1], m[2], m[3], m[4], m[5], m[6], m[7], SHUT]
}

/// Returns the bytes that follow the gate of a frame: the payload after its length, and the end gate.
fn behind_gate(alloc: Global, payload: &[u8]) -> Result<Vec<u8>, hk_base::NoMemory>
    requires { IsPayload payload.now }
    ensures { IfOk result (λ bytes. bytes.items ≡ behind payload.now ++ 0 ∷ []) }
{
    let mut bytes = Vec::new(alloc);
    bytes.extend_from_slice(&(payload.len() as u32).to_be_bytes())?;
    bytes.extend_from_slice(payload)?;
    bytes.push(SHUT)?;
    Ok(bytes)
}

impl Log {
    ghost use Rattle.std.specs.Prelude.{◌+◌, ◌↔◌, ◌⊎◌, List, ℕ, Option, Some, None, slice_get, length, OnOk, OnErr, IsErr, IsErrOf, IsTrue, if◌then◌else◌, IsSome};
    ghost use Rattle.hk_base.specs.Disk.{Tells, RunOn, LeavesOnly, Only};
    ghost use Rattle.hk_base.specs.Faults.{Rose};
    ghost use Rattle.frame_log.specs.declared.fault.LogFault.TheVariants.{Damaged, StoreFault, NoMemory};
    ghost use Rattle.frame_log.specs.Format.{log_of, Found, NoLog, placed, IsAsFound, IsRecovered};
    ghost use Rattle.frame_log.specs.Scan.{view};
    ghost use Rattle.frame_log.specs.Opens.{FailsAs, RecoversLog};
    ghost use Rattle.frame_log.specs.Bases.{Area};
    ghost use Rattle.frame_log.specs.Stands.{LeavesAdding, Stands, StandsOn, with_kept};
    ghost use Rattle.frame_log.specs.Ahead.{Ahead};

    /// Reads the log of a file that a crash may have left, and sets its end gate to 0 if it isn't 0.
    /// A file of at most 9 bytes becomes a log without frames. A crash may stop this call at any moment
    /// too. Whatever it returns, once the file is synced a crash leaves the log that was found, with
    /// its end gate unchanged, or 0, or 1.
    ///
    /// Returns `Damaged` exactly if the file is not a log, with the offset of the gate byte 1 that no
    /// frame follows, or 0 if the magic is wrong. Only the frames are kept in memory.
    pub fn recover<D: Disk>(
        alloc: Global,
        disk: &mut D,
        file: u8,
    ) -> Result<(Log, Frames), LogFault>
        requires { file < 2 }

        ensures log { IfOk result
            (λ r. Tells (D.state disk.old) → ((payloads : List (List ℕ)) × (gate : ℕ)
            × (log_of file ((D.state disk.old).reads file) ≡ Found payloads gate)
            × (view r.1 ≡ placed 8 payloads)
            × Stands (D.state disk.new) r.0 payloads None)) }
        ensures settled { IfOk result (λ r. (r.0.file ≡ file) × (r.0.unsettled ≡ None)) }

        // Whatever the result, after the first sync of the call a crash leaves the log found, or that log
        // with its end gate read as 1. A file that is not a log stays byte for byte. If that sync failed,
        // nothing was written.
        ensures opens { RecoversLog file (D.state disk.old) (D.state disk.new) (FailsAs result) }

        // A crash at any moment leaves what it might have left before, or the log found, or that log
        // with its end gate read as 1.
        ensures any_moment { Tells (D.state disk.old) →
            LeavesOnly file (D.state disk.old) (D.state disk.new)
            (λ c. (D.state disk.old).leaves file c ⊎
            IsAsFound file ((D.state disk.old).reads file) c) }
    {
        let (log, mut records) = Log::recover_records(alloc, disk, file)?;
        let frames = read_frames(alloc, disk, &mut records)?;
        Ok((log, frames))
    }

    /// Opens the log of a file as `recover` does, but reads no payloads: the reader returns them one after
    /// another. `Damaged` comes from this call, before the first payload is read.
    pub fn recover_records<D: Disk>(
        alloc: Global,
        disk: &mut D,
        file: u8,
    ) -> Result<(Log, Records), LogFault>
        requires { file < 2 }

        ensures log { IfOk result
            (λ r. Tells (D.state disk.old) → ((payloads : List (List ℕ)) × (gate : ℕ)
            × (log_of file ((D.state disk.old).reads file) ≡ Found payloads gate)
            × Ahead (D.state disk.new) r.1 payloads
            × Stands (D.state disk.new) r.0 payloads None)) }
        ensures reader { IfOk result (λ r. (r.1.file ≡ file) × (r.1.at ≡ 8)) }
        ensures settled { IfOk result (λ r. (r.0.file ≡ file) × (r.0.unsettled ≡ None)) }

        // As for `recover`: a crash after the first sync, a crash at any moment.
        ensures opens { RecoversLog file (D.state disk.old) (D.state disk.new) (FailsAs result) }
        ensures any_moment { Tells (D.state disk.old) →
            LeavesOnly file (D.state disk.old) (D.state disk.new)
            (λ c. (D.state disk.old).leaves file c ⊎
            IsAsFound file ((D.state disk.old).reads file) c) }
    {
        disk.sync(file)?; // What is read from here on is what a crash leaves.
        let (log, size) = Log::open_synced(alloc, disk, file)?;
        let records = Records::new(alloc, file, size);
        Ok((log, records))
    }

    /// Opens the log of a file that is synced, and sets its end gate to 0 if it isn't 0. Returns the log and
    /// the size of the file. A crash leaves the log found, or that log with its end gate read as 1.
    fn open_synced<D: Disk>(alloc: Global, disk: &mut D, file: u8) -> Result<(Log, u64), LogFault>
        requires file { file < 2 }
        requires synced { Tells (D.state disk.old) →
            Only ((D.state disk.old).reads file) ((D.state disk.old).leaves file) }

        ensures log { IfOk result
            (λ r. Tells (D.state disk.old) → ((payloads : List (List ℕ)) × (gate : ℕ)
            × (log_of file ((D.state disk.old).reads file) ≡ Found payloads gate)
            × (r.1 ≡ length ((D.state disk.new).reads file))
            × Stands (D.state disk.new) r.0 payloads None)) }
        ensures size { IfOk result (λ r. (8 < r.1) × (r.1 ≤ 2 ^ 62)) }
        ensures settled { IfOk result (λ r. (r.0.file ≡ file) × (r.0.unsettled ≡ None)) }
        ensures damaged { (at : ℕ) → IsErrOf result (Damaged at) → Tells (D.state disk.old) →
            log_of file ((D.state disk.old).reads file) ≡ NoLog at }
        ensures moments { Tells (D.state disk.old) →
            LeavesOnly file (D.state disk.old) (D.state disk.new)
            (IsRecovered file ((D.state disk.old).reads file)) }
        ensures run { RunOn file (D.state disk.old) (D.state disk.new) }
        ensures cause { IsErrOf result StoreFault →
            Rose (D.state disk.old).faults (D.state disk.new).faults }
    {
        let size = disk.len(file)?;
        if size <= 9 {
            disk.write_at(file, 0, &fresh(file))?;
            disk.sync(file)?;
            let log = Log {
                file,
                end: 8,
                area: None,
                unsettled: None,
            };
            return Ok((log, 9));
        }
        let mut head = [0u8; 8];
        disk.read(file, 0, &mut head)?;
        if !is_magic(file, &head) {
            return Err(LogFault::Damaged { at: 0 });
        }
        let scan = pass_frames(alloc, disk, file, size)?;
        let end = scan.end;
        if scan.gate != SHUT {
            disk.write_at(file, end, &[SHUT])?;
            disk.sync(file)?;
        }
        let log = Log {
            file,
            end,
            area: None,
            unsettled: None,
        };
        Ok((log, size))
    }

    /// Appends a payload of 1 to 1,048,576 bytes and returns its offset in the file. After `Ok` every
    /// crash leaves the payload. After `StoreFault` the payload is unsettled: call `settle` to find out
    /// whether it is kept. `NoMemory` is returned before the first write; nothing is then changed.
    pub fn append<D: Disk>(
        &mut self,
        alloc: Global,
        disk: &mut D,
        payload: &[u8],
    ) -> Result<u64, LogFault>
        requires settled { self.old.unsettled ≡ None }
        requires payload { IsPayload payload.now }
        requires stands { Tells (D.state disk.old) →
            ((base : Option Area) × (payloads : List (List ℕ)) ×
            StandsOn base (D.state disk.old) self.old payloads None) }

        ensures place { IfOk result (λ at. at ≡ self.old.end + 5) }

        // From then on every crash leaves a file with the payload.
        ensures added { OnOk result
            (Tells (D.state disk.old) → (base : Option Area) (payloads : List (List ℕ)) →
            StandsOn base (D.state disk.old) self.old payloads None
            → StandsOn base (D.state disk.new) self.new (payloads ++ payload.now ∷ []) None) }

        // A crash at any moment of the call leaves the payloads from before it, and the new one behind an end
        // gate that may be torn, or not at all.
        ensures any_moment { Tells (D.state disk.old) → (base : Option Area) (payloads : List (List ℕ)) →
            StandsOn base (D.state disk.old) self.old payloads None
            → LeavesAdding base self.old payloads payload.now (D.state disk.old) (D.state disk.new) }

        ensures unsettled { IsErrOf result StoreFault → Tells (D.state disk.old) →
            (base : Option Area) (payloads : List (List ℕ)) → StandsOn base (D.state disk.old) self.old payloads None
            → StandsOn base (D.state disk.new) self.new payloads (Some payload.now) }
        ensures memory { IsErrOf result NoMemory → (self.new ≡ self.old) × (disk.new ≡ disk.old) }
        ensures damaged { (at : ℕ) → IsErrOf result (Damaged at) → ⊥ }
        ensures run { RunOn self.old.file (D.state disk.old) (D.state disk.new) }
        ensures file { self.new.file ≡ self.old.file }
        ensures area { self.new.area ≡ self.old.area }
        ensures now_settled { OnOk result (self.new.unsettled ≡ None) }
        ensures now_unsettled { IsErrOf result StoreFault → IsSome self.new.unsettled }
        ensures cause { IsErrOf result StoreFault →
            Rose (D.state disk.old).faults (D.state disk.new).faults }
    {
        let behind = behind_gate(alloc, payload)?;
        let file = self.file;
        let gate = self.end;
        self.unsettled = Some(payload.len() as u32);
        disk.write_at(file, gate + 1, &behind)?;
        disk.sync(file)?;
        disk.write_at(file, gate, &[OPEN])?;
        disk.sync(file)?;
        self.unsettled = None;
        self.end = gate + 5 + payload.len() as u64;
        Ok(gate + 5)
    }

    /// Finds out whether the unsettled payload is kept: it is exactly if its gate byte reads 1 after a
    /// sync. After `StoreFault`, the only error, the payload is still unsettled.
    pub fn settle<D: Disk>(&mut self, disk: &mut D) -> Result<bool, LogFault>
        requires unsettled { IsSome self.old.unsettled }
        requires stands { Tells (D.state disk.old) →
            ((base : Option Area) × (payloads : List (List ℕ)) × (payload : List ℕ) ×
            StandsOn base (D.state disk.old) self.old payloads (Some payload)) }

        ensures settled { IfOk result
            (λ kept. Tells (D.state disk.old) →
            (base : Option Area) (payloads : List (List ℕ)) (payload : List ℕ) →
            StandsOn base (D.state disk.old) self.old payloads (Some payload)
            → StandsOn base (D.state disk.new) self.new
            (with_kept kept payloads payload) None) }
        ensures kept { IfOk result
            (λ kept. Tells (D.state disk.old) →
            (IsTrue kept ↔
            (slice_get ((D.state disk.old).reads self.old.file) self.old.end ≡ Some 1))) }
        ensures any_moment { Tells (D.state disk.old) →
            (base : Option Area) (payloads : List (List ℕ)) (payload : List ℕ) →
            StandsOn base (D.state disk.old) self.old payloads (Some payload)
            → LeavesAdding base self.old payloads payload (D.state disk.old) (D.state disk.new) }
        ensures unsettled { IsErr result → Tells (D.state disk.old) →
            (base : Option Area) (payloads : List (List ℕ)) (payload : List ℕ) →
            StandsOn base (D.state disk.old) self.old payloads (Some payload)
            → StandsOn base (D.state disk.new) self.new payloads (Some payload) }
        ensures fault { IsErr result → IsErrOf result StoreFault }
        ensures run { RunOn self.old.file (D.state disk.old) (D.state disk.new) }
        ensures file { self.new.file ≡ self.old.file }
        ensures area { self.new.area ≡ self.old.area }
        ensures now_settled { OnOk result (self.new.unsettled ≡ None) }
        ensures still_unsettled { OnErr result (self.new ≡ self.old) }
        ensures cause { OnErr result (Rose (D.state disk.old).faults (D.state disk.new).faults) }
    {
        let file = self.file;
        let gate = self.end;
        disk.sync(file)?;
        let mut byte = [SHUT];
        disk.read(file, gate, &mut byte)?;
        let next = match self.unsettled {
            Some(size) => gate + 5 + size as u64,
            None => gate,
        };
        if byte[0] == OPEN && next <= LONGEST_FILE {
            self.end = next;
            self.unsettled = None;
            return Ok(true);
        }
        if byte[0] != SHUT {
            disk.write_at(file, gate, &[SHUT])?;
            disk.sync(file)?;
        }
        self.unsettled = None;
        Ok(false)
    }
}
