//! The payloads of a log, one after another.
ghost use Rattle.std.specs.Prelude.{◌≤◌, ◌<◌, ◌^◌};

use crate::LogFault;
use crate::gates::{Next, next_at};
use crate::window::Window;
use hk_base::Disk;
use std::alloc::Global;

/// A reader of the payloads of a log, in file order. Memory holds one payload and a window of the file.
/// The file must not be written before the last payload is read.
#[derive(Drop)]
pub struct Records {
    pub(crate) alloc: Global,
    pub(crate) file: u8,
    pub(crate) size: u64,
    pub(crate) at: u64,
    pub(crate) window: Window,
    pub(crate) payload: Vec<u8>,
    ghost file_in: { file < 2 },
    ghost size_in: { size ≤ 2 ^ 62 },
    ghost at_in: { at < size },
}

impl Records {
    ghost use Rattle.std.specs.Prelude.{◌≡◌, ◌+◌, ◌-◌, [], ℕ, List, Option, length, take, drop, IfOk, OnOk, OnErr, IsSome, IsErrOf};
    ghost use Rattle.hk_base.specs.Disk.{Tells, Reads, RunOn, LeavesOnly};
    ghost use Rattle.hk_base.specs.Faults.{Rose};
    ghost use Rattle.frame_log.specs.declared.fault.LogFault.TheVariants.{Damaged, StoreFault};
    ghost use Rattle.frame_log.specs.Ahead.{HasBytesOf, Ahead, IsNextPayload, left};

    /// Returns a reader at the first payload of a log.
    pub(crate) fn new(alloc: Global, file: u8, size: u64) -> Records
        requires file { file < 2 }
        requires limit { size ≤ 2 ^ 62 }
        requires place { 8 < size }
        ensures file { result.file ≡ file }
        ensures size { result.size ≡ size }
        ensures at { result.at ≡ 8 }
        ensures window { result.window.bytes.items ≡ [] }
    {
        Records {
            alloc,
            file,
            size,
            at: 8,
            window: Window::empty(alloc),
            payload: Vec::new(alloc),
        }
    }

    /// Copies the payload of `count` bytes at an offset.
    fn copy_payload<D: Disk>(&mut self, disk: &mut D, at: u64, count: u32) -> Result<(), LogFault>
        requires place { at + count ≤ self.old.size }
        requires size { Tells (D.state disk.old) →
            self.old.size ≡ length ((D.state disk.old).reads self.old.file) }

        ensures copied { OnOk result
            (Tells (D.state disk.old) →
            HasBytesOf ((D.state disk.old).reads self.old.file) self.old.window
            → self.new.payload.items ≡
            take count (drop at ((D.state disk.old).reads self.old.file))) }
        ensures window { Tells (D.state disk.old) →
            HasBytesOf ((D.state disk.old).reads self.old.file) self.old.window
            → HasBytesOf ((D.state disk.old).reads self.old.file) self.new.window }
        ensures file { self.new.file ≡ self.old.file }
        ensures size { self.new.size ≡ self.old.size }
        ensures at { self.new.at ≡ self.old.at }
        ensures fault { (e : ℕ) → IsErrOf result (Damaged e) → ⊥ }
        ensures cause { IsErrOf result StoreFault →
            Rose (D.state disk.old).faults (D.state disk.new).faults }
        ensures same { Reads self.old.file (D.state disk.old) (D.state disk.new) }
        ensures run { RunOn self.old.file (D.state disk.old) (D.state disk.new) }
        ensures moments { LeavesOnly self.old.file (D.state disk.old) (D.state disk.new)
            ((D.state disk.old).leaves self.old.file) }
    {
        self.window
            .show(self.alloc, disk, self.file, at, count as usize)?;
        self.payload.clear();
        self.payload
            .extend_from_slice(self.window.bytes_at(at, count as usize))?;
        Ok(())
    }

    /// Reads the next payload and returns its offset in the file, or `None` after the last. Returns
    /// `Damaged` only if the disk doesn't tell what the file holds. After `None` and after an error the
    /// reader stays at the same place.
    pub fn next<D: Disk>(&mut self, disk: &mut D) -> Result<Option<u64>, LogFault>
        requires ahead { Tells (D.state disk.old) →
            ((todo : List (List ℕ)) × Ahead (D.state disk.old) self.old todo) }

        ensures first { IfOk result
            (λ found. Tells (D.state disk.old) → (todo : List (List ℕ)) →
            Ahead (D.state disk.old) self.old todo
            → IsNextPayload (D.state disk.new) self.old self.new todo found) }
        ensures kept { OnErr result
            (Tells (D.state disk.old) → (todo : List (List ℕ)) →
            Ahead (D.state disk.old) self.old todo
            → Ahead (D.state disk.new) self.new todo) }
        ensures damaged { (at : ℕ) → IsErrOf result (Damaged at) → Tells (D.state disk.old) → ⊥ }

        // Whatever the disk answers, fewer bytes are left afterwards.
        ensures nearer { IfOk result (λ found. IsSome found → left self.new < left self.old) }

        ensures file { self.new.file ≡ self.old.file }
        ensures cause { IsErrOf result StoreFault →
            Rose (D.state disk.old).faults (D.state disk.new).faults }
        ensures same { Reads self.old.file (D.state disk.old) (D.state disk.new) }
        ensures run { RunOn self.old.file (D.state disk.old) (D.state disk.new) }
        ensures moments { LeavesOnly self.old.file (D.state disk.old) (D.state disk.new)
            ((D.state disk.old).leaves self.old.file) }
    {
        let gate = self.at;
        // A frame and the gates before and after it take at least seven bytes.
        if self.size - gate < 7 {
            return Ok(None);
        }
        self.window.show(self.alloc, disk, self.file, gate, 5)?;
        match next_at(self.window.bytes_at(gate, 5), self.size - gate) {
            Next::Payload { count } => {
                self.copy_payload(disk, gate + 5, count)?;
                self.at = gate + 5 + count as u64;
                return Ok(Some(gate + 5));
            }
            Next::End { .. } => return Ok(None),
            Next::Broken => return Err(LogFault::Damaged { at: gate }),
        }
    }

    /// Returns the payload that `next` read last.
    pub fn payload(&self) -> &[u8]
        ensures { result.now ≡ self.now.payload.items }
    {
        self.payload.as_slice()
    }
}
