//! Part of a file in memory, so that one read of the disk serves many records.
ghost use Rattle.std.specs.Prelude.{◌≡◌, ◌≤◌, ◌<◌, ◌^◌, ◌+◌, ◌-◌, [], ℕ, length, take, drop, IfOk, OnOk, OnErr, IsTrue, IsErrOf};
ghost use Rattle.hk_base.specs.Disk.{Tells, Reads, RunOn, LeavesOnly};
ghost use Rattle.hk_base.specs.Faults.{Rose};
ghost use Rattle.frame_log.specs.declared.fault.LogFault.TheVariants.{Damaged, StoreFault};
ghost use Rattle.frame_log.specs.Ahead.{HasBytesOf, ShowsWindow};

use crate::LogFault;
use hk_base::Disk;
use std::alloc::Global;

/// The smallest number of bytes that a read of the disk asks for.
const READ_SIZE: usize = 65_536;

/// Bytes of a file, from an offset on.
#[derive(Drop)]
pub(crate) struct Window {
    pub from: u64,
    pub bytes: Vec<u8>,
}

/// Reads a window of at most `size` bytes.
fn read_window<D: Disk>(
    alloc: Global,
    disk: &mut D,
    file: u8,
    from: u64,
    size: usize,
) -> Result<Window, LogFault>
    requires file { file < 2 }
    requires place { Tells (D.state disk.old) → from ≤ length ((D.state disk.old).reads file) }

    ensures from { IfOk result (λ window. window.from ≡ from) }
    ensures window { IfOk result
        (λ window. Tells (D.state disk.old) →
        ShowsWindow ((D.state disk.old).reads file) window from size) }
    ensures fault { (e : ℕ) → IsErrOf result (Damaged e) → ⊥ }
    ensures cause { IsErrOf result StoreFault →
        Rose (D.state disk.old).faults (D.state disk.new).faults }
    ensures same { Reads file (D.state disk.old) (D.state disk.new) }
    ensures run { RunOn file (D.state disk.old) (D.state disk.new) }
    ensures moments { LeavesOnly file (D.state disk.old) (D.state disk.new)
        ((D.state disk.old).leaves file) }
{
    let mut bytes = vec![in alloc; 0u8; size]?;
    let count = disk.read(file, from, &mut bytes)?;
    bytes.truncate(count);
    Ok(Window { from, bytes })
}

impl Window {
    /// Returns a window without bytes.
    pub fn empty(alloc: Global) -> Window
        ensures { result.bytes.items ≡ [] }
    {
        Window {
            from: 0,
            bytes: Vec::new(alloc),
        }
    }

    /// Returns whether the window has `want` bytes from an offset on.
    fn has(&self, at: u64, want: usize) -> bool
        requires at { at ≤ 2 ^ 62 }
        requires want { want ≤ 2 ^ 62 }
        ensures begins { IsTrue result → self.now.from ≤ at }
        ensures enough { IsTrue result → at + want ≤ self.now.from + length self.now.bytes.items }
    {
        if at < self.from {
            return false;
        }
        let skipped = at - self.from;
        skipped + want as u64 <= self.bytes.len() as u64
    }

    /// Moves the window to an offset unless it has `want` bytes from there on. Afterwards it has them, or
    /// all up to the end of the file. On an error the window is unchanged.
    pub fn show<D: Disk>(
        &mut self,
        alloc: Global,
        disk: &mut D,
        file: u8,
        at: u64,
        want: usize,
    ) -> Result<(), LogFault>
        requires file { file < 2 }
        requires at { at ≤ 2 ^ 62 }
        requires want { want ≤ 2 ^ 62 }
        requires place { Tells (D.state disk.old) → at ≤ length ((D.state disk.old).reads file) }

        ensures begins { OnOk result (self.new.from ≤ at) }
        ensures shows { OnOk result
            (Tells (D.state disk.old) → HasBytesOf ((D.state disk.old).reads file) self.old →
            ShowsWindow ((D.state disk.old).reads file) self.new at want) }
        ensures kept { OnErr result (self.new ≡ self.old) }
        ensures fault { (e : ℕ) → IsErrOf result (Damaged e) → ⊥ }
        ensures cause { IsErrOf result StoreFault →
            Rose (D.state disk.old).faults (D.state disk.new).faults }
        ensures same { Reads file (D.state disk.old) (D.state disk.new) }
        ensures run { RunOn file (D.state disk.old) (D.state disk.new) }
        ensures moments { LeavesOnly file (D.state disk.old) (D.state disk.new)
            ((D.state disk.old).leaves file) }
    {
        if self.has(at, want) {
            return Ok(());
        }
        let size = if want < READ_SIZE { READ_SIZE } else { want };
        let window = read_window(alloc, disk, file, at, size)?;
        *self = window;
        Ok(())
    }

    /// Returns the bytes from an offset on, at most `most`.
    pub fn bytes_at(&self, at: u64, most: usize) -> &[u8]
        requires { self.now.from ≤ at }
        ensures { result.now ≡ take most (drop (at - self.now.from) self.now.bytes.items) }
    {
        let bytes = self.bytes.as_slice();
        let skipped = at - self.from;
        if bytes.len() as u64 <= skipped {
            return &[];
        }
        let rest = &bytes[skipped as usize..];
        if most < rest.len() {
            return &rest[..most];
        }
        rest
    }
}
