//! A disk of two files, and what a crash may leave of them.
ghost use Rattle.std.specs.Prelude.{◌≡◌, ◌≤◌, ◌<◌, ◌^◌, ◌+◌, ◌-◌, min, List, ℕ, length, take, drop, IfOk, OnOk, OnErr};
ghost use Rattle.hk_base.specs.Disk.{DiskState, Image, Tells, IsImage, CallOn, Reads, piece, written, Torn, Cut, Follows, Only};
ghost use Rattle.hk_base.specs.Faults.{Rose};

use crate::outside::Failed;

/// The largest size of a file of a disk, in bytes: 2^62.
pub const LONGEST_FILE: u64 = 1 << 62;

/// Two files, 0 and 1, that share one clock.
///
/// Between two syncs of a file, a crash may leave any bytes in each range that was written and past
/// the old end; the bytes outside those ranges are unchanged. After a sync that succeeds, a crash
/// leaves exactly what a read returns. A call on one file does not change the other. What a crash may
/// leave is called an image (docs/glossary.md).
///
/// A disk may promise nothing about its content, as a real one does. A call fails only if the count
/// of faults rises.
pub trait Disk {
    /// The state of the disk, as proofs see it.
    ghost state: { Self → DiskState };

    /// Returns the size of a file in bytes.
    fn len(&mut self, file: u8) -> Result<u64, Failed>
        requires { file < 2 }
        ensures answer { IfOk result
            (λ n. Tells (state self.old) → n ≡ length ((state self.old).reads file)) }
        ensures limit { IfOk result (λ n. n ≤ 2 ^ 62) }
        ensures same { Reads file (state self.old) (state self.new) }
        ensures call { CallOn file (state self.old) (state self.new) }
        ensures cause { OnErr result (Rose (state self.old).faults (state self.new).faults) };

    /// Reads from an offset into the start of the buffer, up to the end of the buffer or of the file.
    /// Returns the number of bytes read.
    fn read(&mut self, file: u8, at: u64, buf: &mut [u8]) -> Result<usize, Failed>
        requires file { file < 2 }
        requires place { Tells (state self.old) → at ≤ length ((state self.old).reads file) }
        ensures count { IfOk result (λ n. n ≤ length buf.new) }
        ensures answer { IfOk result
            (λ n. Tells (state self.old) →
            n ≡ min (length buf.new) (length ((state self.old).reads file) - at)) }
        ensures bytes { IfOk result
            (λ n. Tells (state self.old) →
            take n buf.new ≡ piece at n ((state self.old).reads file)) }
        ensures rest { IfOk result (λ n. drop n buf.new ≡ drop n buf.old) }
        ensures same { Reads file (state self.old) (state self.new) }
        ensures call { CallOn file (state self.old) (state self.new) }
        ensures cause { OnErr result (Rose (state self.old).faults (state self.new).faults) };

    /// Writes at an offset, over the bytes there and past the end. Until the next sync a crash may
    /// leave any bytes in the range. After a failure a read of the range may return any bytes. A
    /// write that would make the file longer than 2^62 bytes is a fault.
    fn write_at(&mut self, file: u8, at: u64, bytes: &[u8]) -> Result<(), Failed>
        requires file { file < 2 }
        requires place { Tells (state self.old) → at ≤ length ((state self.old).reads file) }
        ensures written { OnOk result
            (Tells (state self.old) →
            (state self.new).reads file ≡ written at bytes.now ((state self.old).reads file)) }
        ensures torn { OnErr result
            (Tells (state self.old) →
            Torn at (length bytes.now) ((state self.old).reads file)
            ((state self.new).reads file)) }
        ensures limit { OnOk result (at + length bytes.now ≤ 2 ^ 62) }
        ensures crash { Follows (Torn at (length bytes.now)) ((state self.old).leaves file)
            ((state self.new).leaves file) }
        ensures call { CallOn file (state self.old) (state self.new) }
        ensures cause { OnErr result (Rose (state self.old).faults (state self.new).faults) };

    /// Shortens a file to a length.
    fn cut(&mut self, file: u8, len: u64) -> Result<(), Failed>
        requires file { file < 2 }
        requires place { Tells (state self.old) → len ≤ length ((state self.old).reads file) }
        ensures cut { OnOk result
            (Tells (state self.old) →
            (state self.new).reads file ≡ take len ((state self.old).reads file)) }
        ensures torn { OnErr result
            (Tells (state self.old) →
            Cut len ((state self.old).reads file) ((state self.new).reads file)) }
        ensures crash { Follows (Cut len) ((state self.old).leaves file)
            ((state self.new).leaves file) }
        ensures call { CallOn file (state self.old) (state self.new) }
        ensures cause { OnErr result (Rose (state self.old).faults (state self.new).faults) };

    /// Makes a file durable: afterwards a crash leaves exactly what a read returns. If it fails, reads
    /// return the same bytes as before.
    fn sync(&mut self, file: u8) -> Result<(), Failed>
        requires { file < 2 }
        ensures durable { OnOk result
            (Tells (state self.old) →
            Only ((state self.old).reads file) ((state self.new).leaves file)) }
        ensures same { Reads file (state self.old) (state self.new) }
        ensures call { CallOn file (state self.old) (state self.new) }
        ensures cause { OnErr result (Rose (state self.old).faults (state self.new).faults) };

    /// The present moment counts among the moments since any earlier one.
    ghost counts_now: { (disk : Self) (t : ℕ) (c : Image) → t ≤ (state disk).moment →
        IsImage (state disk) c → (state disk).left_since t c };

    /// No moment follows the present one.
    ghost only_now: { (disk : Self) (c : Image) → (state disk).left_since (state disk).moment c →
        IsImage (state disk) c };

    /// The current content of a file is one of the images that a crash may leave.
    ghost is_one: { (disk : Self) (f : ℕ) → Tells (state disk) → f < 2 →
        (state disk).leaves f ((state disk).reads f) };

    /// No file is longer than 2^62 bytes.
    ghost bounded: { (disk : Self) (f : ℕ) → Tells (state disk) → f < 2 →
        length ((state disk).reads f) ≤ 2 ^ 62 };

    /// What a crash may have left since a moment includes what it may have left since a later one.
    ghost later_leaves_less: { (disk : Self) (s t : ℕ) (c : Image) → s ≤ t →
        (state disk).left_since t c → (state disk).left_since s c };
}
