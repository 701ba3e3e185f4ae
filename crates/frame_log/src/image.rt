//! The image of a state, from which a log is to start, and where it is in a file.
ghost use Rattle.std.specs.Prelude.{◌≡◌, ◌+◌, ◌≤◌, ℕ, List, length, take, IfOk, OnErr};
ghost use Rattle.hk_base.specs.Disk.{DiskState, LeavesOnly, Reads, RunOn, Tells, piece};
ghost use Rattle.hk_base.specs.Faults.{Rose};

use hk_base::{Disk, Failed};

/// The bytes of an image in a file: the offset of the first one, and their number.
#[derive(Clone, Copy, Debug, PartialEq, Eq)]
pub struct ImageSpan {
    pub place: u64,
    pub size: u64,
}

/// The image of a state, told part by part. It may read some of its bytes from a range of a file: `count`
/// bytes from the offset `from` on. The image is a function of what this range holds.
pub trait Image {
    ghost file: { Self → ℕ };

    ghost from: { Self → ℕ };

    ghost count: { Self → ℕ };

    ghost image: { Self → List ℕ → List ℕ };

    /// Returns the number of bytes. It is the same whatever the range holds.
    fn size(&self) -> u64
        ensures { (held : List ℕ) → length held ≡ Self.count self.now →
            result ≡ length (Self.image self.now held) };

    /// Copies the bytes from the offset `at` on, as many as there are and the buffer has room for, and
    /// returns their number. The offset is to be at most the size. Changes no file and takes no memory.
    /// Returns `Failed` if the disk failed and counted the fault.
    fn part<D: Disk>(&self, disk: &mut D, at: u64, buf: &mut [u8]) -> Result<usize, Failed>
        requires within { Tells (D.state disk.old) → Self.from self.now + Self.count self.now ≤
            length ((D.state disk.old).reads (Self.file self.now)) }
        ensures length { length buf.new ≡ length buf.old }
        ensures most { IfOk result (λ n. n ≤ length buf.new) }
        ensures part { IfOk result
            (λ n. Tells (D.state disk.old) → (held : List ℕ) →
            piece (Self.from self.now) (Self.count self.now)
            ((D.state disk.old).reads (Self.file self.now)) ≡ held
            → at ≤ length (Self.image self.now held)
            → take n buf.new ≡ piece at (length buf.new) (Self.image self.now held)) }
        ensures cause { OnErr result (Rose (D.state disk.old).faults (D.state disk.new).faults) }
        // A crash at any moment of the call leaves what it might have left before.
        ensures same { Reads (Self.file self.now) (D.state disk.old) (D.state disk.new) }
        ensures run { RunOn (Self.file self.now) (D.state disk.old) (D.state disk.new) }
        ensures moments { LeavesOnly (Self.file self.now) (D.state disk.old) (D.state disk.new)
            ((D.state disk.old).leaves (Self.file self.now)) };
}
