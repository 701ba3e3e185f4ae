//! Reading one byte at a time.
ghost use Rattle.std.specs.Prelude.{◌≡◌, ◌+◌, ◌≤◌, ◌^◌, [], length, true, false};
ghost use Rattle.std.specs.Io.KnownBytes.{Consumes, IsAtEnd};
ghost use Rattle.hk_base.specs.Faults.{Rose};
ghost use Rattle.hk_base.specs.Reading.{ahead, byte_used, IsMore};

use crate::outside::Source;
use std::marker::Model;

/// The largest number of input bytes that are used: 2^40.
pub const LONGEST_INPUT: u64 = 1 << 40;

/// How many bytes are requested from the source at a time.
const PIECE: usize = 4096;

/// A buffer over a source that hands out one byte at a time and counts the bytes used, up to 2^40.
/// It does not allocate.
#[derive(Drop)]
pub struct Reader {
    piece: [u8; 4096],
    from: usize,
    to: usize,
    used: u64,
}

impl Model for Reader {
    ghost use Rattle.std.specs.Prelude.{◌≤◌, ◌^◌, take, drop};
    ghost use Rattle.hk_base.specs.Reading.{Pending};

    ghost Value = { Pending };

    ghost view = { λ r. record { bytes = drop r.from (take r.to r.piece); used = r.used } };

    ghost invariant = { λ r. (r.from ≤ r.to) × (r.to ≤ 4096) × (r.used ≤ 2 ^ 40) };
}

/// The result of asking for the next byte.
#[derive(Clone, Copy, Debug, PartialEq, Eq)]
pub enum Next {
    Byte(u8),
    /// The source has ended.
    End,
    /// There is another byte, but 2^40 bytes have been used already.
    Past,
    /// The source failed.
    Fault,
}

impl Reader {
    pub fn new() -> Reader
        ensures bytes { result.bytes ≡ [] }
        ensures used { result.used ≡ 0 }
    {
        Reader {
            piece: [0; PIECE],
            from: 0,
            to: 0,
            used: 0,
        }
    }

    /// Refills the buffer if it is empty. Returns `false` if the source failed.
    fn fill<S: Source>(&mut self, source: &mut S) -> bool
        ensures kept { Consumes (ahead self.old (S.left source.old))
            (ahead self.new (S.left source.new)) [] }
        ensures used { self.new.used ≡ self.old.used }
        ensures later { S.faults source.old ≤ S.faults source.new }
        ensures fault { result ≡ false → Rose (S.faults source.old) (S.faults source.new) }
        ensures bounded { self.new.used ≤ 2 ^ 40 }
        ensures end { result ≡ true → self.new.bytes ≡ [] → IsAtEnd (S.left source.new) }
    {
        if self.from < self.to {
            return true;
        }
        match source.read(&mut self.piece) {
            Ok(count) => {
                self.from = 0;
                self.to = count;
                true
            }
            Err(_) => false,
        }
    }

    /// Uses the next byte and returns it.
    pub fn next<S: Source>(&mut self, source: &mut S) -> Next
        ensures consumed { Consumes (ahead self.old (S.left source.old))
            (ahead self.new (S.left source.new)) (byte_used result) }
        ensures used { self.new.used ≡ self.old.used + length (byte_used result) }
        ensures bounded { self.new.used ≤ 2 ^ 40 }
        ensures end { result ≡ Next.End → IsAtEnd (ahead self.new (S.left source.new)) }
        ensures past { result ≡ Next.Past →
            (self.old.used ≡ 2 ^ 40) × IsMore (ahead self.new (S.left source.new)) }
        ensures later { S.faults source.old ≤ S.faults source.new }
        ensures fault { result ≡ Next.Fault → Rose (S.faults source.old) (S.faults source.new) }
    {
        if !self.fill(source) {
            return Next::Fault;
        }
        if self.from == self.to {
            return Next::End;
        }
        if self.used == LONGEST_INPUT {
            return Next::Past;
        }
        let byte = self.piece[self.from];
        self.from += 1;
        self.used += 1;
        Next::Byte(byte)
    }
}
