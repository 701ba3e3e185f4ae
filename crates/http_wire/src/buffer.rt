//! The bytes that were read past a request.
ghost use Rattle.std.specs.Prelude.{◌≡◌, ◌<◌, ◌≤◌, ◌++◌, ◌∷◌, [], length, take, drop, OnOk, OnErr};
ghost use Rattle.std.specs.Io.KnownBytes.{Consumes, IsAtEnd};
ghost use Rattle.hk_base.specs.Faults.{Rose};
ghost use Rattle.http_wire.specs.Reading.{ahead, byte_used};

use hk_base::{ByteList, NoMemory, Source};
use std::marker::Model;

/// The size of a read of the source.
const PIECE: usize = 4096;

/// The bytes that a read returned past the end of a request. They belong to the next one. In contracts
/// its value is these bytes. It does not allocate.
#[derive(Drop)]
pub struct ReadBuffer {
    piece: [u8; 4096],
    from: usize,
    to: usize,
}

impl Model for ReadBuffer {
    ghost use Rattle.std.specs.Prelude.{◌≤◌, ℕ, List, take, drop};

    ghost Value = { List ℕ };

    ghost view = { λ s. drop s.from (take s.to s.piece) };

    ghost invariant = { λ s. (s.from ≤ s.to) × (s.to ≤ 4096) };
}

/// The next byte, or why there is none.
#[derive(Clone, Copy, Debug, PartialEq, Eq)]
pub(crate) enum Next {
    Byte(u8),
    /// The source is at its end.
    End,
    /// The source failed.
    Fault,
}

/// Whether there is a next byte.
#[derive(Clone, Copy, Debug, PartialEq, Eq)]
pub(crate) enum Filled {
    /// The buffer has at least one byte.
    More,
    /// The source is at its end.
    End,
    /// The source failed.
    Fault,
}

impl ReadBuffer {
    /// Creates an empty buffer.
    pub fn new() -> ReadBuffer
        ensures { result ≡ [] }
    {
        ReadBuffer {
            piece: [0; PIECE],
            from: 0,
            to: 0,
        }
    }

    /// Reads a piece from the source if the buffer is empty.
    pub(crate) fn fill<S: Source>(&mut self, source: &mut S) -> Filled
        ensures kept { Consumes (ahead self.old (S.left source.old))
            (ahead self.new (S.left source.new)) [] }
        ensures more { result ≡ Filled.More → 0 < length self.new }
        ensures end { result ≡ Filled.End → IsAtEnd (ahead self.new (S.left source.new)) }
        ensures later { S.faults source.old ≤ S.faults source.new }
        ensures fault { result ≡ Filled.Fault → Rose (S.faults source.old) (S.faults source.new) }
    {
        if self.from < self.to {
            return Filled::More;
        }
        match source.read(&mut self.piece) {
            Ok(count) => {
                self.from = 0;
                self.to = count;
                if count == 0 {
                    Filled::End
                } else {
                    Filled::More
                }
            }
            Err(_) => Filled::Fault,
        }
    }

    /// Takes the next byte.
    pub(crate) fn next<S: Source>(&mut self, source: &mut S) -> Next
        ensures consumed { Consumes (ahead self.old (S.left source.old))
            (ahead self.new (S.left source.new)) (byte_used result) }
        ensures end { result ≡ Next.End → IsAtEnd (ahead self.new (S.left source.new)) }
        ensures later { S.faults source.old ≤ S.faults source.new }
        ensures fault { result ≡ Next.Fault → Rose (S.faults source.old) (S.faults source.new) }
    {
        match self.fill(source) {
            Filled::Fault => Next::Fault,
            Filled::End => Next::End,
            Filled::More => Next::Byte(self.first()),
        }
    }

    /// Takes the first byte of the buffer.
    fn first(&mut self) -> u8
        requires { 0 < length self.old }
        ensures { self.old ≡ result ∷ self.new }
    {
        let byte = self.piece[self.from];
        self.from += 1;
        byte
    }

    /// Moves up to `most` bytes to the end of `out`. If allocation fails, both are unchanged.
    pub(crate) fn give(&mut self, most: usize, out: &mut ByteList) -> Result<(), NoMemory>
        ensures given { OnOk result (out.new ≡ out.old ++ take most self.old) }
        ensures left { OnOk result (self.new ≡ drop most self.old) }
        ensures out { OnErr result (out.new ≡ out.old) }
        ensures buffer { OnErr result (self.new ≡ self.old) }
    {
        let count = most.min(self.to - self.from);
        out.append(&self.piece[self.from..self.from + count])?;
        self.from += count;
        Ok(())
    }
}
