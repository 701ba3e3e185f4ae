//! The environment that the services are given: input, output, random words and the time.
ghost use Rattle.std.specs.Prelude.{◌≡◌, ◌+◌, ◌<◌, ℕ, List, length, Option};
ghost use Rattle.std.specs.Io.{ReadsAtMost, WritesAtMost};
ghost use Rattle.std.specs.Io.KnownBytes.{ReadConsumes, WriteAppends};
ghost use Rattle.hk_base.specs.Faults.{HasCause, Rose};

/// A call of the environment failed and counted the fault.
#[derive(Clone, Copy, Debug, PartialEq, Eq)]
pub struct Failed;

/// An input of bytes.
pub trait Source {
    /// The bytes still to come, if the source promises them.
    ghost left: { Self → Option (List ℕ) };

    /// The number of faults so far.
    ghost faults: { Self → ℕ };

    /// Reads bytes into the start of the buffer and returns how many. Returning 0 for a buffer that is
    /// not empty means the end of the input. It fails only if the count of faults rises.
    fn read(&mut self, buf: &mut [u8]) -> Result<usize, Failed>
        ensures bound { ReadsAtMost result buf.new }
        ensures bytes { ReadConsumes (left self.old) (left self.new) result buf.new }
        ensures cause { HasCause (faults self.old) (faults self.new) result };
}

/// An output of bytes.
pub trait Sink {
    /// The bytes written so far, if the sink promises them.
    ghost written: { Self → Option (List ℕ) };

    /// The number of faults so far.
    ghost faults: { Self → ℕ };

    /// Writes bytes from the start of the slice and returns how many. Writing 0 bytes of a slice that
    /// is not empty counts as a fault. It fails only if the count of faults rises.
    fn write(&mut self, bytes: &[u8]) -> Result<usize, Failed>
        ensures bound { WritesAtMost result bytes.now }
        ensures bytes { WriteAppends (written self.old) (written self.new) result bytes.now }
        ensures cause { HasCause (faults self.old) (faults self.new) result }
        ensures nothing { result ≡ Ok 0 → 0 < length bytes.now →
            Rose (faults self.old) (faults self.new) };
}

/// A supply of random words. Drawing a word cannot fail.
pub trait Words {
    /// The word that the draw after the next `k` draws will return.
    ghost to_come: { Self → ℕ → ℕ };

    /// Draws and returns the next word.
    fn word(&mut self) -> u32
        ensures word { result ≡ to_come self.old 0 }
        ensures rest { (k : ℕ) → to_come self.new k ≡ to_come self.old (k + 1) };
}

/// The time of day. Reading it cannot fail, and nothing is promised about the number.
pub trait Clock {
    /// Returns the milliseconds since the start of 1970 by this clock.
    fn now_ms(&mut self) -> u64;
}
