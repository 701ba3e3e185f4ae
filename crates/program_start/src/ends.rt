//! How a program ends if its command cannot run.
ghost use Rattle.program_start.specs.Starting.{EndsProgram, EndsWith};

use hk_base::{Sink, write_all};
use std::io::{self, ErrorKind};

/// Writes a last line. Returns `status`, or 8 if the output fails.
pub fn end_with<K: Sink>(out: &mut K, line: &[u8], status: u8) -> u8
    ensures { EndsWith status result }
{
    match write_all(out, line) {
        Ok(()) => status,
        Err(_) => 8,
    }
}

/// Tells of an error by a last line, as `end_with` does. A failed allocation has a line and a status of
/// its own.
pub fn end_by<K: Sink>(out: &mut K, error: &io::Error, line: &[u8], status: u8) -> u8
    ensures { EndsProgram status error.now result }
{
    if error.kind() == ErrorKind::OutOfMemory {
        return end_with(out, b"no memory\n", 6);
    }
    end_with(out, line, status)
}
