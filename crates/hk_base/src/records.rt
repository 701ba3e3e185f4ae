//! Errors of decoding a log record.
use crate::texts::NoMemory;

/// Why bytes could not be decoded as a log record.
#[derive(Clone, Copy, Debug, PartialEq, Eq)]
pub enum RecordFault {
    /// The bytes do not encode a record.
    NoRecord,
    /// Allocating the record failed.
    NoMemory,
}

impl From<NoMemory> for RecordFault {
    ghost use Rattle.std.specs.Prelude.{◌≡◌};
    ghost use Rattle.hk_base.specs.declared.records.RecordFault.TheVariants as fault;

    ghost from_gives = { λ _ given. given ≡ fault.NoMemory };

    fn from(_: NoMemory) -> Self {
        RecordFault::NoMemory
    }
}
