//! Errors of reading properties.

use hk_base::NoMemory;

/// Why a text could not be read as properties. `number` is the number of the first bad line, from
/// 1; empty lines and comments count. On one line `UnknownName` takes precedence over `Repeated`,
/// and `Repeated` over a bad value.
#[derive(Clone, Copy, Debug, PartialEq, Eq)]
pub enum PropFault {
    /// The line has no `=`, or its value is not allowed for its name.
    BadLine { number: u64 },
    /// An earlier line has the same name.
    Repeated { number: u64 },
    /// The name is not known.
    UnknownName { number: u64 },
    /// The text has more than 1,048,576 bytes.
    TooLong,
    /// Allocation failed.
    NoMemory,
}

impl From<NoMemory> for PropFault {
    ghost use Rattle.std.specs.Prelude.{◌≡◌};
    ghost use Rattle.prop_text.specs.declared.faults.PropFault.TheVariants as fault;

    ghost from_gives = { λ _ given. given ≡ fault.NoMemory };

    fn from(_: NoMemory) -> Self {
        PropFault::NoMemory
    }
}
