//! Pieces of texts.
ghost use Rattle.std.specs.Prelude.{◌≡◌, ◌++◌, OnOk};
ghost use Rattle.std.specs.Fmt.{decimal};

use hk_base::{ByteList, NoMemory};
use itoa::Buffer;

/// Appends a text.
pub(crate) fn append(out: &mut ByteList, text: &str) -> Result<(), NoMemory>
    ensures { OnOk result (out.new ≡ out.old ++ text.now) }
{
    out.append(text.as_bytes())
}

/// Appends a number in decimal.
pub(crate) fn append_number(out: &mut ByteList, number: u64) -> Result<(), NoMemory>
    ensures { OnOk result (out.new ≡ out.old ++ decimal number) }
{
    let mut digits = Buffer::new();
    out.append(digits.format(number).as_bytes())
}
