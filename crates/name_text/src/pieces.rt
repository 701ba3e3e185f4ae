//! The parts of an answer: numbers, names of keys and paths.
ghost use Rattle.std.specs.Prelude.{◌≡◌, ◌++◌, OnOk, drop};
ghost use Rattle.std.specs.Fmt.{decimal};
ghost use Rattle.std.specs.String.{string_bytes};
ghost use Rattle.hex.specs.Hex.{encode_lower};
ghost use Rattle.percent_encoding.specs.Percent.{percent_encode};
ghost use Rattle.hk_base.specs.Names.{version_text};
ghost use Rattle.name_text.specs.Answers.{escaped_path, escaped_relative_path};
ghost use Rattle.name_text.specs.declared.pieces.TheConstants.{ESCAPED};

use hk_base::{ByteList, KeyName, NoMemory, VersionName};
use itoa::Buffer;
use name_calls::NPath;
use percent_encoding::{AsciiSet, CONTROLS, percent_encode};
use std::alloc::Global;

/// The bytes of a path that are escaped, besides those that are not ASCII.
pub const ESCAPED: AsciiSet = percent_encoding::ascii_set!(
    CONTROLS.add(b' ').add(b'%').add(b',').add(b':')
);

pub(crate) fn write_text(text: &str, out: &mut String) -> Result<(), NoMemory>
    ensures { OnOk result (string_bytes out.new ≡ string_bytes out.old ++ text.now) }
{
    out.push_str(text)?;
    Ok(())
}

pub(crate) fn write_number(number: u64, out: &mut String) -> Result<(), NoMemory>
    ensures { OnOk result (string_bytes out.new ≡ string_bytes out.old ++ decimal number) }
{
    let mut digits = Buffer::new();
    write_text(digits.format(number), out)
}

pub(crate) fn write_hex(alloc: Global, bytes: &[u8], out: &mut String) -> Result<(), NoMemory>
    ensures { OnOk result (string_bytes out.new ≡ string_bytes out.old ++ encode_lower bytes.now) }
{
    write_text(hex::encode(alloc, bytes)?.as_str(), out)
}

pub(crate) fn write_key(key: &KeyName, out: &mut String) -> Result<(), NoMemory>
    ensures { OnOk result (string_bytes out.new ≡ string_bytes out.old ++ key.now) }
{
    let text = str::from_utf8(key.as_bytes()).unwrap();
    write_text(text, out)
}

pub(crate) fn write_version(version: &VersionName, out: &mut String) -> Result<(), NoMemory>
    ensures { OnOk result
        (string_bytes out.new ≡
        string_bytes out.old ++ version_text version.now.key version.now.number) }
{
    write_key(&version.key, out)?;
    write_text("@", out)?;
    write_number(version.number as u64, out)
}

/// Appends bytes of a path, with escapes.
pub(crate) fn write_escaped(bytes: &[u8], out: &mut String) -> Result<(), NoMemory>
    ensures { OnOk result
        (string_bytes out.new ≡ string_bytes out.old ++ percent_encode ESCAPED bytes.now) }
{
    percent_encode(bytes, ESCAPED).append_to(out)?;
    Ok(())
}

pub(crate) fn write_path(alloc: Global, path: &NPath, out: &mut String) -> Result<(), NoMemory>
    ensures { OnOk result (string_bytes out.new ≡ string_bytes out.old ++ escaped_path path.now) }
{
    let mut bytes = ByteList::new(alloc);
    path.write(&mut bytes)?;
    write_escaped(bytes.as_slice(), out)
}

/// Appends a path in a zone, without a slash before its first name.
pub(crate) fn write_relative_path(
    alloc: Global,
    path: &NPath,
    out: &mut String,
) -> Result<(), NoMemory>
    ensures { OnOk result
        (string_bytes out.new ≡ string_bytes out.old ++ escaped_relative_path path.now) }
{
    let mut bytes = ByteList::new(alloc);
    path.write(&mut bytes)?;
    write_escaped(after_first_byte(bytes.as_slice()), out)
}

/// Returns all but the first byte, if there is one.
fn after_first_byte(bytes: &[u8]) -> &[u8]
    ensures { result.now ≡ drop 1 bytes.now }
{
    if bytes.is_empty() {
        return bytes;
    }
    &bytes[1..]
}
