//! The fields of log records: numbers, bytes with their lengths, names and material.
//!
//! A function that reads from the start of the bytes returns the value and the bytes after it. It
//! returns `NoRecord` if the bytes do not begin with such a value.
ghost use Rattle.std.specs.Prelude.{◌≡◌, ◌≤◌, ◌++◌, ◌∷◌, IfOk, OnOk, OnErr, length, take};
ghost use Rattle.std.specs.Int.{w16, w32, w64, to_be_bytes};
ghost use Rattle.hk_base.specs.Names.{IsKeyName};
ghost use Rattle.key_rows.specs.Records.{name_field};
ghost use Rattle.key_rows.specs.Reading.{GivesRecord, bytes_at, long_at, material_of, name_of, number_at, short_at};

use hk_base::{ByteList, Dek, KeyName, NoMemory, RecordFault};

/// Reads a 16-bit number from the start, most significant byte first.
pub fn u16_at(bytes: &[u8]) -> Result<(u16, &[u8]), RecordFault>
    ensures { GivesRecord (λ x. (x.0, x.1.now)) result (number_at w16 bytes.now) }
{
    if bytes.len() < 2 {
        return Err(RecordFault::NoRecord);
    }
    let (front, rest) = bytes.split_at(2);
    let number = u16::from_be_bytes([front[0], front[1]]);
    Ok((number, rest))
}

/// Reads a 32-bit number from the start, most significant byte first.
pub fn u32_at(bytes: &[u8]) -> Result<(u32, &[u8]), RecordFault>
    ensures { GivesRecord (λ x. (x.0, x.1.now)) result (number_at w32 bytes.now) }
{
    if bytes.len() < 4 {
        return Err(RecordFault::NoRecord);
    }
    let (front, rest) = bytes.split_at(4);
    let number = u32::from_be_bytes([front[0], front[1], front[2], front[3]]);
    Ok((number, rest))
}

/// Reads a 64-bit number from the start, most significant byte first.
pub fn u64_at(bytes: &[u8]) -> Result<(u64, &[u8]), RecordFault>
    ensures { GivesRecord (λ x. (x.0, x.1.now)) result (number_at w64 bytes.now) }
{
    if bytes.len() < 8 {
        return Err(RecordFault::NoRecord);
    }
    let (front, rest) = bytes.split_at(8);
    let number = u64::from_be_bytes([
        front[0], front[1], front[2], front[3], front[4], front[5], front[6], front[7],
    ]);
    Ok((number, rest))
}

/// Reads the first `len` bytes.
pub fn cut(bytes: &[u8], len: usize) -> Result<(&[u8], &[u8]), RecordFault>
    ensures { GivesRecord (λ x. (x.0.now, x.1.now)) result (bytes_at len bytes.now) }
{
    if bytes.len() < len {
        return Err(RecordFault::NoRecord);
    }
    let (front, rest) = bytes.split_at(len);
    Ok((front, rest))
}

/// Reads a byte that gives a length, and then that many bytes.
#[tactic(auto, unfolding(crate::specs::Reading::short_at))]
pub fn cut_short(bytes: &[u8]) -> Result<(&[u8], &[u8]), RecordFault>
    ensures { GivesRecord (λ x. (x.0.now, x.1.now)) result (short_at bytes.now) }
{
    match bytes {
        [] => Err(RecordFault::NoRecord),
        [len, rest @ ..] => cut(rest, *len as usize),
    }
}

/// Reads two bytes that give a length, and then that many bytes.
#[tactic(auto, unfolding(crate::specs::Reading::long_at))]
pub fn cut_long(bytes: &[u8]) -> Result<(&[u8], &[u8]), RecordFault>
    ensures given { GivesRecord (λ x. (x.0.now, x.1.now)) result (long_at bytes.now) }
    ensures short { IfOk result (λ x. length x.0.now ≤ 65535) }
{
    let (len, rest) = u16_at(bytes)?;
    cut(rest, len as usize)
}

/// Reads all of the bytes as the name of a key. Returns `NoRecord` if they break the rule of key
/// names.
pub fn name_of(bytes: &[u8]) -> Result<KeyName, RecordFault>
    ensures { GivesRecord (λ x. x) result (name_of bytes.now) }
{
    match KeyName::read(bytes) {
        None => Err(RecordFault::NoRecord),
        Some(name) => Ok(name),
    }
}

/// Reads all of the bytes as material. Returns `NoRecord` unless there are 16, 24 or 32.
pub fn material_of(bytes: &[u8]) -> Result<Dek, RecordFault>
    ensures { GivesRecord (λ x. x) result (material_of bytes.now) }
{
    match Dek::read(bytes) {
        None => Err(RecordFault::NoRecord),
        Some(material) => Ok(material),
    }
}

/// Appends the name of a key after one byte with its length. Returns `NoMemory` if allocation fails; a
/// prefix may then have been appended.
pub fn append_name(out: &mut ByteList, name: &KeyName) -> Result<(), NoMemory>
    ensures ok { OnOk result (out.new ≡ out.old ++ name_field name.now) }
    ensures is_name { OnOk result (IsKeyName name.now) }
    ensures err { OnErr result (take (length out.old) out.new ≡ out.old) }
{
    let bytes = name.as_bytes();
    out.push(bytes.len() as u8)?;
    out.append(bytes)
}

/// Appends the first byte of a record and a 64-bit number. Returns `NoMemory` if allocation fails; a
/// prefix may then have been appended.
pub fn append_head(out: &mut ByteList, tag: u8, number: u64) -> Result<(), NoMemory>
    ensures ok { OnOk result (out.new ≡ out.old ++ tag ∷ to_be_bytes w64 number) }
    ensures err { OnErr result (take (length out.old) out.new ≡ out.old) }
{
    out.push(tag)?;
    out.append(&number.to_be_bytes())
}
