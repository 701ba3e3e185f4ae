//! Fields of a line.
ghost use Rattle.std.specs.Prelude.{◌≡◌, ◌<◌, ◌≤◌, ◌^◌, ◌∷◌, [], ℕ, List, length, position, All, false, IfOk, IfNone, MatchOption, Option};
ghost use Rattle.std.specs.Fmt.{decimal};
ghost use Rattle.hk_base.specs.Names.{IsKeyName};
ghost use Rattle.percent_encoding.specs.Percent.{percent_decode};
ghost use Rattle.hex.specs.Hex.{is_hex_digit};
ghost use Rattle.replay_text.specs.Events.{IsEscaped, IsMaterial, IsUser, SpellsMaterial, fields_of, is_escaped_from, is_plain, is_space};

use hk_base::{ByteList, KeyName, NoMemory, Text, read_number};
use std::alloc::Global;

/// The most digits of a field of bytes.
const MOST_DIGITS: usize = 128;

/// The greatest number that a field spells.
const LAST_NUMBER: u64 = 4294967295;

fn space_in(bytes: &[u8]) -> Option<usize>
    ensures first { result ≡ position is_space bytes.now }
    ensures none { IfNone result (All (λ b. is_space b ≡ false) bytes.now) }
{
    bytes.iter().position(|byte| *byte == b' ')
}

/// Splits a line at its first space: the field, and the rest if there is a space.
pub fn cut(bytes: &[u8]) -> (&[u8], Option<&[u8]>)
    ensures { MatchOption result.1 (fields_of bytes.now ≡ result.0.now ∷ [])
        (λ rest. fields_of bytes.now ≡ result.0.now ∷ fields_of rest.now) }
{
    match space_in(bytes) {
        None => (bytes, None),
        Some(place) => (&bytes[..place], Some(&bytes[place + 1..])),
    }
}

/// Returns the only field of a line, or `None` if there are more.
pub fn only_field(bytes: &[u8]) -> Option<&[u8]>
    ensures { MatchOption result ((field : List ℕ) → ¬ (fields_of bytes.now ≡ field ∷ []))
        (λ field. fields_of bytes.now ≡ field.now ∷ []) }
{
    let (field, rest) = cut(bytes);
    match rest {
        Some(_) => None,
        None => Some(field),
    }
}

/// Whether a byte of a user or a path is spelled without an escape.
fn is_plain(byte: u8) -> bool
    ensures { result ≡ is_plain byte }
{
    33 <= byte && byte <= 126 && byte != b'%' && byte != b',' && byte != b':'
}

fn is_hex_digit(byte: u8) -> bool
    ensures { result ≡ is_hex_digit byte }
{
    byte.is_ascii_hexdigit()
}

/// Whether each byte of a field is one without an escape or belongs to an escape.
fn is_escaped(field: &[u8]) -> bool
    ensures { result ≡ is_escaped_from 0 field.now }
{
    let mut wanted = 0u8;
    'bytes: for byte in field {
        if wanted > 0 {
            if !is_hex_digit(*byte) {
                return false;
            }
            wanted -= 1;
        } else if *byte == b'%' {
            wanted = 2;
        } else if !is_plain(*byte) {
            return false;
        }
    }
    wanted == 0
}

fn decoded(alloc: Global, field: &[u8]) -> Result<Vec<u8>, NoMemory>
    ensures { IfOk result (λ bytes. bytes.items ≡ percent_decode field.now) }
{
    let mut bytes = Vec::new(alloc);
    percent_encoding::percent_decode(field).append_to(&mut bytes)?;
    Ok(bytes)
}

/// Returns the user that a field spells, or `None` if it spells none.
pub fn read_user(alloc: Global, field: &[u8]) -> Result<Option<Text>, NoMemory>
    ensures { IfOk result
        (λ found.
        MatchOption found ((user : List ℕ) → ¬ IsUser field.now user) (IsUser field.now)) }
{
    if !is_escaped(field) {
        return Ok(None);
    }
    let bytes = decoded(alloc, field)?;
    if bytes.is_empty() || bytes.len() > 255 {
        return Ok(None);
    }
    Ok(Text::from_utf8(bytes))
}

/// Returns the bytes that a field with escapes spells, or `None` if it spells none.
pub fn read_escaped(alloc: Global, field: &[u8]) -> Result<Option<ByteList>, NoMemory>
    ensures { IfOk result
        (λ found.
        MatchOption found ((bytes : List ℕ) → ¬ IsEscaped field.now bytes)
        (IsEscaped field.now)) }
{
    if !is_escaped(field) {
        return Ok(None);
    }
    Ok(Some(ByteList::of(decoded(alloc, field)?)))
}

/// Returns the bytes that 2 to 128 hexadecimal digits spell, or `None` for another field.
pub fn read_bytes(alloc: Global, field: &[u8]) -> Result<Option<ByteList>, NoMemory>
    ensures { IfOk result
        (λ found.
        MatchOption found ((material : List ℕ) → ¬ IsMaterial field.now material)
        (IsMaterial field.now)) }
{
    if field.len() < 2 {
        return Ok(None);
    }
    if field.len() > MOST_DIGITS {
        return Ok(None);
    }
    match hex::decode(alloc, field) {
        Ok(bytes) => Ok(Some(ByteList::of(bytes))),
        Err(hex::FromHexError::OutOfMemory) => Err(NoMemory),
        Err(_) => Ok(None),
    }
}

/// Returns the material that a field spells, `Some(None)` for `-`, and `None` for another field.
pub fn read_material(alloc: Global, field: &[u8]) -> Result<Option<Option<ByteList>>, NoMemory>
    ensures { IfOk result
        (λ found.
        MatchOption found ((material : Option (List ℕ)) → ¬ SpellsMaterial field.now material)
        (SpellsMaterial field.now)) }
{
    if field == b"-".as_slice() {
        return Ok(Some(None));
    }
    match read_bytes(alloc, field)? {
        None => Ok(None),
        Some(material) => Ok(Some(Some(material))),
    }
}

/// Reads a number below 2^32, which has one spelling.
pub fn read_small_number(field: &[u8]) -> Option<u32>
    ensures { MatchOption result ((n : ℕ) → n < 2 ^ 32 → ¬ (field.now ≡ decimal n))
        (λ n. (n < 2 ^ 32) × (field.now ≡ decimal n)) }
{
    let Some(number) = read_number(field) else {
        return None;
    };
    if number > LAST_NUMBER {
        return None;
    }
    Some(number as u32)
}

/// Returns the key name that is the only field. Returns `None` for several fields or another one.
pub fn only_name(fields: &[u8]) -> Option<KeyName>
    ensures { MatchOption result
        ((name : List ℕ) → IsKeyName name → ¬ (fields_of fields.now ≡ name ∷ []))
        (λ name. IsKeyName name × (fields_of fields.now ≡ name ∷ [])) }
{
    let Some(field) = only_field(fields) else {
        return None;
    };
    KeyName::read(field)
}
