//! Lists in one field: of names, and of encrypted data encryption keys as they are sent.
ghost use Rattle.std.specs.Prelude.{◌≡◌, ◌<◌, ◌∷◌, [], ℕ, List, length, position, All, false, IfNone, IfOk, MatchOption};
ghost use Rattle.std.specs.List.{slice_split};
ghost use Rattle.hk_base.specs.Names.{IsKeyName};
ghost use Rattle.kms_calls.specs.declared.calls.RawEdek.{RawEdek};
ghost use Rattle.replay_text.specs.Events.{AreTriples, IsTriple, SpellsEdek, is_colon, is_comma};

use crate::fields::read_bytes;
use hk_base::{KeyName, NoMemory, VersionName};
use kms_calls::{NameList, RawEdek, RawEdekList};
use std::alloc::Global;

fn comma_in(bytes: &[u8]) -> Option<usize>
    ensures first { result ≡ position is_comma bytes.now }
    ensures none { IfNone result (All (λ b. is_comma b ≡ false) bytes.now) }
{
    bytes.iter().position(|byte| *byte == b',')
}

/// Splits a list at its first comma: the part, and the rest if there is a comma.
fn cut_at_comma(bytes: &[u8]) -> (&[u8], Option<&[u8]>)
    ensures cut { MatchOption result.1 (slice_split is_comma bytes.now ≡ result.0.now ∷ [])
        (λ rest. slice_split is_comma bytes.now ≡ result.0.now ∷ slice_split is_comma rest.now) }
    ensures shorter { MatchOption result.1 (result.0.now ≡ bytes.now)
        (λ rest. length rest.now < length bytes.now) }
{
    match comma_in(bytes) {
        None => (bytes, None),
        Some(place) => (&bytes[..place], Some(&bytes[place + 1..])),
    }
}

fn colon_in(bytes: &[u8]) -> Option<usize>
    ensures first { result ≡ position is_colon bytes.now }
    ensures none { IfNone result (All (λ b. is_colon b ≡ false) bytes.now) }
{
    bytes.iter().position(|byte| *byte == b':')
}

/// Splits bytes at their first colon: the part, and the rest if there is a colon.
fn cut_at_colon(bytes: &[u8]) -> (&[u8], Option<&[u8]>)
    ensures { MatchOption result.1 (slice_split is_colon bytes.now ≡ result.0.now ∷ [])
        (λ rest. slice_split is_colon bytes.now ≡ result.0.now ∷ slice_split is_colon rest.now) }
{
    match colon_in(bytes) {
        None => (bytes, None),
        Some(place) => (&bytes[..place], Some(&bytes[place + 1..])),
    }
}

/// Returns the bytes, or `None` if there is a colon among them.
fn without_colon(bytes: &[u8]) -> Option<&[u8]>
    ensures { MatchOption result ((part : List ℕ) → ¬ (slice_split is_colon bytes.now ≡ part ∷ []))
        (λ part. slice_split is_colon bytes.now ≡ part.now ∷ []) }
{
    let (part, rest) = cut_at_colon(bytes);
    match rest {
        Some(_) => None,
        None => Some(part),
    }
}

/// Returns the names between commas, or `None` if a part is no name.
pub fn read_names(alloc: Global, bytes: &[u8]) -> Result<Option<NameList>, NoMemory>
    ensures { IfOk result
        (λ found.
        MatchOption found (¬ All IsKeyName (slice_split is_comma bytes.now))
        (λ names. (slice_split is_comma bytes.now ≡ names) × All IsKeyName names)) }
{
    let mut names = NameList::with_room(alloc, 1)?;
    let mut rest = bytes;
    'parts: loop {
        let (part, more) = cut_at_comma(rest);
        let Some(name) = KeyName::read(part) else {
            return Ok(None);
        };
        names.push(name)?;
        match more {
            None => return Ok(Some(names)),
            Some(next) => rest = next,
        }
    }
}

/// The fields of an encrypted data encryption key as it is sent.
#[derive(Clone, Copy)]
pub struct EdekFields<'a> {
    pub version: &'a [u8],
    pub iv: &'a [u8],
    pub sealed: &'a [u8],
}

/// Returns the encrypted key that three fields spell, or `None` if they spell none.
pub fn read_edek(
    alloc: Global,
    version: &[u8],
    iv: &[u8],
    sealed: &[u8],
) -> Result<Option<RawEdek>, NoMemory>
    ensures { IfOk result
        (λ found.
        MatchOption found ((sent : RawEdek) → ¬ SpellsEdek version.now iv.now sealed.now sent)
        (SpellsEdek version.now iv.now sealed.now)) }
{
    let Some(version) = VersionName::read(version) else {
        return Ok(None);
    };
    let Some(iv) = read_bytes(alloc, iv)? else {
        return Ok(None);
    };
    let Some(sealed) = read_bytes(alloc, sealed)? else {
        return Ok(None);
    };
    Ok(Some(RawEdek {
        version,
        iv,
        sealed,
    }))
}

/// The fields of `V:IV:H`.
fn triple_fields(part: &[u8]) -> Option<EdekFields<'_>>
    ensures { MatchOption result
        ((version iv sealed : List ℕ) →
        ¬ (slice_split is_colon part.now ≡ version ∷ iv ∷ sealed ∷ []))
        (λ parts. slice_split is_colon part.now ≡
        parts.version.now ∷ parts.iv.now ∷ parts.sealed.now ∷ []) }
{
    let (version, rest) = cut_at_colon(part);
    let (iv, rest) = cut_at_colon(rest?);
    let sealed = without_colon(rest?)?;
    Some(EdekFields {
        version,
        iv,
        sealed,
    })
}

/// Returns the encrypted key that `V:IV:H` spells, or `None` if the bytes are no such triple.
fn read_triple(alloc: Global, part: &[u8]) -> Result<Option<RawEdek>, NoMemory>
    ensures { IfOk result
        (λ found.
        MatchOption found ((sent : RawEdek) → ¬ IsTriple part.now sent) (IsTriple part.now)) }
{
    let Some(parts) = triple_fields(part) else {
        return Ok(None);
    };
    read_edek(alloc, parts.version, parts.iv, parts.sealed)
}

/// Returns the encrypted keys between commas, or `None` if a part spells none.
pub fn read_edeks(alloc: Global, bytes: &[u8]) -> Result<Option<RawEdekList>, NoMemory>
    ensures { IfOk result
        (λ found.
        MatchOption found
        ((sent : List RawEdek) → ¬ AreTriples (slice_split is_comma bytes.now) sent)
        (AreTriples (slice_split is_comma bytes.now))) }
{
    let mut edeks = RawEdekList::with_room(alloc, 1)?;
    let mut rest = bytes;
    'parts: loop {
        let (part, more) = cut_at_comma(rest);
        let Some(edek) = read_triple(alloc, part)? else {
            return Ok(None);
        };
        edeks.push(edek)?;
        match more {
            None => return Ok(Some(edeks)),
            Some(next) => rest = next,
        }
    }
}
