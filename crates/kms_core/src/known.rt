//! What a call that reads the materials of a key knows of it.
ghost use Rattle.std.specs.Prelude.{◌≡◌, ◌/◌, ◌≤◌, IsTrue, MatchOption, MatchResult, Some, nat_le, true};
ghost use Rattle.std.specs.List.{list_any};
ghost use Rattle.key_rows.specs.declared.rows.KeyRow.{KeyRow};
ghost use Rattle.key_rows.specs.Sound.{IsRow};
ghost use Rattle.kms_calls.specs.declared.calls.RawEdek.{RawEdek};
ghost use Rattle.key_rows.specs.Table.{is_length};
ghost use Rattle.kms_core.specs.Calls.{batch_causes, first_cause, is_malformed, is_of_other_key, sent_causes};
ghost use Rattle.kms_core.specs.Steps.{ChecksSent, HasSentParts, IsKnown, IsNewest};

use crate::drawing::CurrentVersion;
use hk_base::{Dek, Iv, KeyName, VersionName};
use kms_calls::{KmsRefusal, RawEdek};

/// The largest number of data encryption keys that one call may request or send.
pub const MOST_ASKED: u32 = 1000;

/// A key, with its current material and the number of its versions, 1 to 65,535.
#[derive(Clone, Copy)]
pub struct Known {
    pub name: KeyName,
    pub birth: u64,
    pub bits: u16,
    pub versions: u32,
    pub current: Dek,
}

/// A key that was sent, whose lengths are right.
#[derive(Clone, Copy)]
pub struct SentParts {
    pub iv: Iv,
    pub sealed: Dek,
}

/// Returns the current version of a key with its material.
pub fn newest(key: &Known) -> CurrentVersion
    requires { key.now.versions ≤ 65535 }
    ensures { (row : KeyRow) → IsKnown row key.now → IsRow row → IsNewest row result }
{
    CurrentVersion {
        birth: key.birth,
        version: VersionName {
            key: key.name,
            number: key.versions.saturating_sub(1) as u16,
        },
        material: key.current,
    }
}

/// Returns the initialization vector and the sealed key that were sent, or `None` if their lengths
/// are wrong for a key of `bits` bits.
fn parts(bits: u16, sent: &RawEdek) -> Option<SentParts>
    requires { IsTrue (is_length bits) }
    ensures { MatchOption result (is_malformed bits sent.now ≡ true)
        (λ parts. HasSentParts bits sent.now parts.iv parts.sealed) }
{
    let iv = Iv::read(sent.iv.as_slice())?;
    let sealed = Dek::read(sent.sealed.as_slice())?;
    if sealed.as_bytes().len() != bits as usize / 8 {
        return None;
    }
    Some(SentParts { iv, sealed })
}

/// Checks a key that was sent, and returns its parts, or the refusal.
pub fn check(key: &Known, sent: &RawEdek) -> Result<SentParts, KmsRefusal>
    requires { IsTrue (is_length key.now.bits) }
    ensures { (row : KeyRow) → IsKnown row key.now →
        MatchResult result (ChecksSent row sent.now)
        (λ why. first_cause (sent_causes (Some row) row.name sent.now) ≡ Some why) }
{
    if sent.version.number as u32 >= key.versions {
        return Err(KmsRefusal::NoSuchVersion);
    }
    if sent.version.key != key.name {
        return Err(KmsRefusal::WrongKey);
    }
    let Some(parts) = parts(key.bits, sent) else {
        return Err(KmsRefusal::BadMaterial);
    };
    Ok(parts)
}

fn any_lacks_version(versions: u32, sent: &[RawEdek]) -> bool
    ensures { result ≡
        list_any (λ (edek : RawEdek). nat_le versions edek.version.number) sent.now }
{
    sent.iter()
        .any(|edek| edek.version.number as u32 >= versions)
}

fn any_is_of_other_key(name: &KeyName, sent: &[RawEdek]) -> bool
    ensures { result ≡ list_any (is_of_other_key name.now) sent.now }
{
    sent.iter().any(|edek| edek.version.key != *name)
}

fn any_is_malformed(bits: u16, sent: &[RawEdek]) -> bool
    requires { IsTrue (is_length bits) }
    ensures { result ≡ list_any (is_malformed bits) sent.now }
{
    sent.iter().any(|edek| parts(bits, edek).is_none())
}

/// Returns the refusal of keys that were sent together, if there is one. Each cause is checked for
/// all of the keys before the next cause.
pub fn batch_refusal(key: &Known, sent: &[RawEdek]) -> Option<KmsRefusal>
    requires { IsTrue (is_length key.now.bits) }
    ensures { (row : KeyRow) → IsKnown row key.now →
        result ≡ first_cause (batch_causes (Some row) row.name sent.now) }
{
    if any_lacks_version(key.versions, sent) {
        return Some(KmsRefusal::NoSuchVersion);
    }
    if any_is_of_other_key(&key.name, sent) {
        return Some(KmsRefusal::WrongKey);
    }
    if any_is_malformed(key.bits, sent) {
        return Some(KmsRefusal::BadMaterial);
    }
    if sent.len() > MOST_ASKED as usize {
        return Some(KmsRefusal::TooManyAsked);
    }
    None
}
