//! Names of keys and of key versions, data encryption keys and encrypted keys.
ghost use Rattle.std.specs.Prelude.{◌≡◌, ◌<◌, ◌≤◌, ◌^◌, ◌++◌, ℕ, List, length, take, position, false, All, IfNone, IsTrue, SomeIff, MatchOption, OnOk, OnErr};
ghost use Rattle.std.specs.List.{list_all};
ghost use Rattle.hk_base.specs.Names.{IsKeyName, is_key_name, is_name_byte, is_key_length, padded, is_at_sign, version_text};

use crate::numbers::read_number;
use crate::texts::{ByteList, NoMemory};
use itoa::Buffer;
use std::marker::Model;

/// The name of a key: 1 to 64 letters, digits, dots, underscores and hyphens. Contracts see its
/// bytes.
#[derive(Clone, Copy)]
pub struct KeyName {
    bytes: [u8; 64],
    len: u8,
}

impl Model for KeyName {
    ghost use Rattle.std.specs.Prelude.{◌≡◌, ℕ, List, length, take};
    ghost use Rattle.hk_base.specs.Names.{IsKeyName, padded};

    ghost Value = { List ℕ };

    ghost view = { λ a. take a.len a.bytes };

    ghost invariant = { λ a. IsKeyName (take a.len a.bytes) ×
        (padded 64 (take a.len a.bytes) ≡ a.bytes) × (length (take a.len a.bytes) ≡ a.len) };

    ghost inverse = { λ name. record { bytes = padded 64 name; len = length name } };

    ghost inverse_ok = { λ a h i. record { bytes = h.1 i; len = h.2 i } };
}

fn may_stand_in_a_name(byte: u8) -> bool
    ensures { result ≡ is_name_byte byte }
{
    byte.is_ascii_lowercase()
        || byte.is_ascii_uppercase()
        || byte.is_ascii_digit()
        || byte == b'.'
        || byte == b'_'
        || byte == b'-'
}

fn each_may_stand(bytes: &[u8]) -> bool
    ensures { result ≡ list_all is_name_byte bytes.now }
{
    bytes.iter().all(|byte| may_stand_in_a_name(*byte))
}

fn can_be_a_name(bytes: &[u8]) -> bool
    ensures { result ≡ is_key_name bytes.now }
{
    let each = each_may_stand(bytes);
    let len = bytes.len();
    0 < len && len <= 64 && each
}

fn with_zeros(bytes: &[u8]) -> [u8; 64]
    requires { length bytes.now ≤ 64 }
    ensures { result ≡ padded 64 bytes.now }
{
    let mut all = [0u8; 64];
    let (front, _) = all.split_at_mut(bytes.len());
    front.copy_from_slice(bytes);
    all
}

impl KeyName {
    /// Parses a name. Returns `None` if the bytes break the rule for names.
    pub fn read(bytes: &[u8]) -> Option<KeyName>
        ensures { SomeIff result (IsKeyName bytes.now) bytes.now }
    {
        if !can_be_a_name(bytes) {
            return None;
        }
        Some(KeyName {
            bytes: with_zeros(bytes),
            len: bytes.len() as u8,
        })
    }

    pub fn as_bytes(&self) -> &[u8]
        ensures bytes { result.now ≡ self.now }
        ensures name { IsKeyName self.now }
    {
        &self.bytes[..self.len as usize]
    }
}

impl PartialEq for KeyName {
    ghost use Rattle.std.specs.Str.{bytes_eq};
    ghost use Rattle.std.specs.Cmp.Rules.{comparing};
    ghost use Rattle.std.proofs.Common.{rules};

    ghost eq = { bytes_eq };

    ghost laws = { Prim.search (comparing, rules) };

    fn eq(&self, other: &KeyName) -> bool {
        self.as_bytes() == other.as_bytes()
    }
}

impl Eq for KeyName {
    ghost use Rattle.std.specs.Cmp.Rules.{comparing};
    ghost use Rattle.std.proofs.Common.{rules};

    ghost laws = { Prim.search (comparing, rules) };
}

/// A version of a key: the key's name and the version's number, which starts at 0. Its text form is
/// `key@number`.
#[derive(Clone, Copy, PartialEq, Eq)]
pub struct VersionName {
    pub key: KeyName,
    pub number: u16,
}

impl Model for VersionName {
    ghost use Rattle.hk_base.specs.Names.{Version};

    ghost Value = { Version };

    ghost view = { λ a. record { key = a.key; number = a.number } };

    ghost inverse = { λ v. record { key = v.key; number = v.number } };
}

/// The initialization vector of counter mode: 16 bytes. Contracts see the bytes.
#[derive(Clone, Copy, PartialEq, Eq)]
pub struct Iv(pub [u8; 16]);

impl Model for Iv {
    ghost use Rattle.std.specs.Prelude.{ℕ, List};

    ghost Value = { List ℕ };

    ghost view = { λ iv. iv.0 };

    ghost inverse = { λ bytes. record { 0 = bytes } };
}

impl Iv {
    /// Converts 16 bytes to an initialization vector. Returns `None` for any other number of bytes.
    pub fn read(bytes: &[u8]) -> Option<Iv>
        ensures { SomeIff result (length bytes.now ≡ 16) bytes.now }
    {
        if bytes.len() != 16 {
            return None;
        }
        let mut all = [0u8; 16];
        all.copy_from_slice(bytes);
        Some(Iv(all))
    }

    pub fn as_bytes(&self) -> &[u8]
        ensures bytes { result.now ≡ self.now }
        ensures length { length self.now ≡ 16 }
    {
        &self.0
    }
}

/// A data encryption key (DEK), or the material of a key version: 16, 24 or 32 bytes. Contracts see
/// the bytes.
#[derive(Clone, Copy, PartialEq, Eq)]
pub struct Dek {
    len: u8,
    bytes: [u8; 32],
}

impl Model for Dek {
    ghost use Rattle.std.specs.Prelude.{◌≡◌, ℕ, List, length, take, IsTrue};
    ghost use Rattle.hk_base.specs.Names.{is_key_length, padded};

    ghost Value = { List ℕ };

    ghost view = { λ a. take a.len a.bytes };

    ghost invariant = { λ a. IsTrue (is_key_length a.len) ×
        (padded 32 (take a.len a.bytes) ≡ a.bytes) × (length (take a.len a.bytes) ≡ a.len) };

    ghost inverse = { λ key. record { len = length key; bytes = padded 32 key } };

    ghost inverse_ok = { λ a h i. record { bytes = h.1 i; len = h.2 i } };
}

impl Dek {
    /// Converts 16, 24 or 32 bytes to a key. Returns `None` for any other number of bytes.
    pub fn read(bytes: &[u8]) -> Option<Dek>
        ensures { SomeIff result (IsTrue (is_key_length (length bytes.now))) bytes.now }
    {
        let len = bytes.len();
        if len != 16 && len != 24 && len != 32 {
            return None;
        }
        Some(Dek::of(bytes))
    }

    /// Converts 16, 24 or 32 bytes to a key.
    pub fn of(bytes: &[u8]) -> Dek
        requires { IsTrue (is_key_length (length bytes.now)) }
        ensures { result ≡ bytes.now }
    {
        let len = bytes.len();
        let mut all = [0u8; 32];
        let (front, _) = all.split_at_mut(len);
        front.copy_from_slice(bytes);
        Dek {
            len: len as u8,
            bytes: all,
        }
    }

    pub fn as_bytes(&self) -> &[u8]
        ensures bytes { result.now ≡ self.now }
        ensures length { IsTrue (is_key_length (length self.now)) }
    {
        &self.bytes[..self.len as usize]
    }
}

/// An encrypted data encryption key (EDEK): the key version whose material sealed it, the
/// initialization vector, and the sealed bytes.
#[derive(Clone, Copy, PartialEq, Eq)]
pub struct Edek {
    pub version: VersionName,
    pub iv: Iv,
    pub sealed: Dek,
}

impl Model for Edek {
    ghost use Rattle.hk_base.specs.Names.{Encrypted};

    ghost Value = { Encrypted };

    ghost view = { λ a. record { version = a.version; iv = a.iv; sealed = a.sealed } };

    ghost inverse = { λ e. record { version = e.version; iv = e.iv; sealed = e.sealed } };
}

fn at_sign(bytes: &[u8]) -> Option<usize>
    ensures first { result ≡ position is_at_sign bytes.now }
    ensures none { IfNone result (All (λ b. is_at_sign b ≡ false) bytes.now) }
{
    bytes.iter().position(|byte| *byte == b'@')
}

impl VersionName {
    /// Parses the text form of a version. Returns `None` if the bytes are not the text form of any
    /// version. The number is decimal, without leading zeros, at most 65,535.
    pub fn read(bytes: &[u8]) -> Option<VersionName>
        ensures { MatchOption result
            ((key : List ℕ) (number : ℕ) → IsKeyName key → number < 2 ^ 16 →
            ¬ (bytes.now ≡ version_text key number))
            (λ version. IsKeyName version.key ×
            (bytes.now ≡ version_text version.key version.number)) }
    {
        let at = at_sign(bytes)?;
        let key = KeyName::read(&bytes[..at])?;
        let number = read_number(&bytes[at + 1..])?;
        if number > 65535 {
            return None;
        }
        Some(VersionName {
            key,
            number: number as u16,
        })
    }

    /// Appends the text form. Returns `NoMemory` if allocation fails; `out` is then unchanged.
    pub fn write(&self, out: &mut ByteList) -> Result<(), NoMemory>
        ensures ok { OnOk result (out.new ≡ out.old ++ version_text self.now.key self.now.number) }
        ensures err { OnErr result (out.new ≡ out.old) }
    {
        let len = out.len();
        match self.append_to(out) {
            Ok(()) => Ok(()),
            Err(error) => {
                out.truncate(len);
                Err(error)
            }
        }
    }

    /// Appends the text form. If allocation fails, a prefix of it may have been appended.
    fn append_to(&self, out: &mut ByteList) -> Result<(), NoMemory>
        ensures ok { OnOk result (out.new ≡ out.old ++ version_text self.now.key self.now.number) }
        ensures err { OnErr result (take (length out.old) out.new ≡ out.old) }
    {
        out.append(self.key.as_bytes())?;
        out.append(b"@")?;
        let mut digits = Buffer::new();
        out.append(digits.format(self.number).as_bytes())
    }
}
