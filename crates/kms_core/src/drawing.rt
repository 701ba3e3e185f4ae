//! Drawing keys from random words. docs/glossary.md says what a draw is.
ghost use Rattle.std.specs.Prelude.{◌≡◌, ◌*◌, ◌/◌, ◌≤◌, ◌⊎◌, ℕ, false, length, take, IsTrue, MatchResult};
ghost use Rattle.key_rows.specs.Table.{is_length};
ghost use Rattle.kms_core.specs.Draws.{drawn, drawn_edek, drawn_iv, material_for, sealed_with, words_for, words_of_draw};
ghost use Rattle.kms_core.specs.Calls.{is_misfit};
ghost use Rattle.kms_core.specs.Steps.{Drew, DrewKeys, DrewSome};

use eek_seal::{Sealed, Ticket, seal};
use hk_base::{ByteList, Dek, Edek, Iv, NoMemory, VersionName, Words};
use kms_calls::EdekList;

/// The current version of a key, with its material, and the birth of the key.
#[derive(Clone, Copy)]
pub struct CurrentVersion {
    pub birth: u64,
    pub version: VersionName,
    pub material: Dek,
}

/// Draws `count` words, at most 8, and returns their bytes with zeros after them.
fn draw<W: Words>(words: &mut W, count: u64) -> [u8; 32]
    requires { count ≤ 8 }
    ensures bytes { take (4 * count) result ≡ drawn (W.to_come words.old) 0 count }
    ensures rest { Drew (W.to_come words.old) (W.to_come words.new) count }
{
    let mut bytes = [0u8; 32];
    for i in 0..count {
        let word = words.word().to_le_bytes();
        let at = 4 * i as usize;
        bytes[at..at + 4].copy_from_slice(&word);
    }
    bytes
}

/// Draws a key of `count` words: 4, 6 or 8.
fn draw_key<W: Words>(words: &mut W, count: u64) -> Dek
    requires { (count ≡ 4) ⊎ (count ≡ 6) ⊎ (count ≡ 8) }
    ensures key { result ≡ drawn (W.to_come words.old) 0 count }
    ensures rest { Drew (W.to_come words.old) (W.to_come words.new) count }
    ensures length { length result ≡ 4 * count }
{
    let bytes = draw(words, count);
    let len = 4 * count as usize;
    Dek::of(&bytes[..len])
}

/// Draws an initialization vector of four words.
#[tactic(auto, unfolding(crate::specs::Draws::drawn_iv))]
fn draw_iv<W: Words>(words: &mut W) -> Iv
    ensures iv { result ≡ drawn_iv (W.to_come words.old) 0 }
    ensures rest { Drew (W.to_come words.old) (W.to_come words.new) 4 }
{
    let bytes = draw(words, 4);
    let mut iv = [0u8; 16];
    iv.copy_from_slice(&bytes[..16]);
    Iv(iv)
}

/// Returns the given material, or draws material of `bits` bits.
pub fn material_for<W: Words>(words: &mut W, bits: u64, given: Option<ByteList>) -> Dek
    requires known { IsTrue (is_length bits) }
    requires fits { is_misfit bits given ≡ false }
    ensures key { result ≡ material_for (W.to_come words.old) bits given }
    ensures rest { Drew (W.to_come words.old) (W.to_come words.new) (words_for bits given) }
    ensures length { length result ≡ bits / 8 }
{
    match given {
        None => draw_key(words, bits / 32),
        Some(material) => Dek::of(material.as_slice()),
    }
}

/// Draws an initialization vector and then a data encryption key, and encrypts the key under the
/// current version.
fn draw_edek<W: Words>(words: &mut W, current: &CurrentVersion) -> Edek
    ensures key { result ≡
        drawn_edek current.now.version current.now.material (W.to_come words.old) 0 }
    ensures rest { Drew (W.to_come words.old) (W.to_come words.new)
        (words_of_draw (length current.now.material)) }
{
    let iv = draw_iv(words);
    let len = current.material.as_bytes().len() as u64;
    let dek = draw_key(words, len / 4);
    Edek {
        version: current.version,
        iv,
        sealed: seal(&current.material, iv, &dek),
    }
}

/// Draws an initialization vector and then a data encryption key, and seals the key with a ticket.
pub fn draw_sealed<W: Words>(words: &mut W, ticket: &Ticket) -> Sealed
    ensures key { result ≡ sealed_with ticket.now (W.to_come words.old) }
    ensures rest { Drew (W.to_come words.old) (W.to_come words.new)
        (words_of_draw (length ticket.now.material)) }
{
    let iv = draw_iv(words);
    let len = ticket.material.as_bytes().len() as u64;
    let dek = draw_key(words, len / 4);
    Sealed::make(ticket, iv, dek)
}

/// Draws `count` data encryption keys, one after another, and adds them to others.
pub fn draw_edeks<W: Words>(
    words: &mut W,
    current: &CurrentVersion,
    count: u32,
    others: EdekList,
) -> Result<EdekList, NoMemory>
    ensures { MatchResult result
        (λ keys. DrewKeys current.now (W.to_come words.old) (W.to_come words.new) count others keys)
        (λ _. DrewSome current.now (W.to_come words.old) (W.to_come words.new) count) }
{
    let mut keys = others;
    for _ in 0..count {
        let key = draw_edek(words, current);
        keys.push(key)?;
    }
    Ok(keys)
}
