//! The words of an expanded key.
ghost use Rattle.std.specs.Prelude.{◌≡◌, ◌/◌, ◌<◌, ◌≤◌};
ghost use Rattle.aes_core.specs.Aes.{key_term, rot_word, sub_word, xor_word};

use crate::substitution::substituted;

type Word = [u8; 4];

/// The powers of x in the field, from x^0 at index 1.
const RCON: [u8; 11] = [
    0x00, 0x01, 0x02, 0x04, 0x08, 0x10, 0x20, 0x40, 0x80, 0x1b, 0x36,
];

/// Adds two words in the field.
pub(crate) fn xor_word(a: Word, b: Word) -> Word
    ensures { result ≡ xor_word a b }
{
    [a[0] ^ b[0], a[1] ^ b[1], a[2] ^ b[2], a[3] ^ b[3]]
}

fn sub_word(a: Word) -> Word
    ensures { result ≡ sub_word a }
{
    [
        substituted(a[0]),
        substituted(a[1]),
        substituted(a[2]),
        substituted(a[3]),
    ]
}

fn rot_word(a: Word) -> Word
    ensures { result ≡ rot_word a }
{
    [a[1], a[2], a[3], a[0]]
}

/// Returns the word that is added to word `i - nk` to get word `i`, for a key of `nk` words. `last`
/// is word `i - 1`.
#[tactic(auto, using(crate::proofs::Tables::rcon_is))]
pub(crate) fn key_term(nk: usize, i: usize, last: Word) -> Word
    requires { (0 < nk) × (nk ≤ i) × (i / nk < 11) }
    ensures { result ≡ key_term nk i last }
{
    if i % nk == 0 {
        return xor_word(sub_word(rot_word(last)), [RCON[i / nk], 0, 0, 0]);
    }
    if nk > 6 && i % nk == 4 {
        return sub_word(last);
    }
    last
}
