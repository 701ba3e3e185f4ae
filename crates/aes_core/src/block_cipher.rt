//! AES for keys of one length.
ghost use Rattle.std.specs.Prelude.{◌≡◌, ◌+◌, ◌*◌, ◌<◌, List, ℕ, length, slice_index};
ghost use Rattle.aes_core.specs.Aes.{cipher, eight_ciphers, expanded_key, IsKeySize, key_bytes};

use crate::key_schedule::{key_term, xor_word};
use crate::rounds::{eight_encrypted, encrypted};
use std::marker::Model;

/// AES (FIPS 197) with a key of `NK` words, expanded to `W` words: `Aes<4, 44>` is AES-128,
/// `Aes<6, 52>` is AES-192 and `Aes<8, 60>` is AES-256. In contracts its value is the key, a list
/// of `4 * NK` bytes.
#[derive(Drop)]
pub struct Aes<const NK: usize, const W: usize> {
    words: [[u8; 4]; W],
}

impl<const NK: usize, const W: usize> Model for Aes<NK, W> {
    ghost Value = { List ℕ };

    ghost view = { λ aes. key_bytes NK aes.words };

    ghost invariant = { λ aes. IsKeySize NK W ×
        (aes.words ≡ expanded_key NK (key_bytes NK aes.words) (3 * NK + 28)) };
}

impl<const NK: usize, const W: usize> Aes<NK, W> {
    /// Expands the key, which has `4 * NK` bytes.
    pub fn new(key: &[u8]) -> Self
        requires size { IsKeySize NK W }
        requires length { length key.now ≡ 4 * NK }
        ensures { result ≡ key.now }
    {
        let mut words = [[0u8; 4]; W];
        'first: for i in 0..NK {
            words[i] = [key[4 * i], key[4 * i + 1], key[4 * i + 2], key[4 * i + 3]];
        }
        'more: for i in NK..W {
            let term = key_term(NK, i, words[i - 1]);
            words[i] = xor_word(words[i - NK], term);
        }
        Aes { words }
    }

    /// Encrypts a block: the function Cipher of FIPS 197, in 10, 12 or 14 rounds by the key's length.
    pub fn encrypt_block(&self, block: &[u8; 16]) -> [u8; 16]
        ensures { result ≡ cipher self.now block.now }
    {
        encrypted::<NK, W>(&self.words, block)
    }

    /// Encrypts eight blocks: this one, and those that differ from it in the last byte, which is
    /// counted up. This is faster than one block at a time.
    pub fn encrypt_eight(&self, block: &[u8; 16], blocks: &mut [[u8; 16]; 8])
        requires { slice_index block.now 15 + 7 < 256 }
        ensures { blocks.new ≡ eight_ciphers self.now block.now }
    {
        eight_encrypted::<NK, W>(&self.words, block, blocks);
    }
}
