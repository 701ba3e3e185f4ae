//! AES for keys of all three lengths.
ghost use Rattle.std.specs.Prelude.{◌≡◌, ◌+◌, ◌<◌, slice_index};
ghost use Rattle.aes_core.specs.Aes.{cipher, eight_ciphers};
ghost use Rattle.aes_core.specs.AnyAes.{key_of};

use crate::block_cipher::Aes;
use hk_base::Dek;

/// AES (FIPS 197) with a key whose length is known only at run time. In contracts `key_of` is its
/// key.
#[derive(Drop)]
pub enum AnyAes {
    /// A key of 16 bytes, 10 rounds.
    A128(Aes<4, 44>),
    /// A key of 24 bytes, 12 rounds.
    A192(Aes<6, 52>),
    /// A key of 32 bytes, 14 rounds.
    A256(Aes<8, 60>),
}

impl AnyAes {
    /// Expands the key, which has 16, 24 or 32 bytes.
    pub fn of(material: &Dek) -> AnyAes
        ensures { key_of result ≡ material.now }
    {
        let key = material.as_bytes();
        if key.len() == 16 {
            return AnyAes::A128(Aes::new(key));
        }
        if key.len() == 24 {
            return AnyAes::A192(Aes::new(key));
        }
        AnyAes::A256(Aes::new(key))
    }

    /// Encrypts a block: the function Cipher of FIPS 197.
    pub fn encrypt_block(&self, block: &[u8; 16]) -> [u8; 16]
        ensures { result ≡ cipher (key_of self.now) block.now }
    {
        match self {
            AnyAes::A128(aes) => aes.encrypt_block(block),
            AnyAes::A192(aes) => aes.encrypt_block(block),
            AnyAes::A256(aes) => aes.encrypt_block(block),
        }
    }

    /// Encrypts eight blocks: this one, and those that differ from it in the last byte, which is
    /// counted up. This is faster than one block at a time.
    pub fn encrypt_eight(&self, block: &[u8; 16], blocks: &mut [[u8; 16]; 8])
        requires { slice_index block.now 15 + 7 < 256 }
        ensures { blocks.new ≡ eight_ciphers (key_of self.now) block.now }
    {
        match self {
            AnyAes::A128(aes) => aes.encrypt_eight(block, blocks),
            AnyAes::A192(aes) => aes.encrypt_eight(block, blocks),
            AnyAes::A256(aes) => aes.encrypt_eight(block, blocks),
        }
    }
}
