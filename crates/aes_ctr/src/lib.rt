//! AES in counter mode (NIST SP 800-38A). The counter is a big-endian number of 16 bytes. It goes up
//! by one from block to block and wraps at 2^128. Encryption and decryption are the same operation.
//! Nothing here allocates.
#![tactic(auto)]

mod pieces;
mod stream;

ghost use Rattle.std.specs.Prelude.{◌≡◌, ◌+◌, ◌^◌, ◌<◌, length};
ghost use Rattle.aes_core.specs.AnyAes.{key_of};
ghost use Rattle.aes_ctr.specs.Ctr.{ctr};

use crate::pieces::{xor_blocks, xor_bytes, xor_eights};
use aes_core::AnyAes;

/// Encrypts or decrypts the bytes in place. It xors them with the key stream that begins at the
/// counter.
pub fn ctr_xor(key: &AnyAes, counter: [u8; 16], bytes: &mut [u8])
    ensures { bytes.new ≡ ctr (key_of key.now) counter 0 bytes.old }
{
    ctr_at(key, counter, 0, bytes);
}

/// Encrypts or decrypts in place a piece of a message that begins at its byte `offset`. It xors the
/// piece with the key stream from byte `offset` on. The end of the piece, `offset` plus its length,
/// must be below 2^64.
pub fn ctr_at(key: &AnyAes, counter: [u8; 16], offset: u64, bytes: &mut [u8])
    requires { offset + length bytes.old < 2 ^ 64 }
    ensures { bytes.new ≡ ctr (key_of key.now) counter offset bytes.old }
{
    let end = bytes.len();
    let border = ((16 - offset % 16) % 16) as usize;
    if end <= border {
        xor_bytes(key, counter, offset, bytes, 0, end);
        return;
    }
    xor_bytes(key, counter, offset, bytes, 0, border);
    let eights_end = xor_eights(key, counter, offset, bytes, border);
    let blocks_end = xor_blocks(key, counter, offset, bytes, eights_end);
    xor_bytes(key, counter, offset, bytes, blocks_end, end);
}
