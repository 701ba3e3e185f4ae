//! Encryption of a message in place, from its start to its end: eight blocks at a time, then single
//! blocks. Bytes of an incomplete block are encrypted one by one.
ghost use Rattle.std.specs.Prelude.{◌≡◌, ◌+◌, ◌-◌, ◌%◌, ◌^◌, ◌<◌, ◌≤◌, bit_xor, length};
ghost use Rattle.std.specs.Simd.Lanes.{chunk, put_chunk, zip2};
ghost use Rattle.aes_core.specs.AnyAes.{key_of};
ghost use Rattle.aes_ctr.specs.Progress.{Advances};

use crate::stream::{eight_stream_blocks, stream_block};
use aes_core::AnyAes;
use std::simd::prelude::*;

/// Xors the 16 bytes from `at` on with a block, by lanes.
#[inline(always)]
fn xor_lanes(bytes: &mut [u8], at: usize, block: [u8; 16])
    requires { at + 16 ≤ length bytes.old }
    ensures { bytes.new ≡ put_chunk at bytes.old (zip2 bit_xor (chunk at 16 bytes.old) block) }
{
    let lanes = u8x16::from_slice(&bytes[at..]) ^ u8x16::from_array(block);
    lanes.copy_to_slice(&mut bytes[at..]);
}

/// Encrypts the block at `at`, which is the start of a block of the stream.
#[inline(always)]
fn xor_block(key: &AnyAes, counter: [u8; 16], offset: u64, bytes: &mut [u8], at: usize)
    requires border { (offset + at) % 16 ≡ 0 }
    requires room { at + 16 ≤ length bytes.old }
    requires end { offset + length bytes.old < 2 ^ 64 }
    ensures length { length bytes.new ≡ length bytes.old }
    ensures done { Advances (key_of key.now) counter offset bytes.old bytes.new at (at + 16) }
{
    let block = stream_block(key, counter, (offset + at as u64) / 16);
    xor_lanes(bytes, at, block);
}

/// Encrypts the eight blocks from `at` on, which is the start of a block of the stream.
#[inline(always)]
fn xor_eight_blocks(key: &AnyAes, counter: [u8; 16], offset: u64, bytes: &mut [u8], at: usize)
    requires border { (offset + at) % 16 ≡ 0 }
    requires room { at + 128 ≤ length bytes.old }
    requires end { offset + length bytes.old < 2 ^ 64 }
    ensures length { length bytes.new ≡ length bytes.old }
    ensures done { Advances (key_of key.now) counter offset bytes.old bytes.new at (at + 128) }
{
    let mut blocks = [[0u8; 16]; 8];
    eight_stream_blocks(key, counter, (offset + at as u64) / 16, &mut blocks);
    xor_lanes(bytes, at, blocks[0]);
    xor_lanes(bytes, at + 16, blocks[1]);
    xor_lanes(bytes, at + 32, blocks[2]);
    xor_lanes(bytes, at + 48, blocks[3]);
    xor_lanes(bytes, at + 64, blocks[4]);
    xor_lanes(bytes, at + 80, blocks[5]);
    xor_lanes(bytes, at + 96, blocks[6]);
    xor_lanes(bytes, at + 112, blocks[7]);
}

/// Encrypts all complete groups of eight blocks from `from` on, and returns their end.
pub(crate) fn xor_eights(
    key: &AnyAes,
    counter: [u8; 16],
    offset: u64,
    bytes: &mut [u8],
    from: usize,
) -> usize
    requires border { (offset + from) % 16 ≡ 0 }
    requires within { from ≤ length bytes.old }
    requires end { offset + length bytes.old < 2 ^ 64 }
    ensures length { length bytes.new ≡ length bytes.old }
    ensures border { (offset + result) % 16 ≡ 0 }
    ensures within { result ≤ length bytes.old }
    ensures done { Advances (key_of key.now) counter offset bytes.old bytes.new from result }
{
    let eights = (bytes.len() - from) / 128;
    for i in 0..eights {
        xor_eight_blocks(key, counter, offset, bytes, from + 128 * i);
    }
    from + 128 * eights
}

/// Encrypts all complete blocks from `from` on, and returns their end.
pub(crate) fn xor_blocks(
    key: &AnyAes,
    counter: [u8; 16],
    offset: u64,
    bytes: &mut [u8],
    from: usize,
) -> usize
    requires border { (offset + from) % 16 ≡ 0 }
    requires within { from ≤ length bytes.old }
    requires end { offset + length bytes.old < 2 ^ 64 }
    ensures length { length bytes.new ≡ length bytes.old }
    ensures border { (offset + result) % 16 ≡ 0 }
    ensures within { (result ≤ length bytes.old) × (length bytes.old < result + 16) }
    ensures done { Advances (key_of key.now) counter offset bytes.old bytes.new from result }
{
    let blocks = (bytes.len() - from) / 16;
    for i in 0..blocks {
        xor_block(key, counter, offset, bytes, from + 16 * i);
    }
    from + 16 * blocks
}

/// Encrypts the bytes from `from` to `to`, which are within one block of the stream.
pub(crate) fn xor_bytes(
    key: &AnyAes,
    counter: [u8; 16],
    offset: u64,
    bytes: &mut [u8],
    from: usize,
    to: usize,
)
    requires within { (from ≤ to) × (to ≤ length bytes.old) }
    requires one_block { (offset + from) % 16 + (to - from) ≤ 16 }
    requires end { offset + length bytes.old < 2 ^ 64 }
    ensures length { length bytes.new ≡ length bytes.old }
    ensures done { Advances (key_of key.now) counter offset bytes.old bytes.new from to }
{
    if from == to {
        return;
    }
    let place = offset + from as u64;
    let block = stream_block(key, counter, place / 16);
    let skipped = (place % 16) as usize;
    for i in from..to {
        bytes[i] ^= block[skipped + (i - from)];
    }
}
