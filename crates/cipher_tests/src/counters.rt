//! The vectors of NIST SP 800-38A, the wrap of the counter, and pieces of messages.
ghost use Rattle.std.specs.Prelude.{◌≤◌};

use aes_core::AnyAes;
use aes_ctr::{ctr_at, ctr_xor};
use hk_base::Dek;
use std::process::Abort;

/// The first counter of each example in SP 800-38A.
const COUNTER: u128 = 0xf0f1f2f3f4f5f6f7f8f9fafbfcfdfeff;

/// The four blocks of each example.
const BLOCKS: [u128; 4] = [
    0x6bc1bee22e409f96e93d7e117393172a,
    0xae2d8a571e03ac9c9eb76fac45af8e51,
    0x30c81c46a35ce411e5fbc1191a0a52ef,
    0xf69f2445df4f9b17ad2b417be66c3710,
];

/// A key, and the four blocks encrypted with it.
struct Example {
    key: &'static [u8],
    encrypted: [u128; 4],
}

const EXAMPLES: &[Example] = &[
    // SP 800-38A, appendix F.5.1
    Example {
        key: b"\x2b\x7e\x15\x16\x28\xae\xd2\xa6\xab\xf7\x15\x88\x09\xcf\x4f\x3c",
        encrypted: [
            0x874d6191b620e3261bef6864990db6ce,
            0x9806f66b7970fdff8617187bb9fffdff,
            0x5ae4df3edbd5d35e5b4f09020db03eab,
            0x1e031dda2fbe03d1792170a0f3009cee,
        ],
    },
    // SP 800-38A, appendix F.5.3
    Example {
        key: b"\x8e\x73\xb0\xf7\xda\x0e\x64\x52\xc8\x10\xf3\x2b\x80\x90\x79\xe5\x62\xf8\xea\xd2\x52\x2c\x6b\x7b",
        encrypted: [
            0x1abc932417521ca24f2b0459fe7e6e0b,
            0x090339ec0aa6faefd5ccc2c6f4ce8e94,
            0x1e36b26bd1ebc670d1bd1d665620abf7,
            0x4f78a7f6d29809585a97daec58c6b050,
        ],
    },
    // SP 800-38A, appendix F.5.5
    Example {
        key: b"\x60\x3d\xeb\x10\x15\xca\x71\xbe\x2b\x73\xae\xf0\x85\x7d\x77\x81\x1f\x35\x2c\x07\x3b\x61\x08\xd7\x2d\x98\x10\xa3\x09\x14\xdf\xf4",
        encrypted: [
            0x601ec313775789a5b7a7f504bbf3d228,
            0xf443e3ca4d62b59aca84e990cacaf5c5,
            0x2b0930daa23de94ce87017ba2d84988d,
            0xdfc9c58db67aada613c2dd08457941a6,
        ],
    },
];

fn cipher_of(rt: &impl Abort, key: &[u8]) -> AnyAes {
    let key = Dek::read(key).expect(rt, "a key has 16, 24 or 32 bytes");
    AnyAes::of(&key)
}

fn assert_same(rt: &impl Abort, found: &[u8], wanted: &[u8]) {
    assert_eq!(rt; found, wanted);
}

/// The blocks one after the other.
fn joined(blocks: &[u128; 4]) -> [u8; 64] {
    let mut bytes = [0u8; 64];
    for (place, block) in bytes.chunks_exact_mut(16).zip(blocks.iter()) {
        place.copy_from_slice(&block.to_be_bytes());
    }
    bytes
}

/// Encrypts the four blocks as one message.
fn assert_encrypts(rt: &impl Abort, example: &Example) {
    let key = cipher_of(rt, example.key);
    let mut message = joined(&BLOCKS);
    ctr_xor(&key, COUNTER.to_be_bytes(), &mut message);
    assert_same(
        rt,
        message.as_slice(),
        joined(&example.encrypted).as_slice(),
    );
}

#[test]
fn messages_of_the_standard(rt: HostRuntime) {
    for example in EXAMPLES {
        assert_encrypts(&rt, example);
    }
}

/// The first example, from the middle of its second block to the middle of its third.
#[test]
fn a_piece_of_a_message(rt: HostRuntime) {
    let key = cipher_of(
        &rt,
        b"\x2b\x7e\x15\x16\x28\xae\xd2\xa6\xab\xf7\x15\x88\x09\xcf\x4f\x3c",
    );
    let mut piece = 0x9eb76fac45af8e5130c81c46a35ce411_u128.to_be_bytes();
    ctr_at(&key, COUNTER.to_be_bytes(), 24, &mut piece);
    let wanted = 0x8617187bb9fffdff5ae4df3edbd5d35e_u128.to_be_bytes();
    assert_same(&rt, piece.as_slice(), wanted.as_slice());
}

/// The greatest counter is followed by 0: the last byte is the first one of the cipher of 16 zero bytes
/// with a key of zeros.
#[test]
fn the_counter_wraps(rt: HostRuntime) {
    let key = cipher_of(&rt, &[0; 16]);
    let mut bytes = [0u8; 17];
    ctr_xor(&key, [0xff; 16], &mut bytes);
    assert_same(&rt, &bytes[16..], &[0x66]);
}

/// The length of the message below. It holds each piece of up to 300 bytes that begins at one of its
/// first 41 bytes.
const LONGEST: usize = 340;

/// Returns a message without a pattern of 16 or 128 bytes.
fn message() -> [u8; LONGEST] {
    let mut bytes = [0u8; LONGEST];
    for (i, byte) in bytes.iter_mut().enumerate() {
        *byte = (i % 251) as u8;
    }
    bytes
}

/// Counter mode block by block and byte by byte.
fn xor_byte_wise(key: &AnyAes, counter: u128, bytes: &mut [u8]) {
    for (i, block) in bytes.chunks_mut(16).enumerate() {
        let stream = key.encrypt_block(&counter.wrapping_add(i as u128).to_be_bytes());
        for (byte, other) in block.iter_mut().zip(stream.iter()) {
            *byte ^= *other;
        }
    }
}

/// A piece is encrypted as it is in the message encrypted whole, and the bytes around it stay.
fn assert_piece(
    rt: &impl Abort,
    key: &AnyAes,
    counter: u128,
    whole: &[u8; LONGEST],
    offset: usize,
    length: usize,
)
    requires { (offset ≤ 40) × (length ≤ 300) }
{
    let mut bytes = message();
    let piece = &mut bytes[offset..offset + length];
    ctr_at(key, counter.to_be_bytes(), offset as u64, piece);
    let mut wanted = message();
    wanted[offset..offset + length].copy_from_slice(&whole[offset..offset + length]);
    assert_same(rt, bytes.as_slice(), wanted.as_slice());
}

/// Each piece of up to 300 bytes that begins at one of the first 41 bytes of the message is the same
/// as in the message encrypted whole, which is the same as encrypted byte by byte.
fn assert_pieces(rt: &impl Abort, key: &AnyAes, counter: u128) {
    let mut whole = message();
    ctr_xor(key, counter.to_be_bytes(), &mut whole);
    let mut byte_wise = message();
    xor_byte_wise(key, counter, &mut byte_wise);
    assert_same(rt, whole.as_slice(), byte_wise.as_slice());
    for offset in 0..=40usize {
        for length in 0..=300usize {
            assert_piece(rt, key, counter, &whole, offset, length);
        }
    }
}

/// Keys of each length. The second counter wraps after the first block, and the third one carries
/// through its low eight bytes after the fifth block.
const RUNS: [(&[u8], u128); 3] = [
    (&[0x2b; 16], COUNTER),
    (&[0x8e; 24], u128::MAX),
    (&[0x60; 32], 0xfffffffffffffffb),
];

#[test]
fn pieces_at_each_offset_and_length(rt: HostRuntime) {
    for (key, counter) in RUNS {
        let key = cipher_of(&rt, key);
        assert_pieces(&rt, &key, counter);
    }
}
