//! The example of NIST SP 800-38A, appendix F.5.1, as a file.
ghost use Rattle.std.specs.Prelude.{◌≡◌, []};
ghost use Rattle.body_kinds.specs.MemVaults.{body_of};

use body_kinds::MemVault;
use body_stream::{BodyFault, BodyKey, put_body, read_body};
use disk_kinds::{MemSink, MemSource};
use hk_base::{Dek, Iv};
use std::process::Abort;

/// The key of the example.
const KEY: &[u8] = b"\x2b\x7e\x15\x16\x28\xae\xd2\xa6\xab\xf7\x15\x88\x09\xcf\x4f\x3c";

/// Its first counter.
const COUNTER: u128 = 0xf0f1f2f3f4f5f6f7f8f9fafbfcfdfeff;

/// Its message: four blocks.
const BLOCKS: [u128; 4] = [
    0x6bc1bee22e409f96e93d7e117393172a,
    0xae2d8a571e03ac9c9eb76fac45af8e51,
    0x30c81c46a35ce411e5fbc1191a0a52ef,
    0xf69f2445df4f9b17ad2b417be66c3710,
];

/// The message encrypted.
const ENCRYPTED: [u128; 4] = [
    0x874d6191b620e3261bef6864990db6ce,
    0x9806f66b7970fdff8617187bb9fffdff,
    0x5ae4df3edbd5d35e5b4f09020db03eab,
    0x1e031dda2fbe03d1792170a0f3009cee,
];

/// The blocks one after the other.
fn joined(blocks: &[u128; 4]) -> [u8; 64] {
    let mut bytes = [0u8; 64];
    for (place, block) in bytes.chunks_exact_mut(16).zip(blocks.iter()) {
        place.copy_from_slice(&block.to_be_bytes());
    }
    bytes
}

/// The bytes of the file.
pub fn file() -> [u8; 64] {
    joined(&BLOCKS)
}

/// The bytes of its body under the key.
pub fn body() -> [u8; 64] {
    joined(&ENCRYPTED)
}

/// The key and the counter.
pub fn key(rt: &impl Abort) -> Option<BodyKey> {
    let dek = Dek::read(KEY).expect(rt, "a key of 16 bytes");
    Some(BodyKey {
        dek,
        iv: Iv(COUNTER.to_be_bytes()),
    })
}

/// A vault that fails at some calls.
pub fn new_vault(rt: &(impl Abort + AllocGlobal), failing: &[u64]) -> MemVault
    ensures { body_of result 7 ≡ [] }
{
    let failing = failing.to_vec(rt.alloc()).expect(rt, "memory");
    MemVault::new(rt.alloc(), failing)
}

/// A source of bytes that gives 24 at a time and fails at some reads.
pub fn source_of(rt: &(impl Abort + AllocGlobal), bytes: &[u8], failing: &[u64]) -> MemSource {
    let bytes = bytes.to_vec(rt.alloc()).expect(rt, "memory");
    let failing = failing.to_vec(rt.alloc()).expect(rt, "memory");
    MemSource::new(bytes, 24, failing)
}

/// A sink that takes 5 bytes at a time and fails at some writes.
pub fn new_sink(rt: &(impl Abort + AllocGlobal), failing: &[u64]) -> MemSink {
    let failing = failing.to_vec(rt.alloc()).expect(rt, "memory");
    MemSink::new(rt.alloc(), 5, failing)
}

/// Puts bytes as body 7, in pieces of 24 bytes.
pub fn put(
    rt: &(impl Abort + AllocGlobal),
    vault: &mut MemVault,
    bytes: &[u8],
    key: Option<BodyKey>,
    failing: &[u64],
) -> Result<u64, BodyFault>
    requires { body_of vault.old 7 ≡ [] }
{
    let mut source = source_of(rt, bytes, failing);
    let outcome = put_body(&mut source, vault, 7, key);
    drop(source);
    outcome
}

/// Puts the file of the example as body 7.
pub fn put_file(rt: &(impl Abort + AllocGlobal), vault: &mut MemVault)
    requires { body_of vault.old 7 ≡ [] }
{
    let outcome = put(rt, vault, file().as_slice(), key(rt), &[]);
    assert_eq!(rt; outcome, Ok(64));
}

/// Compares what a transfer wrote with a range of the file.
pub fn check_written(rt: &impl Abort, sink: &MemSink, from: usize, to: usize) {
    assert_eq!(rt; Some(sink.as_slice()), file().get(from..to));
}

/// Compares body 7 with the first bytes of the example's.
pub fn check_stored(rt: &impl Abort, vault: &MemVault, count: usize) {
    assert_eq!(rt; Some(vault.bytes(7)), body().get(..count));
}

/// Reads a range of body 7.
pub fn read(
    rt: &impl Abort,
    vault: &mut MemVault,
    sink: &mut MemSink,
    from: u64,
    count: u64,
) -> Result<u64, BodyFault> {
    read_body(vault, sink, 7, key(rt), from, count)
}
