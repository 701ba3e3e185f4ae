//! The examples of counter mode in NIST SP 800-38A, appendix F.5, as keys that are sealed. Their
//! first counter is this vector with all bits flipped.
ghost use Rattle.std.specs.Prelude.{◌≡◌, length, IsTrue};

use eek_seal::{seal, unseal};
use hk_base::{Dek, Iv};
use std::process::Abort;

const IV: Iv = Iv(*b"\x0f\x0e\x0d\x0c\x0b\x0a\x09\x08\x07\x06\x05\x04\x03\x02\x01\x00");

/// The first two blocks that the standard encrypts.
const BLOCKS: [u8; 32] =
    *b"\x6b\xc1\xbe\xe2\x2e\x40\x9f\x96\xe9\x3d\x7e\x11\x73\x93\x17\x2a\xae\x2d\x8a\x57\x1e\x03\xac\x9c\x9e\xb7\x6f\xac\x45\xaf\x8e\x51";

/// Key material, and the first bytes of the blocks sealed with it.
struct Example {
    material: &'static [u8],
    sealed: &'static [u8],
}

const EXAMPLES: &[Example] = &[
    Example {
        material: b"\x2b\x7e\x15\x16\x28\xae\xd2\xa6\xab\xf7\x15\x88\x09\xcf\x4f\x3c",
        sealed: b"\x87\x4d\x61\x91\xb6\x20\xe3\x26\x1b\xef\x68\x64\x99\x0d\xb6\xce",
    },
    Example {
        material: b"\x8e\x73\xb0\xf7\xda\x0e\x64\x52\xc8\x10\xf3\x2b\x80\x90\x79\xe5\x62\xf8\xea\xd2\x52\x2c\x6b\x7b",
        sealed: b"\x1a\xbc\x93\x24\x17\x52\x1c\xa2\x4f\x2b\x04\x59\xfe\x7e\x6e\x0b\x09\x03\x39\xec\x0a\xa6\xfa\xef",
    },
    Example {
        material: b"\x60\x3d\xeb\x10\x15\xca\x71\xbe\x2b\x73\xae\xf0\x85\x7d\x77\x81\x1f\x35\x2c\x07\x3b\x61\x08\xd7\x2d\x98\x10\xa3\x09\x14\xdf\xf4",
        sealed: b"\x60\x1e\xc3\x13\x77\x57\x89\xa5\xb7\xa7\xf5\x04\xbb\xf3\xd2\x28\xf4\x43\xe3\xca\x4d\x62\xb5\x9a\xca\x84\xe9\x90\xca\xca\xf5\xc5",
    },
];

fn key_of(rt: &impl Abort, bytes: &[u8]) -> Dek {
    Dek::read(bytes).expect(rt, "a key has 16, 24 or 32 bytes")
}

fn assert_same(rt: &impl Abort, found: &Dek, wanted: &Dek) {
    assert_eq!(rt; found.as_bytes(), wanted.as_bytes());
}

/// The three keys have the same length.
fn have_one_length(material: &Dek, dek: &Dek, sealed: &Dek) -> bool
    ensures { IsTrue result →
        (length material.now ≡ length dek.now) × (length material.now ≡ length sealed.now) }
{
    let length = material.as_bytes().len();
    let same_dek = length == dek.as_bytes().len();
    let same_sealed = length == sealed.as_bytes().len();
    same_dek && same_sealed
}

fn assert_seals(rt: &impl Abort, material: &Dek, dek: &Dek, sealed: &Dek) {
    if !have_one_length(material, dek, sealed) {
        panic!(rt; "keys of one length");
    }
    assert_same(rt, &seal(material, IV, dek), sealed);
    assert_same(rt, &unseal(material, IV, sealed), dek);
}

#[test]
fn keys_of_each_length(rt: HostRuntime) {
    for example in EXAMPLES {
        let material = key_of(&rt, example.material);
        let dek = key_of(&rt, &BLOCKS[..example.material.len().min(32)]);
        let sealed = key_of(&rt, example.sealed);
        assert_seals(&rt, &material, &dek, &sealed);
    }
}
