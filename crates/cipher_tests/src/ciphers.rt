//! The vectors of FIPS 197 and of NIST SP 800-38A.
use aes_core::AnyAes;
use hk_base::Dek;
use std::process::Abort;

/// A key, a block, and the block encrypted with the key.
struct Vector {
    key: &'static [u8],
    block: u128,
    encrypted: u128,
}

const KEY_128: &[u8] = b"\x2b\x7e\x15\x16\x28\xae\xd2\xa6\xab\xf7\x15\x88\x09\xcf\x4f\x3c";

const KEY_192: &[u8] =
    b"\x8e\x73\xb0\xf7\xda\x0e\x64\x52\xc8\x10\xf3\x2b\x80\x90\x79\xe5\x62\xf8\xea\xd2\x52\x2c\x6b\x7b";

const KEY_256: &[u8] =
    b"\x60\x3d\xeb\x10\x15\xca\x71\xbe\x2b\x73\xae\xf0\x85\x7d\x77\x81\x1f\x35\x2c\x07\x3b\x61\x08\xd7\x2d\x98\x10\xa3\x09\x14\xdf\xf4";

const FIRST_16: &[u8] = b"\x00\x01\x02\x03\x04\x05\x06\x07\x08\x09\x0a\x0b\x0c\x0d\x0e\x0f";

const FIRST_24: &[u8] =
    b"\x00\x01\x02\x03\x04\x05\x06\x07\x08\x09\x0a\x0b\x0c\x0d\x0e\x0f\x10\x11\x12\x13\x14\x15\x16\x17";

const FIRST_32: &[u8] =
    b"\x00\x01\x02\x03\x04\x05\x06\x07\x08\x09\x0a\x0b\x0c\x0d\x0e\x0f\x10\x11\x12\x13\x14\x15\x16\x17\x18\x19\x1a\x1b\x1c\x1d\x1e\x1f";

const VECTORS: &[Vector] = &[
    // FIPS 197, appendix B
    Vector {
        key: KEY_128,
        block: 0x3243f6a8885a308d313198a2e0370734,
        encrypted: 0x3925841d02dc09fbdc118597196a0b32,
    },
    // FIPS 197, appendix C.1 to C.3
    Vector {
        key: FIRST_16,
        block: 0x00112233445566778899aabbccddeeff,
        encrypted: 0x69c4e0d86a7b0430d8cdb78070b4c55a,
    },
    Vector {
        key: FIRST_24,
        block: 0x00112233445566778899aabbccddeeff,
        encrypted: 0xdda97ca4864cdfe06eaf70a0ec0d7191,
    },
    Vector {
        key: FIRST_32,
        block: 0x00112233445566778899aabbccddeeff,
        encrypted: 0x8ea2b7ca516745bfeafc49904b496089,
    },
    // SP 800-38A, appendix F.1.1
    Vector {
        key: KEY_128,
        block: 0x6bc1bee22e409f96e93d7e117393172a,
        encrypted: 0x3ad77bb40d7a3660a89ecaf32466ef97,
    },
    Vector {
        key: KEY_128,
        block: 0xae2d8a571e03ac9c9eb76fac45af8e51,
        encrypted: 0xf5d3d58503b9699de785895a96fdbaaf,
    },
    Vector {
        key: KEY_128,
        block: 0x30c81c46a35ce411e5fbc1191a0a52ef,
        encrypted: 0x43b1cd7f598ece23881b00e3ed030688,
    },
    Vector {
        key: KEY_128,
        block: 0xf69f2445df4f9b17ad2b417be66c3710,
        encrypted: 0x7b0c785e27e8ad3f8223207104725dd4,
    },
    // SP 800-38A, appendix F.1.3
    Vector {
        key: KEY_192,
        block: 0x6bc1bee22e409f96e93d7e117393172a,
        encrypted: 0xbd334f1d6e45f25ff712a214571fa5cc,
    },
    Vector {
        key: KEY_192,
        block: 0xae2d8a571e03ac9c9eb76fac45af8e51,
        encrypted: 0x974104846d0ad3ad7734ecb3ecee4eef,
    },
    Vector {
        key: KEY_192,
        block: 0x30c81c46a35ce411e5fbc1191a0a52ef,
        encrypted: 0xef7afd2270e2e60adce0ba2face6444e,
    },
    Vector {
        key: KEY_192,
        block: 0xf69f2445df4f9b17ad2b417be66c3710,
        encrypted: 0x9a4b41ba738d6c72fb16691603c18e0e,
    },
    // SP 800-38A, appendix F.1.5
    Vector {
        key: KEY_256,
        block: 0x6bc1bee22e409f96e93d7e117393172a,
        encrypted: 0xf3eed1bdb5d2a03c064b5a7e3db181f8,
    },
    Vector {
        key: KEY_256,
        block: 0xae2d8a571e03ac9c9eb76fac45af8e51,
        encrypted: 0x591ccb10d410ed26dc5ba74a31362870,
    },
    Vector {
        key: KEY_256,
        block: 0x30c81c46a35ce411e5fbc1191a0a52ef,
        encrypted: 0xb6ed21b99ca6f4f9f153e7b1beafed1d,
    },
    Vector {
        key: KEY_256,
        block: 0xf69f2445df4f9b17ad2b417be66c3710,
        encrypted: 0x23304b7a39f9f3ff067d8d8f9e24ecc7,
    },
];

fn assert_encrypts(rt: &impl Abort, vector: &Vector) {
    let key = Dek::read(vector.key).expect(rt, "a key has 16, 24 or 32 bytes");
    let encrypted = AnyAes::of(&key).encrypt_block(&vector.block.to_be_bytes());
    assert_eq!(rt; u128::from_be_bytes(encrypted), vector.encrypted);
}

#[test]
fn blocks_of_the_standards(rt: HostRuntime) {
    for vector in VECTORS {
        assert_encrypts(&rt, vector);
    }
}
