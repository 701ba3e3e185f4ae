//! Sealing of data encryption keys with the material of a key version, as the Hadoop KMS does it:
//! AES in counter mode whose first counter is the initialization vector with all bits flipped.
//! Nothing here allocates.
#![tactic(auto)]

ghost use Rattle.std.specs.Prelude.{◌≡◌, ℕ, List, length};
ghost use Rattle.aes_ctr.specs.Ctr.{ctr};
ghost use Rattle.eek_seal.specs.Seal.{flipped, seal, unseal};

mod deposit;
mod tickets;

use aes_core::AnyAes;
use aes_ctr::ctr_xor;
pub use deposit::Deposit;
use hk_base::{Dek, Iv};
pub use tickets::{Sealed, Ticket};

fn flipped(iv: Iv) -> [u8; 16]
    ensures { result ≡ flipped iv }
{
    iv.0.map(|byte| !byte)
}

/// Encrypts or decrypts a key in counter mode. The first counter is the flipped initialization
/// vector.
fn in_counter_mode(material: &Dek, iv: Iv, key: &Dek) -> Dek
    ensures { result ≡ ctr material.now (flipped iv) 0 key.now }
{
    let cipher = AnyAes::of(material);
    let bytes = key.as_bytes();
    let mut all = [0u8; 32];
    let (front, _) = all.split_at_mut(bytes.len());
    front.copy_from_slice(bytes);
    ctr_xor(&cipher, flipped(iv), front);
    Dek::of(front)
}

/// Seals a data encryption key with the material of a key version. The two must have the same
/// length, which is also the length of the result.
#[tactic(auto, unfolding(crate::specs::Seal::seal))]
pub fn seal(material: &Dek, iv: Iv, dek: &Dek) -> Dek
    requires { length material.now ≡ length dek.now }
    ensures { result ≡ seal material.now iv dek.now }
{
    in_counter_mode(material, iv, dek)
}

/// Opens a sealed key with the material of the key version that sealed it. The two must have the
/// same length. This undoes `seal` with the same material and initialization vector. Other bytes
/// open to some key: there is no way to recognize them.
#[tactic(auto, unfolding(crate::specs::Seal::unseal))]
pub fn unseal(material: &Dek, iv: Iv, sealed: &Dek) -> Dek
    requires { length material.now ≡ length sealed.now }
    ensures opened { result ≡ unseal material.now iv sealed.now }
    ensures undoes { (dek : List ℕ) → sealed.now ≡ seal material.now iv dek → result ≡ dek }
{
    in_counter_mode(material, iv, sealed)
}
