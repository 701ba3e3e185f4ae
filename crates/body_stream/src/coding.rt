//! The form in which bytes of a body are stored.
ghost use Rattle.std.specs.Prelude.{◌≡◌, ◌+◌, ◌^◌, ◌<◌, ℕ, List, length};
ghost use Rattle.body_stream.specs.Forms.{coded_form, stored_form};

use crate::keys::BodyKey;
use aes_core::AnyAes;
use aes_ctr::ctr_at;

/// How the bytes of a body are stored: as they are, or encrypted with an expanded key.
#[derive(Drop)]
pub(crate) enum Coding {
    Plain,
    Keyed { aes: AnyAes, counter: [u8; 16] },
}

impl Coding {
    /// Expands the key of a body.
    pub(crate) fn of(key: Option<BodyKey>) -> Coding
        ensures { (offset : ℕ) (bytes : List ℕ) →
            coded_form result offset bytes ≡ stored_form key offset bytes }
    {
        match key {
            None => Coding::Plain,
            Some(key) => Coding::Keyed {
                aes: AnyAes::of(&key.dek),
                counter: key.iv.0,
            },
        }
    }

    /// Encrypts or decrypts in place a piece of a body that begins at its byte `offset`.
    pub(crate) fn apply(&self, offset: u64, bytes: &mut [u8])
        requires { offset + length bytes.old < 2 ^ 64 }
        ensures { bytes.new ≡ coded_form self.now offset bytes.old }
    {
        match self {
            Coding::Plain => {}
            Coding::Keyed { aes, counter } => ctr_at(aes, *counter, offset, bytes),
        }
    }
}
