//! Tickets for sealing data encryption keys in advance, and the keys sealed with them.
ghost use Rattle.std.specs.Prelude.{◌≡◌, length};
ghost use Rattle.eek_seal.specs.Seal.{seal};
ghost use Rattle.eek_seal.specs.Tickets.{IsSealed};

use crate::seal;
use hk_base::{Dek, Edek, Iv, VersionName};
use std::marker::Model;

/// What is needed to seal data encryption keys for the queue of a key: the current version with its
/// material, and how many keys the queue wants. The opening and the birth show later whether the
/// version is still current.
#[derive(Clone, Copy)]
pub struct Ticket {
    pub opening: u32,
    pub birth: u64,
    pub version: VersionName,
    pub material: Dek,
    pub wanted: u16,
}

/// A data encryption key that was sealed in advance. Some material of the same length seals `dek`
/// to `sealed`.
#[derive(Drop)]
pub struct Sealed {
    pub opening: u32,
    pub birth: u64,
    pub version: VersionName,
    pub iv: Iv,
    pub dek: Dek,
    pub sealed: Dek,
}

impl Model for Sealed {
    ghost use Rattle.eek_seal.specs.Tickets.{IsSealed, SealedKey};

    ghost Value = { SealedKey };

    ghost view = { λ a.
        record {
          opening = a.opening;
          birth = a.birth;
          version = a.version;
          iv = a.iv;
          dek = a.dek;
          sealed = a.sealed;
        } };

    ghost invariant = { λ a. IsSealed a.iv a.dek a.sealed };
}

impl Sealed {
    /// Seals a data encryption key with the material of a ticket. The key must be as long as the
    /// material.
    pub fn make(ticket: &Ticket, iv: Iv, dek: Dek) -> Sealed
        requires { length dek ≡ length ticket.now.material }
        ensures { result ≡
            record {
              opening = ticket.now.opening;
              birth = ticket.now.birth;
              version = ticket.now.version;
              iv = iv;
              dek = dek;
              sealed = seal ticket.now.material iv dek;
            } }
    {
        Sealed {
            opening: ticket.opening,
            birth: ticket.birth,
            version: ticket.version,
            iv,
            dek,
            sealed: seal(&ticket.material, iv, &dek),
        }
    }

    /// Returns the encrypted key.
    pub fn edek(&self) -> Edek
        ensures edek { result ≡
            record { version = self.now.version; iv = self.now.iv; sealed = self.now.sealed } }
        ensures sealed { IsSealed self.now.iv self.now.dek self.now.sealed }
    {
        Edek {
            version: self.version,
            iv: self.iv,
            sealed: self.sealed,
        }
    }
}
