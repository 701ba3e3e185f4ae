//! Keys with their versions, and the commands that change the table of keys.
ghost use Rattle.std.specs.Prelude.{◌≡◌, ◌∷◌, [], ◌++◌, length, slice_get, OnOk, OnErr, IfOk, IsOk, ◌<◌, ◌≤◌};
ghost use Rattle.std.specs.Vec.{vec_capacity};

use hk_base::{Dek, KeyName, NoMemory};
use kms_calls::Description;
use std::alloc::Global;
use std::marker::Model;

/// The materials of a key, one for each version, from version 0. Contracts see a list.
#[derive(Drop)]
pub struct DekList {
    deks: Vec<Dek>,
}

impl Model for DekList {
    ghost use Rattle.std.specs.Prelude.{ℕ, List};

    ghost Value = { List (List ℕ) };

    ghost view = { λ a. a.deks.items };
}

impl DekList {
    /// Creates a list with the material of version 0.
    pub fn of(alloc: Global, first: Dek) -> Result<DekList, NoMemory>
        ensures { IfOk result (λ deks. deks ≡ first ∷ []) }
    {
        let mut deks = Vec::new(alloc);
        deks.push(first)?;
        Ok(DekList { deks })
    }

    /// Creates a list with the material of version 0 in a given buffer. Returns `Ok` if the buffer
    /// has capacity for it.
    pub(crate) fn in_buffer(buffer: Vec<Dek>, first: Dek) -> Result<DekList, NoMemory>
        requires empty { buffer.items ≡ [] }
        ensures made { IfOk result (λ deks. deks ≡ first ∷ []) }
        ensures room { 0 < vec_capacity buffer → IsOk result }
    {
        let mut deks = buffer;
        deks.push(first)?;
        Ok(DekList { deks })
    }

    /// Appends the material of the next version, in place or, if there is no capacity left, in a
    /// given buffer. Returns `Ok` if the buffer has capacity for all versions.
    pub(crate) fn push_in(&mut self, buffer: Vec<Dek>, dek: Dek) -> Result<(), NoMemory>
        requires empty { buffer.items ≡ [] }
        ensures ok { OnOk result (self.new ≡ self.old ++ dek ∷ []) }
        ensures err { OnErr result (self.new ≡ self.old) }
        ensures room { length self.old < vec_capacity buffer → IsOk result }
    {
        if self.deks.len() < self.deks.capacity() || buffer.capacity() <= self.deks.len() {
            self.deks.push(dek)?;
            return Ok(());
        }
        let mut deks = buffer;
        deks.extend_from_slice(self.deks.as_slice())?;
        deks.push(dek)?;
        self.deks = deks;
        Ok(())
    }

    /// Appends the material of the next version. Returns `NoMemory` if allocation fails; the list
    /// is then unchanged.
    pub fn push(&mut self, dek: Dek) -> Result<(), NoMemory>
        ensures ok { OnOk result (self.new ≡ self.old ++ dek ∷ []) }
        ensures err { OnErr result (self.new ≡ self.old) }
    {
        self.deks.push(dek)?;
        Ok(())
    }

    /// Returns the material of a version, or `None` if the key has no version of this number.
    pub fn get(&self, number: u16) -> Option<Dek>
        ensures { result ≡ slice_get self.now number }
    {
        self.deks.get(number as usize).copied()
    }

    /// Returns the number of versions.
    pub fn len(&self) -> usize
        ensures { result ≡ length self.now }
    {
        self.deks.len()
    }
}

/// A key. No other key has or had the same `birth` (docs/glossary.md). `bits` is the length of its
/// materials in bits, and `created` the moment of its creation.
#[derive(Drop)]
pub struct KeyRow {
    pub name: KeyName,
    pub birth: u64,
    pub bits: u16,
    pub materials: DekList,
    pub description: Description,
    pub created: u64,
}

/// A change of the table of keys.
#[derive(Drop)]
pub enum KeyCommand {
    /// The service was started. `opening` counts its starts from 1 (docs/glossary.md).
    Opened {
        opening: u32,
    },
    /// A key was created with its first version.
    Create {
        birth: u64,
        name: KeyName,
        bits: u16,
        description: Description,
        created: u64,
        material: Dek,
    },
    /// A key got a new version with this number.
    Roll {
        birth: u64,
        number: u16,
        material: Dek,
    },
    /// A key was deleted with all its versions.
    Delete {
        birth: u64,
    },
}
