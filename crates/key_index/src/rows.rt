//! Keys in the index.
ghost use Rattle.std.specs.Prelude.{◌≡◌, ◌≤◌, ◌^◌};
ghost use Rattle.key_index.specs.Index.{older_place};
ghost use Rattle.key_index.specs.Sound.{IsPlacedRow};
ghost use Rattle.key_index.specs.Walk.{placed_from};

use crate::runs::PlaceList;
use hk_base::{Dek, KeyName};
use kms_calls::Description;

/// A key in the index. `current` is the material of its newest version, and `versions` the number of its
/// versions, 1 to 65,535. The other fields are those of a `KeyRow`.
#[derive(Drop)]
pub struct IndexRow {
    pub name: KeyName,
    pub birth: u64,
    pub bits: u16,
    pub current: Dek,
    pub versions: u32,
    pub description: Description,
    pub created: u64,
}

/// A key with the places of the materials of all its versions, the current one too.
#[derive(Drop)]
pub(crate) struct PlacedRow {
    pub(crate) row: IndexRow,
    pub(crate) places: PlaceList,
}

impl PlacedRow {
    /// Returns the place of the material of a version, or `None` if the key has no version of this number
    /// or it is the current one.
    pub(crate) fn older_place(&self, number: u16) -> Option<u64>
        ensures { result ≡ older_place number self.now }
    {
        if number as u32 + 1 < self.row.versions {
            return self.places.get(number);
        }
        None
    }

    /// Places all materials one after the other, from an offset on.
    pub(crate) fn place_from(&mut self, first: u64)
        requires row { IsPlacedRow self.old }
        requires first { first ≤ 2 ^ 62 }
        ensures { self.new ≡ placed_from first self.old }
    {
        let step = self.row.bits / 8;
        let count = self.row.versions;
        self.places.set_run(first, step, count);
    }
}
