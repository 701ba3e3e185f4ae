//! Adding a key with all its versions.
ghost use Rattle.std.specs.Prelude.{◌≡◌, ◌<◌, ◌≤◌, None, Some, true, false, bytes_eq, nat_lt, if◌then◌else◌, length, IfOk, OnErr, OnOk};
ghost use Rattle.std.specs.List.Sorted.{IsPartitionPoint};
ghost use Rattle.key_rows.specs.Names.{AreInNameOrder, birth_in, names_of};
ghost use Rattle.key_index.specs.Adding.{put_by_birth};
ghost use Rattle.key_index.specs.Sound.{AreRising};

use crate::by_name::NamedBirth;
use crate::finding::insert_name;
use crate::rows::{IndexRow, PlacedRow};
use crate::runs::PlaceList;
use hk_base::{KeyName, NoMemory};
use std::alloc::Global;

/// Places all versions of a key.
pub(crate) fn with_places(
    alloc: Global,
    row: IndexRow,
    places: &[u64],
) -> Result<PlacedRow, NoMemory>
    ensures { IfOk result (λ placed. placed ≡ record { row = row; places = places.now }) }
{
    match PlaceList::of(alloc, places) {
        Ok(places) => Ok(PlacedRow { row, places }),
        Err(error) => {
            drop(row);
            Err(error)
        }
    }
}

/// Returns how many keys have a smaller birth.
fn position_for(rows: &Vec<PlacedRow>, birth: u64) -> usize
    requires { AreRising rows.now.items }
    ensures most { result ≤ length rows.now.items }
    ensures parted { IsPartitionPoint (λ placed. nat_lt placed.row.birth birth ≡ true)
        (λ placed. nat_lt placed.row.birth birth ≡ false) rows.now.items result }
{
    rows.as_slice()
        .partition_point(|placed| placed.row.birth < birth)
}

/// Adds a key at its place in order of birth, and its name.
pub(crate) fn add(
    rows: &mut Vec<PlacedRow>,
    names: &mut Vec<NamedBirth>,
    placed: PlacedRow,
) -> Result<(), NoMemory>
    requires rising { AreRising rows.old.items }
    requires order { AreInNameOrder (names_of names.old.items) }
    requires absent { birth_in names.old.items placed.row.name ≡ None }
    ensures rows { OnOk result (rows.new.items ≡ put_by_birth placed rows.old.items) }
    ensures order { AreInNameOrder (names_of names.new.items) }
    ensures ok { OnOk result
        ((other : KeyName) →
        birth_in names.new.items other ≡
        (if bytes_eq placed.row.name other then Some placed.row.birth
        else birth_in names.old.items other)) }
    ensures err { OnErr result
        ((rows.new.items ≡ rows.old.items) × (names.new.items ≡ names.old.items)) }
{
    match insert_name(rows, names, &placed.row) {
        Ok(()) => {
            let at = position_for(rows, placed.row.birth);
            match rows.insert(at, placed) {
                Ok(()) => Ok(()),
                Err(_) => unreachable!(), // there is capacity for it
            }
        }
        Err(error) => {
            drop(placed);
            Err(error)
        }
    }
}
