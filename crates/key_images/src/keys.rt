//! Adding the keys of an image to an index.
ghost use Rattle.std.specs.Prelude.{◌≡◌, ◌+◌, ◌*◌, ◌≤◌, ◌<◌, ◌^◌, [], find, is_some, length, IfOk, IsErrOf, OnOk};
ghost use Rattle.std.specs.List.{AllByRecursion};
ghost use Rattle.hk_base.specs.declared.records.RecordFault.TheVariants as fault;
ghost use Rattle.key_index.specs.declared.rows.PlacedRow.{PlacedRow};
ghost use Rattle.key_index.specs.Index.{is_named};
ghost use Rattle.key_index.specs.Runs.{run_places};
ghost use Rattle.key_images.specs.Adding.{AddsKeys, AddsNoKeys, IsNextKey, IsNoNextKey};

use crate::rows::row_of;
use hk_base::{KeyName, NoMemory, RecordFault};
use key_index::KeyIndex;
use std::alloc::Global;

/// No birth is below this one, which is the first of opening 1.
const FIRST_BIRTH: u64 = 1 << 32;

/// Returns `count` places from the first on, each `step` above the one before.
fn places_of(alloc: Global, first: u64, step: u16, count: u32) -> Result<Vec<u64>, NoMemory>
    requires { first ≤ 2 ^ 63 }
    ensures { IfOk result (λ places. places.items ≡ run_places first step count) }
{
    let mut places = Vec::with_capacity(alloc, count as usize)?;
    for number in 0..count {
        places.push(first + step as u64 * number as u64)?;
    }
    Ok(places)
}

fn has_name(index: &KeyIndex, name: &KeyName) -> bool
    ensures { result ≡ is_some (find (is_named name.now) index.now.index.rows) }
{
    match index.find(name) {
        None => false,
        Some(_) => true,
    }
}

/// Adds the next key, whose birth must be above `low` and at most `greatest`. The bytes end at the offset
/// `end` of the file. Returns the birth and the bytes after the key. Returns `NoRecord` if they do not
/// begin with a key that may be the next.
fn add_next<'a>(
    alloc: Global,
    index: &mut KeyIndex,
    low: u64,
    greatest: u64,
    end: u64,
    bytes: &'a [u8],
) -> Result<(u64, &'a [u8]), RecordFault>
    requires low { 2 ^ 32 ≤ low + 1 }
    requires births { AllByRecursion (λ (placed : PlacedRow). placed.row.birth ≤ low)
        index.old.index.rows }
    requires few { length index.old.index.rows < 10000 }
    requires greatest { index.old.index.greatest ≡ greatest }
    requires end { end ≤ 2 ^ 62 }
    requires place { length bytes.now ≤ end }
    ensures next { IfOk result
        (λ x. IsNextKey bytes.now end low index.old.index index.new.index x.0 x.1.now) }
    ensures none { IsErrOf result fault.NoRecord → IsNoNextKey bytes.now low index.old.index }
{
    let (row, materials, rest) = match row_of(alloc, bytes) {
        Err(fault) => return Err(fault),
        Ok(read) => read,
    };
    if row.birth <= low {
        return Err(RecordFault::NoRecord);
    }
    if row.birth > greatest {
        return Err(RecordFault::NoRecord);
    }
    if has_name(index, &row.name) {
        return Err(RecordFault::NoRecord);
    }
    let birth = row.birth;
    let first = end - (materials.len() + rest.len()) as u64;
    let places = places_of(alloc, first, row.bits / 8, row.versions)?;
    index.add_row(row, places.as_slice())?;
    Ok((birth, rest))
}

/// Adds `count` keys to an index without keys, whose greatest birth is `greatest`. They are the bytes,
/// which end at the offset `end` of the file. Returns `NoRecord` if the bytes are not that many keys.
pub(crate) fn add_keys(
    alloc: Global,
    index: &mut KeyIndex,
    greatest: u64,
    count: u32,
    end: u64,
    bytes: &[u8],
) -> Result<(), RecordFault>
    requires empty { index.old.index.rows ≡ [] }
    requires few { count ≤ 10000 }
    requires greatest { index.old.index.greatest ≡ greatest }
    requires end { end ≤ 2 ^ 62 }
    requires place { length bytes.now ≤ end }
    ensures added { OnOk result
        (AddsKeys bytes.now end count index.old.index index.new.index) }
    ensures none { IsErrOf result fault.NoRecord → AddsNoKeys bytes.now count index.old.index }
{
    let mut low = FIRST_BIRTH - 1;
    let mut rest = bytes;
    for _ in 0..count {
        let (birth, behind) = match add_next(alloc, index, low, greatest, end, rest) {
            Err(fault) => return Err(fault),
            Ok(next) => next,
        };
        low = birth;
        rest = behind;
    }
    if rest.is_empty() {
        return Ok(());
    }
    Err(RecordFault::NoRecord)
}
