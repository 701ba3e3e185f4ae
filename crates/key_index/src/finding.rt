//! Finding and changing the rows of the index.
ghost use Rattle.std.specs.Prelude.{◌≡◌, ◌<◌, ◌≤◌, ◌^◌, [], ◌∷◌, ◌++◌, All, None, Some, bytes_eq, false, filter, find, if◌then◌else◌, length, map, not, set, IfNone, IfOk, IfSome, IsOk, OnErr, OnOk};
ghost use Rattle.std.specs.List.{AllByRecursion, HoldsAt};
ghost use Rattle.std.specs.Option.{option_copied};
ghost use Rattle.std.specs.Vec.{vec_capacity, vec_len};
ghost use Rattle.key_rows.specs.Names.{AreInNameOrder, birth_in, names_of};
ghost use Rattle.key_index.specs.Index.{is_born, is_named, rolled_at};
ghost use Rattle.key_index.specs.Sound.{AreNamed, AreRising, IsPlacedRow};
ghost use Rattle.key_index.specs.Walk.{placed_from};

use crate::by_name::{NamedBirth, birth_of, put};
use crate::rows::{IndexRow, PlacedRow};
use crate::runs::{PlaceList, PlaceRun};
use hk_base::{Dek, KeyName, NoMemory};

/// Returns the position of the key with this birth.
fn position_of(rows: &Vec<PlacedRow>, birth: u64) -> Option<usize>
    requires { AreRising rows.now.items }
    ensures place { IfSome result
        (λ place. (place < length rows.now.items) ×
        HoldsAt (λ placed. placed.row.birth ≡ birth) rows.now.items place) }
    ensures none { IfNone result (All (λ placed. is_born birth placed ≡ false) rows.now.items) }
{
    match rows.binary_search_by_key(&birth, |placed| placed.row.birth) {
        Err(_) => None,
        Ok(place) => Some(place),
    }
}

/// Returns the key with this birth.
pub(crate) fn row_at(rows: &Vec<PlacedRow>, birth: u64) -> Option<&PlacedRow>
    requires { AreRising rows.now.items }
    ensures { option_copied result ≡ find (is_born birth) rows.now.items }
{
    match position_of(rows, birth) {
        None => None,
        Some(place) => Some(&rows[place]),
    }
}

/// Returns the key with this name.
pub(crate) fn row_of<'a>(
    rows: &'a Vec<PlacedRow>,
    names: &Vec<NamedBirth>,
    name: &KeyName,
) -> Option<&'a PlacedRow>
    requires rising { AreRising rows.now.items }
    requires names { AreNamed rows.now.items names.now.items }
    ensures { option_copied result ≡ find (is_named name.now) rows.now.items }
{
    match birth_of(names, name) {
        None => None,
        Some(birth) => row_at(rows, birth),
    }
}

/// Places the first version of a key in a given buffer. Returns `Ok` if the buffer has capacity for it.
pub(crate) fn with_place(
    row: IndexRow,
    buffer: Vec<PlaceRun>,
    place: u64,
) -> Result<PlacedRow, NoMemory>
    requires empty { buffer.items ≡ [] }
    ensures made { IfOk result (λ placed. placed ≡ record { row = row; places = place ∷ [] }) }
    ensures room { 0 < vec_capacity buffer → IsOk result }
{
    match PlaceList::in_buffer(buffer, place) {
        Ok(places) => Ok(PlacedRow { row, places }),
        Err(error) => {
            drop(row);
            Err(error)
        }
    }
}

/// Makes room for one more key, and inserts its name. Returns `Ok` if there is capacity for both.
pub(crate) fn insert_name(
    rows: &mut Vec<PlacedRow>,
    names: &mut Vec<NamedBirth>,
    row: &IndexRow,
) -> Result<(), NoMemory>
    requires order { AreInNameOrder (names_of names.old.items) }
    requires absent { birth_in names.old.items row.now.name ≡ None }
    ensures rows { rows.new.items ≡ rows.old.items }
    ensures free { OnOk result (vec_len rows.new < vec_capacity rows.new) }
    ensures order { AreInNameOrder (names_of names.new.items) }
    ensures ok { OnOk result
        ((other : KeyName) →
        birth_in names.new.items other ≡
        (if bytes_eq row.now.name other then Some row.now.birth
        else birth_in names.old.items other)) }
    ensures err { OnErr result (names.new.items ≡ names.old.items) }
    ensures room { vec_len rows.old < vec_capacity rows.old →
        vec_len names.old < vec_capacity names.old → IsOk result }
{
    rows.reserve(1)?;
    put(names, row.name, row.birth)
}

/// Adds a key, whose birth is the greatest, and its name. Returns `Ok` if there is capacity for both.
pub(crate) fn insert(
    rows: &mut Vec<PlacedRow>,
    names: &mut Vec<NamedBirth>,
    placed: PlacedRow,
) -> Result<(), NoMemory>
    requires order { AreInNameOrder (names_of names.old.items) }
    requires absent { birth_in names.old.items placed.row.name ≡ None }
    ensures rows { OnOk result (rows.new.items ≡ rows.old.items ++ placed ∷ []) }
    ensures order { AreInNameOrder (names_of names.new.items) }
    ensures ok { OnOk result
        ((other : KeyName) →
        birth_in names.new.items other ≡
        (if bytes_eq placed.row.name other then Some placed.row.birth
        else birth_in names.old.items other)) }
    ensures err { OnErr result
        ((rows.new.items ≡ rows.old.items) × (names.new.items ≡ names.old.items)) }
    ensures room { vec_len rows.old < vec_capacity rows.old →
        vec_len names.old < vec_capacity names.old → IsOk result }
{
    match insert_name(rows, names, &placed.row) {
        Ok(()) => {
            rows.push_reserved(placed);
            Ok(())
        }
        Err(error) => {
            drop(placed);
            Err(error)
        }
    }
}

/// Removes the key with this birth.
pub(crate) fn remove(rows: &mut Vec<PlacedRow>, birth: u64)
    ensures { rows.new.items ≡ filter (λ placed. not (is_born birth placed)) rows.old.items }
{
    rows.retain(|placed| placed.row.birth != birth);
}

/// Adds the next version of the key with this birth: its material, which becomes the current one, and
/// its place, if needed in a given buffer. Returns `Ok` if the buffer has capacity for all its places.
pub(crate) fn roll(
    rows: &mut Vec<PlacedRow>,
    buffer: Vec<PlaceRun>,
    birth: u64,
    material: Dek,
    place: u64,
) -> Result<(), NoMemory>
    requires rising { AreRising rows.old.items }
    requires rows { AllByRecursion IsPlacedRow rows.old.items }
    requires empty { buffer.items ≡ [] }
    ensures room { IfSome (find (is_born birth) rows.old.items)
        (λ placed. length placed.places < vec_capacity buffer) → IsOk result }
    ensures ok { OnOk result
        (rows.new.items ≡ map (rolled_at birth material place) rows.old.items) }
    ensures err { OnErr result (rows.new.items ≡ rows.old.items) }
{
    match position_of(rows, birth) {
        None => Ok(()),
        Some(at) => {
            let placed = &mut rows[at];
            placed.places.push_in(buffer, place)?;
            placed.row.current = material;
            placed.row.versions += 1;
            Ok(())
        }
    }
}

/// Places the materials of the key at a position one after the other, from an offset on.
pub(crate) fn place_at(rows: &mut Vec<PlacedRow>, at: usize, first: u64)
    requires within { at < length rows.old.items }
    requires rows { AllByRecursion IsPlacedRow rows.old.items }
    requires first { first ≤ 2 ^ 62 }
    ensures { HoldsAt (λ placed. rows.new.items ≡ set rows.old.items at (placed_from first placed))
        rows.old.items at }
{
    rows[at].place_from(first);
}
