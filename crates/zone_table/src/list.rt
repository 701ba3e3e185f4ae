//! The listing of zones.
ghost use Rattle.std.specs.Prelude.{◌≡◌, ◌<◌, ◌++◌, ◌∷◌, length, map, IfOk, IsSome, OnOk};
ghost use Rattle.std.specs.HashMap.{keys};
ghost use Rattle.std.specs.List.{All, flat_map};
ghost use Rattle.inode_tree.specs.Rows.{entry_of, mark_of};
ghost use Rattle.zone_table.specs.Listings.{listed_at, place_of};

use hk_base::{KeyName, NoMemory};
use inode_tree::{Kind, Row, Tree};
use name_calls::{ZoneList, ZonePath};
use std::alloc::Global;
use std::collections::HashMap;

/// Returns the place in path order of the directory with an id, which must exist. Returns
/// `NoMemory` if allocation fails.
fn place_of(tree: &Tree, dir: u64) -> Result<u32, NoMemory>
    requires { IsSome (entry_of tree.now.rows dir) }
    ensures { IfOk result (λ place. place ≡ place_of tree.now.rows dir) }
{
    let path = tree.path_of(dir)?;
    Ok(tree.place(&path))
}

/// Returns the places in path order of the directories of zones, which must exist. Returns
/// `NoMemory` if allocation fails.
pub fn places_of(
    alloc: Global,
    zones: &HashMap<u64, KeyName>,
    tree: &Tree,
) -> Result<Vec<u32>, NoMemory>
    requires { All (λ dir. IsSome (entry_of tree.now.rows dir)) (keys zones.now) }
    ensures { IfOk result (λ places. places.items ≡ map (place_of tree.now.rows) (keys zones.now)) }
{
    let mut places = Vec::with_capacity(alloc, zones.len())?;
    for dir in zones.keys() {
        places.push(place_of(tree, *dir)?)?;
    }
    Ok(places)
}

/// Returns the key that a row is marked with.
fn mark_of(row: &Row) -> Option<KeyName>
    ensures { result ≡ mark_of row.now.kind }
{
    match &row.kind {
        Kind::Dir { key } => *key,
        Kind::File { .. } => None,
    }
}

/// Appends the zone at a place of the tree to the list, if there is one.
fn list_place(list: &mut ZoneList, tree: &Tree, at: u32) -> Result<(), NoMemory>
    requires { at < length tree.now.rows }
    ensures { OnOk result (list.new ≡ list.old ++ listed_at tree.now.rows at) }
{
    match mark_of(&tree.row_at_place(at)) {
        Some(key) => {
            let path = tree.path_from(at, 0)?;
            list.push(ZonePath { path, key })
        }
        None => Ok(()),
    }
}

/// Returns the zones at places of the tree, in the order of the places. Returns `NoMemory` if
/// allocation fails.
pub fn list_places(alloc: Global, tree: &Tree, places: &Vec<u32>) -> Result<ZoneList, NoMemory>
    requires { All (λ at. at < length tree.now.rows) places.now.items }
    ensures { IfOk result (λ list. list ≡ flat_map (listed_at tree.now.rows) places.now.items) }
{
    let mut list = ZoneList::new(alloc);
    for at in places {
        list_place(&mut list, tree, *at)?;
    }
    Ok(list)
}
