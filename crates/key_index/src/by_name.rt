//! The names of the keys in byte order, each with its key's birth.
ghost use Rattle.std.specs.Prelude.{◌≡◌, ◌<◌, ◌≤◌, length, filter, not, MatchResult, OnOk, OnErr, IfOk, IsOk, None, Some, bytes_eq, ◌==◌, if◌then◌else◌};
ghost use Rattle.std.specs.List.{HoldsAt};
ghost use Rattle.std.specs.List.Sorted.{IsPartitionPoint};
ghost use Rattle.std.specs.Vec.{vec_capacity, vec_len};
ghost use Rattle.std.specs.declared.cmp.Ordering.TheVariants.{Less, Greater};
ghost use Rattle.key_rows.specs.Names.{AreInNameOrder, birth_in, name_cmp, names_of};

use hk_base::{KeyName, NoMemory};
use kms_calls::NameList;
use std::alloc::Global;
use std::cmp::Ordering;
use std::marker::Model;

/// The name of a key and its birth. Contracts see the entry that `key_rows` defines for the names of a
/// table.
#[derive(Drop)]
pub(crate) struct NamedBirth {
    pub(crate) name: KeyName,
    pub(crate) birth: u64,
}

impl Model for NamedBirth {
    ghost use Rattle.key_rows.specs.declared.by_name.NamedBirth.{NamedBirth as NamedEntry};

    ghost Value = { NamedEntry };

    ghost view = { λ a. record { name = a.name; birth = a.birth } };
}

// The fields of an entry are read behind a reference by these two alone: a caller's proof then knows the
// entry of the contracts.

fn birth_in_entry(entry: &NamedBirth) -> u64
    ensures { result ≡ entry.now.birth }
{
    entry.birth
}

fn name_in_entry(entry: &NamedBirth) -> KeyName
    ensures { result ≡ entry.now.name }
{
    entry.name
}

fn compare(entry: &NamedBirth, name: &KeyName) -> Ordering
    ensures { result ≡ name_cmp entry.now.name name.now }
{
    entry.name.as_bytes().cmp(name.as_bytes())
}

/// Returns the position of a name, or as an error the position to insert it at.
fn search(entries: &Vec<NamedBirth>, name: &KeyName) -> Result<usize, usize>
    requires { AreInNameOrder (names_of entries.now.items) }
    ensures bound { MatchResult result (λ place. place < length entries.now.items)
        (λ place. place ≤ length entries.now.items) }
    ensures place { MatchResult result (HoldsAt (λ entry. entry.name ≡ name.now) entries.now.items)
        (IsPartitionPoint (λ entry. name_cmp entry.name name.now ≡ Less)
        (λ entry. name_cmp entry.name name.now ≡ Greater) entries.now.items) }
{
    entries.binary_search_by(|entry| compare(entry, name))
}

/// Returns the birth of a name.
pub(crate) fn birth_of(entries: &Vec<NamedBirth>, name: &KeyName) -> Option<u64>
    requires { AreInNameOrder (names_of entries.now.items) }
    ensures { result ≡ birth_in entries.now.items name.now }
{
    match search(entries, name) {
        Err(_) => None,
        Ok(place) => Some(birth_in_entry(&entries[place])),
    }
}

/// Inserts a name that is not in the list. Returns `Ok` if there is capacity left.
pub(crate) fn put(entries: &mut Vec<NamedBirth>, name: KeyName, birth: u64) -> Result<(), NoMemory>
    requires order { AreInNameOrder (names_of entries.old.items) }
    requires absent { birth_in entries.old.items name ≡ None }
    ensures order { AreInNameOrder (names_of entries.new.items) }
    ensures ok { OnOk result
        ((other : KeyName) →
        birth_in entries.new.items other ≡
        (if bytes_eq name other then Some birth else birth_in entries.old.items other)) }
    ensures err { OnErr result (entries.new.items ≡ entries.old.items) }
    ensures room { vec_len entries.old < vec_capacity entries.old → IsOk result }
{
    match search(entries, &name) {
        Ok(_) => unreachable!(),
        Err(place) => {
            entries.insert(place, NamedBirth { name, birth })?;
            Ok(())
        }
    }
}

/// Removes the name of a birth.
pub(crate) fn remove_birth(entries: &mut Vec<NamedBirth>, birth: u64)
    ensures { entries.new.items ≡ filter (λ entry. not (entry.birth == birth)) entries.old.items }
{
    entries.retain(|entry| birth_in_entry(entry) != birth);
}

/// Returns the names in order.
pub(crate) fn copy_names(alloc: Global, entries: &Vec<NamedBirth>) -> Result<NameList, NoMemory>
    ensures { IfOk result (λ names. names ≡ names_of entries.now.items) }
{
    let mut names = NameList::with_room(alloc, entries.len())?;
    for entry in entries {
        names.push(name_in_entry(entry))?;
    }
    Ok(names)
}
