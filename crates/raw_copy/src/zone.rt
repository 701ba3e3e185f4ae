//! Copying a zone by the texts of its place and of a path.
ghost use Rattle.std.specs.Prelude.{◌≡◌, None, Some, [], true, IfErr, IfOk, OnErr, OnOk};
ghost use Rattle.backup_names.specs.Orders.{HoldsNamesystem, IsSettled, OrdersNames};
ghost use Rattle.inode_tree.specs.Rows.{is_dir_at, row_at};
ghost use Rattle.name_calls.specs.Paths.{read_path};
ghost use Rattle.name_core.specs.Calls.{superuser};
ghost use Rattle.place_texts.specs.Places.{read_raw_place};
ghost use Rattle.row_copies.specs.Clusters.{EndsFor};
ghost use Rattle.world_desk.specs.Worlds.{IsDeskReady, standing};
ghost use Rattle.world_events.specs.Events.{LeadsAt, standing_of};
ghost use Rattle.world_rows.specs.Rows.{IsPlace, place_rows, table_of};
ghost use Rattle.raw_copy.specs.Copies.{AreTexts, CopiesPlace, CopiesZone, EndsByCause, OnlyRead, PlacesAreTrees, StopsPlace, StopsZone, copying};
ghost use Rattle.raw_copy.specs.Refusals.{AreNoTexts, CheckRefused, EndsBy, IsNoZoneRow, NotRead, PlaceRefused, ZoneRefused, end_of_path};

use crate::place::copy_place;
use body_stream::Vault;
use file_orders::FsEnd;
use hk_base::{Disk, Text, Words};
use inode_tree::{Kind, Row};
use name_calls::{NPath, NameRefusal, PathFault, ReadPath};
use name_core::{Name, superuser};
use place_texts::read_raw_place;
use row_copies::Copied;
use source_looks::look_at;
use std::alloc::Global;
use world_events::WorldEvents;
use world_run::World;

/// Returns how a command ends at a path that could not be read.
fn end_of_path(fault: PathFault) -> FsEnd
    ensures { result ≡ end_of_path fault }
{
    match fault {
        PathFault::BadPath => FsEnd::NameRefused(NameRefusal::BadPath),
        PathFault::NoMemory => FsEnd::NoMemory,
    }
}

/// Reads the place to copy.
fn read_from(alloc: Global, from: &Text) -> Result<ReadPath, FsEnd>
    ensures place { IfOk result (λ place. read_raw_place from.now ≡ Some place) }
    ensures ends { IfErr result (NotRead (read_raw_place from.now ≡ None)) }
{
    match read_raw_place(alloc, from.as_str().as_bytes()) {
        Ok(place) => Ok(place),
        Err(fault) => Err(end_of_path(fault)),
    }
}

/// Reads the path of the copy.
fn read_to(alloc: Global, to: &Text) -> Result<NPath, FsEnd>
    ensures path { IfOk result (λ path. read_path to.now ≡ Some path) }
    ensures ends { IfErr result (NotRead (read_path to.now ≡ None)) }
{
    match NPath::read(alloc, to.as_str().as_bytes()) {
        Ok(path) => Ok(path),
        Err(fault) => Err(end_of_path(fault)),
    }
}

/// Reads both.
fn read_texts(alloc: Global, from: &Text, to: &Text) -> Result<(ReadPath, NPath), FsEnd>
    ensures texts { IfOk result (λ read. AreTexts from.now to.now read.0 read.1) }
    ensures ends { IfErr result (NotRead (AreNoTexts from.now to.now)) }
{
    let place = match read_from(alloc, from) {
        Ok(place) => place,
        Err(end) => return Err(end),
    };
    match read_to(alloc, to) {
        Ok(path) => Ok((place, path)),
        Err(end) => {
            drop(place);
            Err(end)
        }
    }
}

/// Returns `NotADirectory` if the row is that of a file, and `NotAZoneRoot` if it is that of a directory
/// without a key.
fn zone_only(row: Row) -> Result<(), FsEnd>
    ensures directory { OnOk result (is_dir_at (Some row) ≡ true) }
    ensures rule { IfErr result (IsNoZoneRow row) }
{
    match row.kind {
        Kind::Dir { key: Some(_) } => Ok(()),
        Kind::Dir { key: None } => Err(FsEnd::NameRefused(NameRefusal::NotAZoneRoot)),
        Kind::File { .. } => Err(FsEnd::NameRefused(NameRefusal::NotADirectory)),
    }
}

/// Checks that a place is an encryption zone, or a snapshot of one in which it is one too.
fn check_seen<'a, D: Disk, W: Words>(
    alloc: Global,
    user: &Text,
    place: &ReadPath,
    events: &mut WorldEvents<'a, D, W>,
) -> Result<(), FsEnd>
    requires ready { IsDeskReady D.state (standing_of events.old) }
    requires user { user.now ≡ superuser }
    requires place { IsPlace place.now }
    ensures directory { OnOk result
        (is_dir_at (row_at (place_rows (table_of events.old.world.now) place.now) []) ≡ true) }
    ensures ends { IfErr result (EndsFor ⊥ ⊥ (CheckRefused
        (LeadsAt D.state W.to_come events.old.now)
        (place_rows (table_of events.old.world.now) place.now)
        (standing_of events.old) (standing_of events.new))) }
    ensures read { OnlyRead D.state W.to_come events.old.now
        (standing_of events.old) (standing_of events.new) }
    ensures world { events.new.world.ghost_name ≡ events.old.world.ghost_name }
    ensures disk { events.new.disk.ghost_name ≡ events.old.disk.ghost_name }
    ensures words { events.new.words.ghost_name ≡ events.old.words.ghost_name }
{
    let root = NPath::root(alloc);
    match look_at(alloc, events, user, place, &root) {
        Ok(row) => zone_only(row),
        Err(end) => Err(end),
    }
}

/// Checks the same in a world that was opened.
fn check_zone<D: Disk, W: Words>(
    alloc: Global,
    user: &Text,
    place: &ReadPath,
    world: &mut World,
    disk: &mut D,
    rand: &mut W,
    now: u64,
) -> Result<(), FsEnd>
    requires ready { IsDeskReady D.state (standing disk.old world.old rand.old) }
    requires user { user.now ≡ superuser }
    requires place { IsPlace place.now }
    ensures directory { OnOk result
        (is_dir_at (row_at (place_rows (table_of world.old) place.now) []) ≡ true) }
    ensures ends { IfErr result (EndsFor ⊥ ⊥ (CheckRefused (LeadsAt D.state W.to_come now)
        (place_rows (table_of world.old) place.now)
        (standing disk.old world.old rand.old) (standing disk.new world.new rand.new))) }
    ensures read { OnlyRead D.state W.to_come now
        (standing disk.old world.old rand.old) (standing disk.new world.new rand.new) }
{
    let mut events = WorldEvents::new(world, disk, rand, now);
    check_seen(alloc, user, place, &mut events)
}

/// Copies a place of a world to a path, if it is an encryption zone.
fn copy_named<D: Disk, E: Disk, V: Vault, U: Vault, W: Words>(
    alloc: Global,
    user: &Text,
    place: &ReadPath,
    path: &NPath,
    world: &mut World,
    disk: &mut D,
    rand: &mut W,
    now: u64,
    names: &mut Name,
    backup: &mut E,
    vault: &mut V,
    copies: &mut U,
) -> Result<Copied, FsEnd>
    requires ready { IsDeskReady D.state (standing disk.old world.old rand.old) }
    requires user { user.now ≡ superuser }
    requires place { IsPlace place.now }
    requires trees { PlacesAreTrees (table_of world.old) }
    requires holds { HoldsNamesystem (E.state backup.old) names.old }
    requires settled { IsSettled names.old }
    ensures all { IfOk result (λ counts. CopiesPlace place.now path.now counts
        (copying (table_of world.old) (V.state vault.old) names.old (U.state copies.old))
        (copying (table_of world.new) (V.state vault.new) names.new (U.state copies.new))) }
    ensures part { OnErr result (StopsPlace place.now path.now
        (copying (table_of world.old) (V.state vault.old) names.old (U.state copies.old))
        (copying (table_of world.new) (V.state vault.new) names.new (U.state copies.new))) }
    ensures ends { IfErr result (EndsByCause (E.state backup.old) (E.state backup.new)
        (V.state vault.old) (V.state vault.new) (U.state copies.old) (U.state copies.new)) }
    ensures refused { EndsBy result (PlaceRefused (LeadsAt D.state W.to_come now) E.state
        place.now path.now
        (copying (table_of world.old) (V.state vault.old) names.old (U.state copies.old))
        (standing disk.old world.old rand.old) (standing disk.new world.new rand.new)
        backup.old backup.new names.new) }
    ensures read { OnlyRead D.state W.to_come now
        (standing disk.old world.old rand.old) (standing disk.new world.new rand.new) }
    ensures orders { OrdersNames (E.state backup.old) (E.state backup.new) names.old names.new }
    ensures settled { OnOk result (IsSettled names.new) }
{
    match check_zone(alloc, user, place, world, disk, rand, now) {
        Ok(()) => copy_place(
            alloc, user, place, path, world, disk, rand, now, names, backup, vault, copies,
        ),
        Err(end) => Err(end),
    }
}

/// Copies an encryption zone of a world into the namesystem of another cluster. `from` is
/// `/.reserved/raw` and the path of the zone, or of a snapshot of it. `to` is the path of the copy, where
/// nothing may be. The copy has the marks and the encrypted keys of the zone, and the stored bytes of its
/// files. The world is only read, as the superuser, and no data encryption key is decrypted.
///
/// The rows of each place of the world must be a tree (`trees`).
///
/// Returns `BadPath` if one of the texts is no such path, and `NotAZoneRoot` if the directory has no key.
/// The first call that is refused or fails ends the copy. What was copied until then stays, each file
/// with its whole body.
pub fn copy_zone<D: Disk, E: Disk, V: Vault, U: Vault, W: Words>(
    alloc: Global,
    from: &Text,
    to: &Text,
    world: &mut World,
    disk: &mut D,
    rand: &mut W,
    now: u64,
    names: &mut Name,
    backup: &mut E,
    vault: &mut V,
    copies: &mut U,
) -> Result<Copied, FsEnd>
    requires ready { IsDeskReady D.state (standing disk.old world.old rand.old) }
    requires trees { PlacesAreTrees (table_of world.old) }
    requires holds { HoldsNamesystem (E.state backup.old) names.old }
    requires settled { IsSettled names.old }
    ensures all { IfOk result (λ counts. CopiesZone from.now to.now counts
        (copying (table_of world.old) (V.state vault.old) names.old (U.state copies.old))
        (copying (table_of world.new) (V.state vault.new) names.new (U.state copies.new))) }
    ensures part { OnErr result (StopsZone from.now to.now
        (copying (table_of world.old) (V.state vault.old) names.old (U.state copies.old))
        (copying (table_of world.new) (V.state vault.new) names.new (U.state copies.new))) }
    ensures ends { IfErr result (EndsByCause (E.state backup.old) (E.state backup.new)
        (V.state vault.old) (V.state vault.new) (U.state copies.old) (U.state copies.new)) }
    ensures refused { EndsBy result (ZoneRefused (LeadsAt D.state W.to_come now) E.state
        from.now to.now
        (copying (table_of world.old) (V.state vault.old) names.old (U.state copies.old))
        (standing disk.old world.old rand.old) (standing disk.new world.new rand.new)
        backup.old backup.new names.new) }
    ensures read { OnlyRead D.state W.to_come now
        (standing disk.old world.old rand.old) (standing disk.new world.new rand.new) }
    ensures orders { OrdersNames (E.state backup.old) (E.state backup.new) names.old names.new }
    ensures settled { OnOk result (IsSettled names.new) }
{
    let (place, path) = match read_texts(alloc, from, to) {
        Ok(texts) => texts,
        Err(end) => return Err(end),
    };
    match superuser(alloc) {
        Ok(user) => copy_named(
            alloc, &user, &place, &path, world, disk, rand, now, names, backup, vault, copies,
        ),
        Err(_) => Err(FsEnd::NoMemory),
    }
}
