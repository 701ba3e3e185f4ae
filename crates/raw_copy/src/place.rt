//! Copying a place of a world.
ghost use Rattle.std.specs.Prelude.{◌≡◌, Some, [], true, count_by, IfErr, IfOk, OnErr, OnOk};
ghost use Rattle.backup_names.specs.Orders.{HoldsNamesystem, IsSettled, OrdersNames};
ghost use Rattle.inode_tree.specs.Rows.{is_marked, row_at};
ghost use Rattle.name_core.specs.Calls.{superuser};
ghost use Rattle.row_copies.specs.Clusters.{IsTreeOfRows};
ghost use Rattle.row_copies.specs.Copies.{CopiesAll, StopsEarly, is_file};
ghost use Rattle.row_copies.specs.Walks.{is_directory};
ghost use Rattle.world_desk.specs.Worlds.{IsDeskReady, standing};
ghost use Rattle.world_events.specs.Events.{LeadsAt, standing_of};
ghost use Rattle.world_rows.specs.Rows.{CanRead, IsPlace, place_rows, rows_seen, table_of};
ghost use Rattle.raw_copy.specs.Copies.{EndsByCause, OnlyRead, copy_state, copying};
ghost use Rattle.raw_copy.specs.Refusals.{EndsBy, RefusedFor, RowsRefused, SeenRefused};

use crate::into::copy_into;
use body_stream::Vault;
use file_orders::FsEnd;
use hk_base::{Disk, Text, Words};
use name_calls::{NPath, ReadPath};
use name_core::Name;
use row_copies::Copied;
use std::alloc::Global;
use world_events::WorldEvents;
use world_rows::WorldRows;
use world_run::World;

/// Copies the rows of a place. They still hold both services of the world, which were only read.
fn copy_seen<'a, D: Disk, W: Words, E: Disk, V: Vault, U: Vault>(
    alloc: Global,
    user: &Text,
    source: &mut WorldRows<'a, D, W>,
    names: &mut Name,
    backup: &mut E,
    vault: &mut V,
    copies: &mut U,
    to: &NPath,
) -> Result<Copied, FsEnd>
    requires ready { CanRead D.state source.old }
    requires holds { HoldsNamesystem (E.state backup.old) names.old }
    requires settled { IsSettled names.old }
    ensures all { OnOk result (CopiesAll to.now
        (copy_state (rows_seen source.old) (V.state vault.old) names.old (U.state copies.old))
        (copy_state (rows_seen source.new) (V.state vault.new) names.new (U.state copies.new))) }
    ensures files { IfOk result
        (λ copied. copied.files ≡ count_by is_file (rows_seen source.old)) }
    ensures directories { IfOk result
        (λ copied. copied.directories ≡ count_by is_directory (rows_seen source.old)) }
    ensures zone { OnOk result
        ((row : _) × (row_at (rows_seen source.old) [] ≡ Some row) × (is_marked row ≡ true)) }
    ensures part { OnErr result (StopsEarly to.now
        (copy_state (rows_seen source.old) (V.state vault.old) names.old (U.state copies.old))
        (copy_state (rows_seen source.new) (V.state vault.new) names.new (U.state copies.new))) }
    ensures ends { IfErr result (EndsByCause (E.state backup.old) (E.state backup.new)
        (V.state vault.old) (V.state vault.new) (U.state copies.old) (U.state copies.new)) }
    ensures refused { IfErr result (RefusedFor (SeenRefused D.state W.to_come E.state user.now to.now
        (copy_state (rows_seen source.old) (V.state vault.old) names.old (U.state copies.old))
        source.old source.new backup.old backup.new names.old names.new)) }
    ensures read { OnlyRead D.state W.to_come source.old.events.now
        (standing_of source.old.events) (standing_of source.new.events) }
    ensures place { source.new.place.now ≡ source.old.place.now }
    ensures orders { OrdersNames (E.state backup.old) (E.state backup.new) names.old names.new }
    ensures settled { OnOk result (IsSettled names.new) }
    ensures world { source.new.events.world.ghost_name ≡ source.old.events.world.ghost_name }
    ensures disk { source.new.events.disk.ghost_name ≡ source.old.events.disk.ghost_name }
    ensures words { source.new.events.words.ghost_name ≡ source.old.events.words.ghost_name }
{
    copy_into(alloc, user, source, names, backup, vault, copies, to)
}

/// Copies a place of a world, a directory or a snapshot of one, to a path of the namesystem of another
/// cluster at which nothing is. The rows come with their marks and their encrypted keys, and each file
/// with its stored bytes. The world is only read, at one time, and no data encryption key is decrypted.
///
/// The directory must be an encryption zone, and the rows of the place a tree. After an error the copy
/// has the first rows of the place, in path order, each file with its whole body.
pub fn copy_place<D: Disk, E: Disk, V: Vault, U: Vault, W: Words>(
    alloc: Global,
    user: &Text,
    place: &ReadPath,
    to: &NPath,
    world: &mut World,
    disk: &mut D,
    rand: &mut W,
    now: u64,
    names: &mut Name,
    backup: &mut E,
    vault: &mut V,
    copies: &mut U,
) -> Result<Copied, FsEnd>
    requires world { IsDeskReady D.state (standing disk.old world.old rand.old) }
    requires user { user.now ≡ superuser }
    requires place { IsPlace place.now }
    requires tree { IsTreeOfRows (place_rows (table_of world.old) place.now) }
    requires holds { HoldsNamesystem (E.state backup.old) names.old }
    requires settled { IsSettled names.old }
    ensures all { OnOk result (CopiesAll to.now
        (copy_state (place_rows (table_of world.old) place.now) (V.state vault.old) names.old
        (U.state copies.old))
        (copy_state (place_rows (table_of world.new) place.now) (V.state vault.new) names.new
        (U.state copies.new))) }
    ensures files { IfOk result (λ copied. copied.files ≡
        count_by is_file (place_rows (table_of world.old) place.now)) }
    ensures directories { IfOk result (λ copied. copied.directories ≡
        count_by is_directory (place_rows (table_of world.old) place.now)) }
    ensures zone { OnOk result
        ((row : _) × (row_at (place_rows (table_of world.old) place.now) [] ≡ Some row) ×
        (is_marked row ≡ true)) }
    ensures part { OnErr result (StopsEarly to.now
        (copy_state (place_rows (table_of world.old) place.now) (V.state vault.old) names.old
        (U.state copies.old))
        (copy_state (place_rows (table_of world.new) place.now) (V.state vault.new) names.new
        (U.state copies.new))) }
    ensures ends { IfErr result (EndsByCause (E.state backup.old) (E.state backup.new)
        (V.state vault.old) (V.state vault.new) (U.state copies.old) (U.state copies.new)) }
    ensures refused { EndsBy result (RowsRefused (LeadsAt D.state W.to_come now) E.state
        place.now to.now
        (copying (table_of world.old) (V.state vault.old) names.old (U.state copies.old))
        (standing disk.old world.old rand.old) (standing disk.new world.new rand.new)
        backup.old backup.new names.new) }
    ensures read { OnlyRead D.state W.to_come now
        (standing disk.old world.old rand.old) (standing disk.new world.new rand.new) }
    ensures orders { OrdersNames (E.state backup.old) (E.state backup.new) names.old names.new }
    ensures settled { OnOk result (IsSettled names.new) }
{
    let events = WorldEvents::new(world, disk, rand, now);
    let mut source = WorldRows::new(alloc, user, place, events);
    copy_seen(alloc, user, &mut source, names, backup, vault, copies, to)
}
