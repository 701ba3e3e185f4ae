//! Copying a zone over the disk of the other cluster.
ghost use Rattle.std.specs.Prelude.{◌≤◌, ◌≡◌, Err};
ghost use Rattle.hk_base.specs.Faults.{Rose};
ghost use Rattle.backup_names.specs.Orders.{HoldsNamesystem, IsSettled};
ghost use Rattle.world_desk.specs.Worlds.{IsDeskReady, standing};
ghost use Rattle.world_events.specs.Events.{LeadsAt};
ghost use Rattle.world_rows.specs.Rows.{table_of};
ghost use Rattle.raw_copy.specs.Copies.{CopiesFrom, CopiesOver, EndsByCause, IsCopyEnd, OnlyRead, PlacesAreTrees, VaultsFailed, copied_or, copying};
ghost use Rattle.raw_copy.specs.Refusals.{CopyEndsBy, FromRefused, OverRefused};

use crate::zone::copy_zone;
use body_stream::Vault;
use file_orders::FsEnd;
use frame_log::StartFault;
use hk_base::{Disk, Text, Words};
use name_core::Name;
use row_copies::Copied;
use std::alloc::Global;
use world_run::World;

/// Why a copy failed.
#[derive(Clone, Copy)]
pub enum CopyFault {
    /// The edit log of the cluster that gets the copy could not be opened.
    Start(StartFault),
    /// The copy ended so.
    End(FsEnd),
}

/// Returns the counts of a copy, or why it failed.
fn copied_or(ended: Result<Copied, FsEnd>) -> Result<Copied, CopyFault>
    ensures { result ≡ copied_or ended }
{
    match ended {
        Ok(counts) => Ok(counts),
        Err(end) => Err(CopyFault::End(end)),
    }
}

/// Copies a zone into a namesystem, which is dropped then.
fn copy_from<D: Disk, E: Disk, V: Vault, U: Vault, W: Words>(
    alloc: Global,
    from: &Text,
    to: &Text,
    world: &mut World,
    disk: &mut D,
    rand: &mut W,
    now: u64,
    name: Name,
    backup: &mut E,
    vault: &mut V,
    copies: &mut U,
) -> Result<Copied, CopyFault>
    requires ready { IsDeskReady D.state (standing disk.old world.old rand.old) }
    requires trees { PlacesAreTrees (table_of world.old) }
    requires holds { HoldsNamesystem (E.state backup.old) name }
    requires settled { IsSettled name }
    ensures copies { CopiesFrom from.now to.now result (table_of world.old) (table_of world.new)
        (V.state vault.old) (V.state vault.new) (U.state copies.old) (U.state copies.new)
        (E.state backup.old) (E.state backup.new) name }
    ensures begun { (fault : _) → result ≡ Err (CopyFault.Start fault) → ⊥ }
    ensures ends { (why : _) → result ≡ Err (CopyFault.End why) →
        EndsByCause (E.state backup.old) (E.state backup.new) (V.state vault.old)
        (V.state vault.new) (U.state copies.old) (U.state copies.new) why }
    ensures refused { CopyEndsBy result (FromRefused (LeadsAt D.state W.to_come now) E.state
        from.now to.now (copying (table_of world.old) (V.state vault.old) name (U.state copies.old))
        (standing disk.old world.old rand.old) (standing disk.new world.new rand.new)
        backup.old backup.new) }
    ensures read { OnlyRead D.state W.to_come now
        (standing disk.old world.old rand.old) (standing disk.new world.new rand.new) }
{
    let mut name = name;
    let result = copy_zone(
        alloc, from, to, world, disk, rand, now, &mut name, backup, vault, copies,
    );
    drop(name);
    copied_or(result)
}

/// Opens the edit log of another cluster on file 1 of its disk, and copies an encryption zone of a world
/// into its namesystem, as `copy_zone` does. `batch` is the size of batches with which that is opened.
/// The rows of each place of the world must be a tree (`trees`).
pub fn copy_over<D: Disk, E: Disk, V: Vault, U: Vault, W: Words>(
    alloc: Global,
    from: &Text,
    to: &Text,
    batch: u16,
    world: &mut World,
    disk: &mut D,
    rand: &mut W,
    now: u64,
    backup: &mut E,
    vault: &mut V,
    copies: &mut U,
) -> Result<Copied, CopyFault>
    requires some { 1 ≤ batch }
    requires most { batch ≤ 1000 }
    requires ready { IsDeskReady D.state (standing disk.old world.old rand.old) }
    requires trees { PlacesAreTrees (table_of world.old) }
    ensures copies { CopiesOver batch from.now to.now result (table_of world.old)
        (table_of world.new) (V.state vault.old) (V.state vault.new) (U.state copies.old)
        (U.state copies.new) (E.state backup.old) (E.state backup.new) }
    ensures start { result ≡ Err (CopyFault.Start StartFault.StoreFault) →
        Rose (E.state backup.old).faults (E.state backup.new).faults }
    ensures store { result ≡ Err (CopyFault.End FsEnd.StoreFault) →
        Rose (E.state backup.old).faults (E.state backup.new).faults }
    ensures vault { result ≡ Err (CopyFault.End FsEnd.VaultFault) →
        VaultsFailed (V.state vault.old) (V.state vault.new)
        (U.state copies.old) (U.state copies.new) }
    ensures own { (why : _) → result ≡ Err (CopyFault.End why) → IsCopyEnd why }
    ensures refused { CopyEndsBy result (OverRefused (LeadsAt D.state W.to_come now) E.state batch
        from.now to.now (table_of world.old) (V.state vault.old) (U.state copies.old)
        (standing disk.old world.old rand.old) (standing disk.new world.new rand.new)
        backup.old backup.new) }
    ensures read { OnlyRead D.state W.to_come now
        (standing disk.old world.old rand.old) (standing disk.new world.new rand.new) }
{
    match Name::start(alloc, backup, batch) {
        Ok(name) => copy_from(
            alloc, from, to, world, disk, rand, now, name, backup, vault, copies,
        ),
        Err(fault) => Err(CopyFault::Start(fault)),
    }
}
