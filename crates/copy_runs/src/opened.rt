//! Copying a zone of a world that was opened.
ghost use Rattle.std.specs.Prelude.{◌≡◌, ◌≤◌, Err};
ghost use Rattle.hk_base.specs.Faults.{Rose};
ghost use Rattle.world_desk.specs.Worlds.{IsDeskReady, standing};
ghost use Rattle.world_events.specs.Events.{LeadsAt};
ghost use Rattle.world_rows.specs.Rows.{table_of};
ghost use Rattle.raw_copy.specs.Copies.{CopiesOver, IsCopyEnd, OnlyRead, VaultsFailed};
ghost use Rattle.raw_copy.specs.Refusals.{CopyEndsBy, OverRefused};

use body_stream::Vault;
use file_orders::FsEnd;
use frame_log::StartFault;
use hk_base::{Disk, Text, Words};
use place_trees::recall_trees;
use raw_copy::{CopyFault, copy_over};
use row_copies::Copied;
use std::alloc::Global;
use world_run::World;

/// Opens the edit log of another cluster on file 1 of its disk, and copies an encryption zone of a world
/// into its namesystem, as `copy_over` does. The rows of each place of the world are a tree, so nothing is
/// required of them.
pub fn copy_opened_over<D: Disk, E: Disk, V: Vault, U: Vault, W: Words>(
    alloc: Global,
    from: &Text,
    to: &Text,
    batch: u16,
    world: &mut World,
    disk: &mut D,
    rand: &mut W,
    now: u64,
    backup: &mut E,
    vault: &mut V,
    copies: &mut U,
) -> Result<Copied, CopyFault>
    requires some { 1 ≤ batch }
    requires most { batch ≤ 1000 }
    requires ready { IsDeskReady D.state (standing disk.old world.old rand.old) }
    ensures copies { CopiesOver batch from.now to.now result (table_of world.old)
        (table_of world.new) (V.state vault.old) (V.state vault.new) (U.state copies.old)
        (U.state copies.new) (E.state backup.old) (E.state backup.new) }
    ensures start { result ≡ Err (CopyFault.Start StartFault.StoreFault) →
        Rose (E.state backup.old).faults (E.state backup.new).faults }
    ensures store { result ≡ Err (CopyFault.End FsEnd.StoreFault) →
        Rose (E.state backup.old).faults (E.state backup.new).faults }
    ensures vault { result ≡ Err (CopyFault.End FsEnd.VaultFault) →
        VaultsFailed (V.state vault.old) (V.state vault.new)
        (U.state copies.old) (U.state copies.new) }
    ensures own { (why : _) → result ≡ Err (CopyFault.End why) → IsCopyEnd why }
    ensures refused { CopyEndsBy result (OverRefused (LeadsAt D.state W.to_come now) E.state batch
        from.now to.now (table_of world.old) (V.state vault.old) (U.state copies.old)
        (standing disk.old world.old rand.old) (standing disk.new world.new rand.new)
        backup.old backup.new) }
    ensures read { OnlyRead D.state W.to_come now
        (standing disk.old world.old rand.old) (standing disk.new world.new rand.new) }
{
    recall_trees(world);
    copy_over(
        alloc, from, to, batch, world, disk, rand, now, backup, vault, copies,
    )
}
