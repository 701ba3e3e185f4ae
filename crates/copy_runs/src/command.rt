//! Copying a zone over the disks of both clusters.
ghost use Rattle.std.specs.Prelude.{◌≡◌, ◌⊎◌, ◌≤◌, Err};
ghost use Rattle.hk_base.specs.Faults.{Rose};
ghost use Rattle.world_run.specs.World.{RunningWorld};
ghost use Rattle.world_desk.specs.Worlds.{IsDeskReady, standing};
ghost use Rattle.raw_copy.specs.Copies.{IsCopyEnd, VaultsFailed};
ghost use Rattle.copy_runs.specs.Commands.{CopiesFromWorld};
ghost use Rattle.copy_runs.specs.Runs.{CopiesZoneUnder, KeepsCopy, RunsCopy, clusters};

use crate::ends::close_copy;
use crate::opened::copy_opened_over;
use body_stream::Vault;
use command_io::{ended_by, ended_by_props, read_properties, report};
use file_orders::FsEnd;
use frame_log::StartFault;
use hk_base::{Clock, Disk, Sink, Source, Text, Words};
use prop_text::{Props, Sizes};
use raw_copy::CopyFault;
use row_copies::Copied;
use std::alloc::Global;
use world_run::World;

/// Copies a zone of a world that was opened. The world is closed then.
fn copy_in<D: Disk, E: Disk, V: Vault, U: Vault, W: Words, C: Clock>(
    alloc: Global,
    from: &Text,
    to: &Text,
    batch: u16,
    world: World,
    disk: &mut D,
    backup: &mut E,
    vault: &mut V,
    copies: &mut U,
    rand: &mut W,
    clock: &mut C,
) -> Result<Copied, CopyFault>
    requires ready { IsDeskReady D.state (standing disk.old world rand.old) }
    requires some { 1 ≤ batch }
    requires most { batch ≤ 1000 }
    ensures copies { (then : RunningWorld) × CopiesFromWorld D.state W.to_come E.state
        (standing disk.old world rand.old) (standing disk.new then rand.new)
        batch from.now to.now result backup.old backup.new
        (V.state vault.old) (V.state vault.new) (U.state copies.old) (U.state copies.new) }
    ensures start { result ≡ Err (CopyFault.Start StartFault.StoreFault) →
        Rose (E.state backup.old).faults (E.state backup.new).faults }
    ensures store { result ≡ Err (CopyFault.End FsEnd.StoreFault) →
        Rose (E.state backup.old).faults (E.state backup.new).faults }
    ensures vault { result ≡ Err (CopyFault.End FsEnd.VaultFault) →
        VaultsFailed (V.state vault.old) (V.state vault.new)
        (U.state copies.old) (U.state copies.new) }
    ensures own { (why : _) → result ≡ Err (CopyFault.End why) → IsCopyEnd why }
{
    let mut world = world;
    let ended = copy_opened_over(
        alloc,
        from,
        to,
        batch,
        &mut world,
        disk,
        rand,
        clock.now_ms(),
        backup,
        vault,
        copies,
    );
    world.close();
    ended
}

/// Returns the number of files in a batch.
fn batch_size(sizes: &Sizes) -> u16
    ensures size { result ≡ sizes.now.batch }
    ensures some { 1 ≤ result }
    ensures most { result ≤ 1000 }
{
    sizes.batch
}

/// Opens the logs of both clusters and copies a zone, with properties that were read.
fn copy_under<D: Disk, E: Disk, V: Vault, U: Vault, K: Sink, W: Words, C: Clock>(
    alloc: Global,
    props: &Props,
    from: &Text,
    to: &Text,
    out: &mut K,
    disk: &mut D,
    backup: &mut E,
    vault: &mut V,
    copies: &mut U,
    rand: &mut W,
    clock: &mut C,
) -> u8
    ensures copy { CopiesZoneUnder D.Disk V.Vault E.Disk U.Vault K.Sink W.Words
        (clusters disk.old vault.old backup.old copies.old out.old rand.old clock.old)
        (clusters disk.new vault.new backup.new copies.new out.new rand.new clock.new)
        props.now from.now to.now result }
    ensures store_fault { result ≡ 5 →
        Rose (D.state disk.old).faults (D.state disk.new).faults ⊎
        Rose (E.state backup.old).faults (E.state backup.new).faults }
    ensures read_fault { result ≡ 7 → ⊥ }
    ensures write_fault { result ≡ 8 → Rose (K.faults out.old) (K.faults out.new) }
    ensures vault_fault { result ≡ 12 →
        VaultsFailed (V.state vault.old) (V.state vault.new)
        (U.state copies.old) (U.state copies.new) }
    ensures long { result ≡ 13 → ⊥ }
{
    match World::start(alloc, disk, props) {
        Err(why) => report(alloc, out, ended_by(why.file, why.fault)),
        Ok(world) => {
            let batch = batch_size(&props.sizes);
            let ended = copy_in(
                alloc, from, to, batch, world, disk, backup, vault, copies, rand, clock,
            );
            close_copy(alloc, out, ended)
        }
    }
}

/// Reads the properties, opens the logs of the first cluster and then that of the second, and copies an
/// encryption zone of the first to a path of the second, where nothing may be. `from` is `/.reserved/raw`
/// and the path of the zone, or of a snapshot of it. The copy has the marks and the encrypted keys of the
/// zone, and the stored bytes of its files. Of the first cluster entries and the metadata of keys are read,
/// as the superuser, and no data encryption key is decrypted.
///
/// Writes the numbers of the files and directories that were copied. Returns the exit status:
///
/// - 0: the zone was copied.
/// - 3: the properties were refused.
/// - 4: a log is damaged; the last line says which, `copies` for that of the second cluster.
/// - 5: a disk failed.
/// - 6: allocation failed.
/// - 7: the properties could not be read.
/// - 8: the output failed.
/// - 10: the last opening of a log is used up.
/// - 11: the copy was refused. What was copied until then stays, each file with its whole body.
/// - 12: a vault failed, or that of the copies had a body for a new file.
pub fn run_copy<A: Source, K: Sink, D: Disk, E: Disk, V: Vault, U: Vault, W: Words, C: Clock>(
    alloc: Global,
    from: &Text,
    to: &Text,
    acls: &mut A,
    out: &mut K,
    disk: &mut D,
    backup: &mut E,
    vault: &mut V,
    copies: &mut U,
    rand: &mut W,
    clock: &mut C,
) -> u8
    ensures copy { RunsCopy D.Disk V.Vault E.Disk U.Vault K.Sink W.Words
        (clusters disk.old vault.old backup.old copies.old out.old rand.old clock.old)
        (clusters disk.new vault.new backup.new copies.new out.new rand.new clock.new)
        A.Source acls.old acls.new from.now to.now result }
    ensures kept { KeepsCopy D.Disk V.Vault E.Disk U.Vault K.Sink W.Words
        (clusters disk.old vault.old backup.old copies.old out.old rand.old clock.old)
        (clusters disk.new vault.new backup.new copies.new out.new rand.new clock.new)
        A.Source acls.old acls.new from.now to.now result }
    ensures store_fault { result ≡ 5 →
        Rose (D.state disk.old).faults (D.state disk.new).faults ⊎
        Rose (E.state backup.old).faults (E.state backup.new).faults }
    ensures read_fault { result ≡ 7 → Rose (A.faults acls.old) (A.faults acls.new) }
    ensures write_fault { result ≡ 8 → Rose (K.faults out.old) (K.faults out.new) }
    // One of the vaults failed, or that of the copies had a body already for a new file.
    ensures vault_fault { result ≡ 12 →
        VaultsFailed (V.state vault.old) (V.state vault.new)
        (U.state copies.old) (U.state copies.new) }
    ensures long { result ≡ 13 → ⊥ }
{
    let props = match read_properties(alloc, acls) {
        Err(fault) => return report(alloc, out, ended_by_props(fault)),
        Ok(props) => props,
    };
    let status = copy_under(
        alloc, &props, from, to, out, disk, backup, vault, copies, rand, clock,
    );
    drop(props);
    status
}
