//! Reading a range of a copy over the disks of both clusters.
ghost use Rattle.std.specs.Prelude.{◌≡◌, ◌⊎◌, ◌≤◌, ℕ};
ghost use Rattle.hk_base.specs.Faults.{Rose};
ghost use Rattle.name_core.specs.State.{RunningNames, service_of};
ghost use Rattle.world_run.specs.World.{RunningWorld};
ghost use Rattle.world_desk.specs.Worlds.{IsDeskReady, standing};
ghost use Rattle.world_events.specs.Events.{LeadsAt, standing_of};
ghost use Rattle.hk_runs.specs.Headline.{FromSoundFiles};
ghost use Rattle.backup_names.specs.Orders.{HoldsNamesystem, IsSettled, OrdersNames};
ghost use Rattle.copy_reads.specs.Copies.{CauseOfRead, ReadsCopy};
ghost use Rattle.copy_reads.specs.Runs.{CopiesUnder, ReadsCopies, ReadsCopiesKept, RestFrom, files};

use crate::ends::report_copies;
use crate::orders::read_copy;
use body_stream::Vault;
use command_io::{ended_by, ended_by_props, read_properties, report};
use data_stream::close;
use file_orders::FsEnd;
use hk_base::{Clock, Disk, Sink, Source, Text, Words};
use name_core::Name;
use prop_text::{Props, Sizes};
use std::alloc::Global;
use world_events::WorldEvents;
use world_run::World;

/// Reads a range of a copy over events. They still hold both services afterwards.
fn read_over<'a, D: Disk, E: Disk, W: Words, U: Vault, K: Sink>(
    alloc: Global,
    events: &mut WorldEvents<'a, D, W>,
    name: &mut Name,
    backup: &mut E,
    user: &Text,
    path: &Text,
    from: u64,
    count: u64,
    copies: &mut U,
    out: &mut K,
) -> FsEnd
    requires ready { IsDeskReady D.state (standing_of events.old) }
    requires holds { HoldsNamesystem (E.state backup.old) name.old }
    requires settled { IsSettled name.old }
    ensures reads { ReadsCopy (LeadsAt D.state W.to_come events.old.now)
        name.old.store.table.rows user.now path.now from count (standing_of events.old) result
        (standing_of events.new) (U.state copies.old) (U.state copies.new) (K.written out.old)
        (K.written out.new) }
    ensures cause { CauseOfRead name.old user.now path.now result }
    ensures world { events.new.world.ghost_name ≡ events.old.world.ghost_name }
    ensures disk { events.new.disk.ghost_name ≡ events.old.disk.ghost_name }
    ensures words { events.new.words.ghost_name ≡ events.old.words.ghost_name }
    ensures same { service_of name.new ≡ service_of name.old }
    ensures orders { OrdersNames (E.state backup.old) (E.state backup.new) name.old name.new }
    ensures write { result ≡ FsEnd.WriteFault → Rose (K.faults out.old) (K.faults out.new) }
    ensures vault { result ≡ FsEnd.VaultFault →
        Rose (U.state copies.old).faults (U.state copies.new).faults }
    ensures own { (result ≡ FsEnd.ReadFault → ⊥) × (result ≡ FsEnd.TooLong → ⊥) }
    ensures out_later { K.faults out.old ≤ K.faults out.new }
{
    read_copy(
        alloc, events, name, backup, user, path, from, count, copies, out,
    )
}

/// Reads a range of a copy from a world on that was opened.
fn read_from<D: Disk, E: Disk, W: Words, C: Clock, U: Vault, K: Sink>(
    alloc: Global,
    world: &mut World,
    name: &mut Name,
    user: &Text,
    path: &Text,
    from: u64,
    count: u64,
    disk: &mut D,
    backup: &mut E,
    copies: &mut U,
    rand: &mut W,
    clock: &mut C,
    out: &mut K,
) -> FsEnd
    requires ready { IsDeskReady D.state (standing disk.old world.old rand.old) }
    requires holds { HoldsNamesystem (E.state backup.old) name.old }
    requires settled { IsSettled name.old }
    ensures reads { (now : ℕ) ×
        ReadsCopy (LeadsAt D.state W.to_come now) name.old.store.table.rows user.now path.now from
        count (standing disk.old world.old rand.old) result
        (standing disk.new world.new rand.new) (U.state copies.old) (U.state copies.new)
        (K.written out.old) (K.written out.new) }
    ensures cause { CauseOfRead name.old user.now path.now result }
    ensures same { service_of name.new ≡ service_of name.old }
    ensures orders { OrdersNames (E.state backup.old) (E.state backup.new) name.old name.new }
    ensures write { result ≡ FsEnd.WriteFault → Rose (K.faults out.old) (K.faults out.new) }
    ensures vault { result ≡ FsEnd.VaultFault →
        Rose (U.state copies.old).faults (U.state copies.new).faults }
    ensures own { (result ≡ FsEnd.ReadFault → ⊥) × (result ≡ FsEnd.TooLong → ⊥) }
    ensures out_later { K.faults out.old ≤ K.faults out.new }
{
    let mut events = WorldEvents::new(world, disk, rand, clock.now_ms());
    read_over(
        alloc,
        &mut events,
        name,
        backup,
        user,
        path,
        from,
        count,
        copies,
        out,
    )
}

/// Reads a range of a copy from a world and a second namesystem on that were opened. Both are closed
/// then.
fn read_in<D: Disk, E: Disk, W: Words, C: Clock, U: Vault, K: Sink>(
    alloc: Global,
    world: World,
    name: Name,
    user: &Text,
    path: &Text,
    from: u64,
    count: u64,
    disk: &mut D,
    backup: &mut E,
    copies: &mut U,
    rand: &mut W,
    clock: &mut C,
    out: &mut K,
) -> FsEnd
    requires ready { IsDeskReady D.state (standing disk.old world rand.old) }
    requires holds { HoldsNamesystem (E.state backup.old) name }
    requires settled { IsSettled name }
    ensures reads { (now : ℕ) × (w : RunningWorld) ×
        ReadsCopy (LeadsAt D.state W.to_come now) name.store.table.rows user.now path.now from
        count (standing disk.old world rand.old) result (standing disk.new w rand.new)
        (U.state copies.old) (U.state copies.new) (K.written out.old) (K.written out.new) }
    ensures cause { CauseOfRead name user.now path.now result }
    ensures names { (after : RunningNames) × (service_of after ≡ service_of name) ×
        OrdersNames (E.state backup.old) (E.state backup.new) name after }
    ensures write { result ≡ FsEnd.WriteFault → Rose (K.faults out.old) (K.faults out.new) }
    ensures vault { result ≡ FsEnd.VaultFault →
        Rose (U.state copies.old).faults (U.state copies.new).faults }
    ensures own { (result ≡ FsEnd.ReadFault → ⊥) × (result ≡ FsEnd.TooLong → ⊥) }
    ensures out_later { K.faults out.old ≤ K.faults out.new }
{
    let mut world = world;
    let mut name = name;
    let how = read_from(
        alloc, &mut world, &mut name, user, path, from, count, disk, backup, copies, rand, clock,
        out,
    );
    world.close();
    drop(name);
    how
}

/// Opens the second namesystem and reads a range of a copy, from a world on that was opened.
fn read_opened<D: Disk, E: Disk, W: Words, C: Clock, U: Vault, K: Sink>(
    alloc: Global,
    world: World,
    batch: u16,
    user: &Text,
    path: &Text,
    from: u64,
    count: u64,
    out: &mut K,
    disk: &mut D,
    backup: &mut E,
    copies: &mut U,
    rand: &mut W,
    clock: &mut C,
) -> u8
    requires ready { IsDeskReady D.state (standing disk.old world rand.old) }
    requires some { 1 ≤ batch }
    requires most { batch ≤ 1000 }
    ensures read { RestFrom D.Disk E.Disk K.Sink W.Words U.Vault
        (files disk.old backup.old out.old rand.old copies.old clock.old)
        (files disk.new backup.new out.new rand.new copies.new clock.new)
        world batch user.now path.now from count result }
    ensures read_fault { result ≡ 7 → ⊥ }
    ensures write_fault { result ≡ 8 → Rose (K.faults out.old) (K.faults out.new) }
    ensures vault_fault { result ≡ 12 →
        Rose (U.state copies.old).faults (U.state copies.new).faults }
    ensures long { result ≡ 13 → ⊥ }
{
    match Name::start(alloc, backup, batch) {
        Err(fault) => {
            world.close();
            report_copies(alloc, out, fault)
        }
        Ok(name) => {
            let how = read_in(
                alloc, world, name, user, path, from, count, disk, backup, copies, rand, clock, out,
            );
            close(alloc, out, how)
        }
    }
}

/// Returns the number of files in a batch.
fn batch_size(sizes: &Sizes) -> u16
    ensures size { result ≡ sizes.now.batch }
    ensures some { 1 ≤ result }
    ensures most { result ≤ 1000 }
{
    sizes.batch
}

/// Opens the logs of both clusters and reads a range of a copy, with properties that were read.
fn read_under<D: Disk, E: Disk, W: Words, C: Clock, U: Vault, K: Sink>(
    alloc: Global,
    props: &Props,
    user: &Text,
    path: &Text,
    from: u64,
    count: u64,
    out: &mut K,
    disk: &mut D,
    backup: &mut E,
    copies: &mut U,
    rand: &mut W,
    clock: &mut C,
) -> u8
    ensures read { CopiesUnder D.Disk E.Disk K.Sink W.Words U.Vault
        (files disk.old backup.old out.old rand.old copies.old clock.old)
        (files disk.new backup.new out.new rand.new copies.new clock.new)
        props.now user.now path.now from count result }
    ensures read_fault { result ≡ 7 → ⊥ }
    ensures write_fault { result ≡ 8 → Rose (K.faults out.old) (K.faults out.new) }
    ensures vault_fault { result ≡ 12 →
        Rose (U.state copies.old).faults (U.state copies.new).faults }
    ensures long { result ≡ 13 → ⊥ }
{
    match World::start(alloc, disk, props) {
        Err(why) => report(alloc, out, ended_by(why.file, why.fault)),
        Ok(world) => {
            let batch = batch_size(&props.sizes);
            read_opened(
                alloc, world, batch, user, path, from, count, out, disk, backup, copies, rand,
                clock,
            )
        }
    }
}

/// Reads the properties, opens the logs of the first cluster and then that of the second namesystem, and
/// writes a range of the copy at a path for a user, decrypted if it has an encrypted key. Returns the
/// exit status:
///
/// - 0: the range was written.
/// - 3: the properties were refused.
/// - 4: a log is damaged; the last line says which, `copies` for that of the second namesystem.
/// - 5: a disk failed.
/// - 6: allocation failed.
/// - 7: the properties could not be read.
/// - 8: the output failed.
/// - 10: the last opening of a log is used up.
/// - 11: the read was refused, or the path is that of a directory.
/// - 12: the vault of the copies failed.
pub fn run_read_copy<A: Source, K: Sink, D: Disk, E: Disk, U: Vault, W: Words, C: Clock>(
    alloc: Global,
    user: &Text,
    path: &Text,
    from: u64,
    count: u64,
    acls: &mut A,
    out: &mut K,
    disk: &mut D,
    backup: &mut E,
    copies: &mut U,
    rand: &mut W,
    clock: &mut C,
) -> u8
    ensures read { ReadsCopies D.Disk E.Disk K.Sink W.Words U.Vault
        (files disk.old backup.old out.old rand.old copies.old clock.old)
        (files disk.new backup.new out.new rand.new copies.new clock.new)
        A.Source acls.old acls.new user.now path.now from count result }
    ensures kept { FromSoundFiles (D.state disk.old)
        (ReadsCopiesKept D.Disk E.Disk K.Sink W.Words U.Vault
        (files disk.old backup.old out.old rand.old copies.old clock.old)
        (files disk.new backup.new out.new rand.new copies.new clock.new)
        A.Source acls.old acls.new user.now path.now from count) result }
    ensures store_fault { result ≡ 5 →
        Rose (D.state disk.old).faults (D.state disk.new).faults ⊎
        Rose (E.state backup.old).faults (E.state backup.new).faults }
    ensures read_fault { result ≡ 7 → Rose (A.faults acls.old) (A.faults acls.new) }
    ensures write_fault { result ≡ 8 → Rose (K.faults out.old) (K.faults out.new) }
    ensures vault_fault { result ≡ 12 →
        Rose (U.state copies.old).faults (U.state copies.new).faults }
    ensures long { result ≡ 13 → ⊥ }
{
    let props = match read_properties(alloc, acls) {
        Err(fault) => return report(alloc, out, ended_by_props(fault)),
        Ok(props) => props,
    };
    let status = read_under(
        alloc, &props, user, path, from, count, out, disk, backup, copies, rand, clock,
    );
    drop(props);
    status
}
