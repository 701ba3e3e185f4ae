//! Reading a range of a file over a disk.
ghost use Rattle.std.specs.Prelude.{◌≡◌, ◌⊎◌, ◌≤◌, ℕ};
ghost use Rattle.hk_base.specs.Faults.{Rose};
ghost use Rattle.world_run.specs.World.{RunningWorld};
ghost use Rattle.world_desk.specs.Worlds.{IsDeskReady, standing};
ghost use Rattle.hk_runs.specs.Headline.{FromSoundFiles};
ghost use Rattle.file_orders.specs.Bodies.{ReadsRange};
ghost use Rattle.data_stream.specs.Runs.{LeadsAt, standing_of};
ghost use Rattle.data_stream.specs.Files.{ReadKeeps, ReadsBody, ReadsUnder, files};

use crate::ends::close;
use body_stream::Vault;
use command_io::{ended_by, ended_by_props, read_properties, report};
use file_orders::{FsEnd, read_file};
use hk_base::{Clock, Disk, Sink, Source, Text, Words};
use prop_text::Props;
use std::alloc::Global;
use world_events::WorldEvents;
use world_run::World;

/// Reads a range of a file over events. They still hold both services afterwards.
fn read_over<'a, K: Sink, D: Disk, V: Vault, W: Words>(
    alloc: Global,
    events: &mut WorldEvents<'a, D, W>,
    user: &Text,
    path: &Text,
    from: u64,
    count: u64,
    vault: &mut V,
    out: &mut K,
) -> FsEnd
    requires { IsDeskReady D.state (standing_of events.old) }
    ensures reads { ReadsRange (LeadsAt D.state W.to_come events.old.now) user.now path.now from
        count (standing_of events.old) result (standing_of events.new) (V.state vault.old)
        (V.state vault.new) (K.written out.old) (K.written out.new) }
    ensures world { events.new.world.ghost_name ≡ events.old.world.ghost_name }
    ensures disk { events.new.disk.ghost_name ≡ events.old.disk.ghost_name }
    ensures words { events.new.words.ghost_name ≡ events.old.words.ghost_name }
    ensures write { result ≡ FsEnd.WriteFault → Rose (K.faults out.old) (K.faults out.new) }
    ensures vault { result ≡ FsEnd.VaultFault →
        Rose (V.state vault.old).faults (V.state vault.new).faults }
    ensures own { (result ≡ FsEnd.ReadFault → ⊥) × (result ≡ FsEnd.TooLong → ⊥) }
    ensures out_later { K.faults out.old ≤ K.faults out.new }
{
    read_file(alloc, events, user, path, from, count, vault, out)
}

/// Reads a range of a file from a world on that was opened.
fn read_from<K: Sink, D: Disk, V: Vault, W: Words, C: Clock>(
    alloc: Global,
    world: &mut World,
    user: &Text,
    path: &Text,
    from: u64,
    count: u64,
    disk: &mut D,
    vault: &mut V,
    rand: &mut W,
    clock: &mut C,
    out: &mut K,
) -> FsEnd
    requires { IsDeskReady D.state (standing disk.old world.old rand.old) }
    ensures reads { (now : ℕ) ×
        ReadsRange (LeadsAt D.state W.to_come now) user.now path.now from count
        (standing disk.old world.old rand.old) result (standing disk.new world.new rand.new)
        (V.state vault.old) (V.state vault.new) (K.written out.old) (K.written out.new) }
    ensures write { result ≡ FsEnd.WriteFault → Rose (K.faults out.old) (K.faults out.new) }
    ensures vault { result ≡ FsEnd.VaultFault →
        Rose (V.state vault.old).faults (V.state vault.new).faults }
    ensures own { (result ≡ FsEnd.ReadFault → ⊥) × (result ≡ FsEnd.TooLong → ⊥) }
    ensures out_later { K.faults out.old ≤ K.faults out.new }
{
    let mut events = WorldEvents::new(world, disk, rand, clock.now_ms());
    read_over(alloc, &mut events, user, path, from, count, vault, out)
}

/// Reads a range of a file from a world on that was opened, which is closed then.
fn read_in<K: Sink, D: Disk, V: Vault, W: Words, C: Clock>(
    alloc: Global,
    world: World,
    user: &Text,
    path: &Text,
    from: u64,
    count: u64,
    disk: &mut D,
    vault: &mut V,
    rand: &mut W,
    clock: &mut C,
    out: &mut K,
) -> FsEnd
    requires { IsDeskReady D.state (standing disk.old world rand.old) }
    ensures reads { (now : ℕ) × (then : RunningWorld) ×
        ReadsRange (LeadsAt D.state W.to_come now) user.now path.now from count
        (standing disk.old world rand.old) result (standing disk.new then rand.new)
        (V.state vault.old) (V.state vault.new) (K.written out.old) (K.written out.new) }
    ensures write { result ≡ FsEnd.WriteFault → Rose (K.faults out.old) (K.faults out.new) }
    ensures vault { result ≡ FsEnd.VaultFault →
        Rose (V.state vault.old).faults (V.state vault.new).faults }
    ensures own { (result ≡ FsEnd.ReadFault → ⊥) × (result ≡ FsEnd.TooLong → ⊥) }
    ensures out_later { K.faults out.old ≤ K.faults out.new }
{
    let mut world = world;
    let how = read_from(
        alloc, &mut world, user, path, from, count, disk, vault, rand, clock, out,
    );
    world.close();
    how
}

/// Opens both logs and reads a range of a file, with properties that were read.
fn read_under<K: Sink, D: Disk, V: Vault, W: Words, C: Clock>(
    alloc: Global,
    props: &Props,
    user: &Text,
    path: &Text,
    from: u64,
    count: u64,
    out: &mut K,
    disk: &mut D,
    vault: &mut V,
    rand: &mut W,
    clock: &mut C,
) -> u8
    ensures read { ReadsUnder D.Disk K.Sink W.Words V.Vault
        (files disk.old out.old rand.old vault.old clock.old)
        (files disk.new out.new rand.new vault.new clock.new)
        props.now user.now path.now from count result }
    ensures read_fault { result ≡ 7 → ⊥ }
    ensures write_fault { result ≡ 8 → Rose (K.faults out.old) (K.faults out.new) }
    ensures vault_fault { result ≡ 12 → Rose (V.state vault.old).faults (V.state vault.new).faults }
    ensures long { result ≡ 13 → ⊥ }
{
    match World::start(alloc, disk, props) {
        Err(why) => report(alloc, out, ended_by(why.file, why.fault)),
        Ok(world) => {
            let how = read_in(
                alloc, world, user, path, from, count, disk, vault, rand, clock, out,
            );
            close(alloc, out, how)
        }
    }
}

/// Reads the properties, opens both logs and reads a range of a file. Returns the exit status.
pub(crate) fn run_read<A: Source, K: Sink, D: Disk, V: Vault, W: Words, C: Clock>(
    alloc: Global,
    user: &Text,
    path: &Text,
    from: u64,
    count: u64,
    acls: &mut A,
    out: &mut K,
    disk: &mut D,
    vault: &mut V,
    rand: &mut W,
    clock: &mut C,
) -> u8
    ensures read { ReadsBody D.Disk K.Sink W.Words V.Vault
        (files disk.old out.old rand.old vault.old clock.old)
        (files disk.new out.new rand.new vault.new clock.new)
        A.Source acls.old acls.new user.now path.now from count result }
    ensures kept { FromSoundFiles (D.state disk.old)
        (ReadKeeps D.Disk K.Sink W.Words V.Vault
        (files disk.old out.old rand.old vault.old clock.old)
        (files disk.new out.new rand.new vault.new clock.new)
        A.Source acls.old acls.new user.now path.now from count) result }
    ensures read_fault { result ≡ 7 → Rose (A.faults acls.old) (A.faults acls.new) }
    ensures write_fault { result ≡ 8 → Rose (K.faults out.old) (K.faults out.new) }
    ensures vault_fault { result ≡ 12 → Rose (V.state vault.old).faults (V.state vault.new).faults }
    ensures long { result ≡ 13 → ⊥ }
{
    let props = match read_properties(alloc, acls) {
        Err(fault) => return report(alloc, out, ended_by_props(fault)),
        Ok(props) => props,
    };
    let status = read_under(
        alloc, &props, user, path, from, count, out, disk, vault, rand, clock,
    );
    drop(props);
    status
}
