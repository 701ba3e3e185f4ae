//! Putting a file over a disk.
ghost use Rattle.std.specs.Prelude.{◌≡◌, ◌⊎◌, ◌<◌, ℕ, List, Some, length};
ghost use Rattle.body_stream.specs.Transfers.{longest_body};
ghost use Rattle.body_stream.specs.Vaults.{TellsBodies};
ghost use Rattle.hk_base.specs.Faults.{Rose};
ghost use Rattle.world_run.specs.World.{RunningWorld};
ghost use Rattle.world_desk.specs.Worlds.{IsDeskReady, standing};
ghost use Rattle.hk_runs.specs.Headline.{FromSoundFiles};
ghost use Rattle.file_orders.specs.Bodies.{HadBody, Puts};
ghost use Rattle.data_stream.specs.Runs.{LeadsAt, standing_of};
ghost use Rattle.data_stream.specs.Files.{PutKeeps, PutsBody, PutsUnder, files};

use crate::ends::close;
use body_stream::Vault;
use command_io::{ended_by, ended_by_props, read_properties, report};
use file_orders::{FsEnd, put_file};
use hk_base::{Clock, Disk, Sink, Source, Text, Words};
use prop_text::Props;
use std::alloc::Global;
use world_events::WorldEvents;
use world_run::World;

/// Puts a file over events. They still hold both services afterwards.
fn put_over<'a, S: Source, D: Disk, V: Vault, W: Words>(
    alloc: Global,
    events: &mut WorldEvents<'a, D, W>,
    user: &Text,
    path: &Text,
    input: &mut S,
    vault: &mut V,
) -> FsEnd
    requires { IsDeskReady D.state (standing_of events.old) }
    ensures puts { Puts (LeadsAt D.state W.to_come events.old.now) user.now path.now
        (standing_of events.old) result (standing_of events.new) (S.left input.old)
        (S.left input.new) (V.state vault.old) (V.state vault.new) }
    ensures world { events.new.world.ghost_name ≡ events.old.world.ghost_name }
    ensures disk { events.new.disk.ghost_name ≡ events.old.disk.ghost_name }
    ensures words { events.new.words.ghost_name ≡ events.old.words.ghost_name }
    ensures read { result ≡ FsEnd.ReadFault → Rose (S.faults input.old) (S.faults input.new) }
    ensures vault { result ≡ FsEnd.VaultFault →
        Rose (V.state vault.old).faults (V.state vault.new).faults ⊎
        (TellsBodies (V.state vault.old) → HadBody (V.state vault.old)) }
    ensures long { result ≡ FsEnd.TooLong → (all : List ℕ) → S.left input.old ≡ Some all →
        longest_body < length all }
    ensures own { result ≡ FsEnd.WriteFault → ⊥ }
{
    put_file(alloc, events, user, path, input, vault)
}

/// Puts a file from a world on that was opened.
fn put_from<S: Source, D: Disk, V: Vault, W: Words, C: Clock>(
    alloc: Global,
    world: &mut World,
    user: &Text,
    path: &Text,
    input: &mut S,
    disk: &mut D,
    vault: &mut V,
    rand: &mut W,
    clock: &mut C,
) -> FsEnd
    requires { IsDeskReady D.state (standing disk.old world.old rand.old) }
    ensures puts { (now : ℕ) ×
        Puts (LeadsAt D.state W.to_come now) user.now path.now
        (standing disk.old world.old rand.old) result (standing disk.new world.new rand.new)
        (S.left input.old) (S.left input.new) (V.state vault.old) (V.state vault.new) }
    ensures read { result ≡ FsEnd.ReadFault → Rose (S.faults input.old) (S.faults input.new) }
    ensures vault { result ≡ FsEnd.VaultFault →
        Rose (V.state vault.old).faults (V.state vault.new).faults ⊎
        (TellsBodies (V.state vault.old) → HadBody (V.state vault.old)) }
    ensures long { result ≡ FsEnd.TooLong → (all : List ℕ) → S.left input.old ≡ Some all →
        longest_body < length all }
    ensures own { result ≡ FsEnd.WriteFault → ⊥ }
{
    let mut events = WorldEvents::new(world, disk, rand, clock.now_ms());
    put_over(alloc, &mut events, user, path, input, vault)
}

/// Puts a file from a world on that was opened, which is closed then.
fn put_in<S: Source, D: Disk, V: Vault, W: Words, C: Clock>(
    alloc: Global,
    world: World,
    user: &Text,
    path: &Text,
    input: &mut S,
    disk: &mut D,
    vault: &mut V,
    rand: &mut W,
    clock: &mut C,
) -> FsEnd
    requires { IsDeskReady D.state (standing disk.old world rand.old) }
    ensures puts { (now : ℕ) × (then : RunningWorld) ×
        Puts (LeadsAt D.state W.to_come now) user.now path.now (standing disk.old world rand.old)
        result (standing disk.new then rand.new) (S.left input.old) (S.left input.new)
        (V.state vault.old) (V.state vault.new) }
    ensures read { result ≡ FsEnd.ReadFault → Rose (S.faults input.old) (S.faults input.new) }
    ensures vault { result ≡ FsEnd.VaultFault →
        Rose (V.state vault.old).faults (V.state vault.new).faults ⊎
        (TellsBodies (V.state vault.old) → HadBody (V.state vault.old)) }
    ensures long { result ≡ FsEnd.TooLong → (all : List ℕ) → S.left input.old ≡ Some all →
        longest_body < length all }
    ensures own { result ≡ FsEnd.WriteFault → ⊥ }
{
    let mut world = world;
    let how = put_from(
        alloc, &mut world, user, path, input, disk, vault, rand, clock,
    );
    world.close();
    how
}

/// Opens both logs and puts a file, with properties that were read.
fn put_under<S: Source, K: Sink, D: Disk, V: Vault, W: Words, C: Clock>(
    alloc: Global,
    props: &Props,
    user: &Text,
    path: &Text,
    input: &mut S,
    out: &mut K,
    disk: &mut D,
    vault: &mut V,
    rand: &mut W,
    clock: &mut C,
) -> u8
    ensures put { PutsUnder D.Disk K.Sink W.Words V.Vault
        (files disk.old out.old rand.old vault.old clock.old)
        (files disk.new out.new rand.new vault.new clock.new)
        S.Source input.old input.new props.now user.now path.now result }
    ensures read_fault { result ≡ 7 → Rose (S.faults input.old) (S.faults input.new) }
    ensures write_fault { result ≡ 8 → Rose (K.faults out.old) (K.faults out.new) }
    ensures vault_fault { result ≡ 12 →
        Rose (V.state vault.old).faults (V.state vault.new).faults ⊎
        (TellsBodies (V.state vault.old) → HadBody (V.state vault.old)) }
    ensures long { result ≡ 13 → (all : List ℕ) → S.left input.old ≡ Some all →
        longest_body < length all }
{
    match World::start(alloc, disk, props) {
        Err(why) => report(alloc, out, ended_by(why.file, why.fault)),
        Ok(world) => {
            let how = put_in(alloc, world, user, path, input, disk, vault, rand, clock);
            close(alloc, out, how)
        }
    }
}

/// Reads the properties, opens both logs and puts a file. Returns the exit status.
pub(crate) fn run_put<A: Source, S: Source, K: Sink, D: Disk, V: Vault, W: Words, C: Clock>(
    alloc: Global,
    user: &Text,
    path: &Text,
    acls: &mut A,
    input: &mut S,
    out: &mut K,
    disk: &mut D,
    vault: &mut V,
    rand: &mut W,
    clock: &mut C,
) -> u8
    ensures put { PutsBody D.Disk K.Sink W.Words V.Vault
        (files disk.old out.old rand.old vault.old clock.old)
        (files disk.new out.new rand.new vault.new clock.new)
        S.Source input.old input.new A.Source acls.old acls.new user.now path.now result }
    ensures kept { FromSoundFiles (D.state disk.old)
        (PutKeeps D.Disk K.Sink W.Words V.Vault
        (files disk.old out.old rand.old vault.old clock.old)
        (files disk.new out.new rand.new vault.new clock.new)
        S.Source input.old input.new A.Source acls.old acls.new user.now path.now) result }
    ensures read_fault { result ≡ 7 →
        Rose (S.faults input.old) (S.faults input.new) ⊎
        Rose (A.faults acls.old) (A.faults acls.new) }
    ensures write_fault { result ≡ 8 → Rose (K.faults out.old) (K.faults out.new) }
    ensures vault_fault { result ≡ 12 →
        Rose (V.state vault.old).faults (V.state vault.new).faults ⊎
        (TellsBodies (V.state vault.old) → HadBody (V.state vault.old)) }
    ensures long { result ≡ 13 → (all : List ℕ) → S.left input.old ≡ Some all →
        longest_body < length all }
{
    let props = match read_properties(alloc, acls) {
        Err(fault) => return report(alloc, out, ended_by_props(fault)),
        Ok(props) => props,
    };
    let status = put_under(
        alloc, &props, user, path, input, out, disk, vault, rand, clock,
    );
    drop(props);
    status
}
