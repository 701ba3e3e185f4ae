//! Serves an HTTP connection over the input and the output.
ghost use Rattle.std.specs.Prelude.{◌≡◌, ◌⊎◌, ℕ, List};
ghost use Rattle.hk_base.specs.Faults.{Rose};
ghost use Rattle.http_wire.specs.Reading.{ahead};
ghost use Rattle.command_io.specs.Environment.{environment};
ghost use Rattle.world_run.specs.World.{RunningWorld};
ghost use Rattle.hk_base.specs.declared.ended.Ended.{Ended};
ghost use Rattle.hk_serve.specs.Served.{Served};
ghost use Rattle.world_desk.specs.Worlds.{HappensAtDesk, IsDeskReady, connection, standing};
ghost use Rattle.hk_runs.specs.Headline.{FromSoundFiles, PipeKeeps};
ghost use Rattle.hk_runs.specs.Pipe.{PipeUnder, Pipes, connection_status};

use command_io::{ended_by, ended_by_props, read_properties, status_of};
use hk_base::{Clock, Disk, Ended, Sink, Source, Words};
use prop_text::Props;
use std::alloc::Global;
use world_desk::serve_world;
use world_run::World;

/// The exit status of a connection that ended so.
fn connection_status(ended: Ended) -> u8
    ensures { result ≡ connection_status ended }
{
    match ended {
        Ended::End => 0,
        Ended::Closed => 0,
        Ended::Wire => 3,
        Ended::TooLong => 3,
        Ended::NoMemory => 6,
        Ended::ReadFault => 7,
        Ended::WriteFault => 8,
    }
}

/// Opens both logs and serves the connection, with properties that were read.
fn pipe_under<S: Source, K: Sink, D: Disk, W: Words, C: Clock>(
    alloc: Global,
    props: &Props,
    input: &mut S,
    out: &mut K,
    disk: &mut D,
    rand: &mut W,
    clock: &mut C,
) -> u8
    ensures pipe { PipeUnder props.now
        ((input.new ≡ input.old) × (out.new ≡ out.old) × (rand.new ≡ rand.old) ×
        (clock.new ≡ clock.old)) (D.state disk.old) (D.state disk.new) (W.to_come rand.old)
        (W.to_come rand.new) (S.left input.old) (S.left input.new) (K.written out.old)
        (K.written out.new) result }
    ensures read { result ≡ 7 → Rose (S.faults input.old) (S.faults input.new) }
    ensures write { result ≡ 8 → Rose (K.faults out.old) (K.faults out.new) }
    ensures store { result ≡ 5 → Rose (D.state disk.old).faults (D.state disk.new).faults }
{
    match World::start(alloc, disk, props) {
        Err(why) => status_of(ended_by(why.file, why.fault)),
        Ok(world) => connection_status(serve_in(alloc, world, input, out, disk, rand, clock)),
    }
}

/// Serves the connection from a world that was opened.
fn serve_in<S: Source, K: Sink, D: Disk, W: Words, C: Clock>(
    alloc: Global,
    world: World,
    input: &mut S,
    out: &mut K,
    disk: &mut D,
    rand: &mut W,
    clock: &mut C,
) -> Ended
    requires { IsDeskReady D.state (standing disk.old world rand.old) }
    ensures served { (unused : List ℕ) × (then : RunningWorld) ×
        Served (HappensAtDesk D.state W.to_come)
        (connection (S.left input.old) (standing disk.old world rand.old) (K.written out.old))
        (connection (ahead unused (S.left input.new)) (standing disk.new then rand.new)
        (K.written out.new)) result }
    ensures read_fault { result ≡ Ended.ReadFault → Rose (S.faults input.old) (S.faults input.new) }
    ensures write_fault { result ≡ Ended.WriteFault → Rose (K.faults out.old) (K.faults out.new) }
{
    let mut world = world;
    let ended = serve_world(alloc, input, out, &mut world, disk, rand, clock);
    world.close();
    ended
}

/// Serves the HTTP/1.1 requests of the input with both services, over the key log on file 0 of a disk
/// and the edit log on file 1, and writes only responses to the output.
///
/// It first reads the properties of the key management service, to their end or to the byte past
/// 1,048,576, then opens both logs, and then reads the input. The properties say who may make which
/// call on keys. The events of a request happen at the time that the clock shows. A re-encryption that
/// a request submits is driven to its end before the response.
///
/// Returns the exit status:
///
/// - 0: the input ended between two requests, or a request closed the connection.
/// - 3: the properties were refused, the input was no request, or the requests reached 2^40 bytes.
/// - 4: a log is damaged.
/// - 5: the disk failed while a log was opened.
/// - 6: allocation failed.
/// - 7: the properties or the input could not be read.
/// - 8: the output failed.
/// - 10: the last opening of a log is used up.
pub fn run_pipe<A: Source, S: Source, K: Sink, D: Disk, W: Words, C: Clock>(
    alloc: Global,
    acls: &mut A,
    input: &mut S,
    out: &mut K,
    disk: &mut D,
    rand: &mut W,
    clock: &mut C,
) -> u8
    ensures pipe { Pipes D.Disk A.Source S.Source K.Sink W.Words
        (environment disk.old acls.old input.old out.old rand.old)
        (environment disk.new acls.new input.new out.new rand.new) (clock.new ≡ clock.old) result }
    ensures headline { FromSoundFiles (D.state disk.old)
        (PipeKeeps D.Disk A.Source S.Source K.Sink W.Words
        (environment disk.old acls.old input.old out.old rand.old)
        (environment disk.new acls.new input.new out.new rand.new) (clock.new ≡ clock.old))
        result }
    ensures read { result ≡ 7 →
        Rose (S.faults input.old) (S.faults input.new) ⊎
        Rose (A.faults acls.old) (A.faults acls.new) }
    ensures write { result ≡ 8 → Rose (K.faults out.old) (K.faults out.new) }
    ensures store { result ≡ 5 → Rose (D.state disk.old).faults (D.state disk.new).faults }
{
    let props = match read_properties(alloc, acls) {
        Err(fault) => return status_of(ended_by_props(fault)),
        Ok(props) => props,
    };
    let status = pipe_under(alloc, &props, input, out, disk, rand, clock);
    drop(props);
    status
}
