//! Serves connections.
ghost use Rattle.std.specs.Prelude.{◌≡◌, ◌+◌, ℕ, IsTrue};
ghost use Rattle.hk_base.specs.Faults.{Rose};
ghost use Rattle.server_run.specs.declared.run.RunEnd.TheVariants as run_end;
ghost use Rattle.server_command.specs.Serve.{ReportsRun, ServesConns, generator_of, server_environment};

use command_io::{ReplayEnd, ended_by, ended_by_props, read_properties, report, show};
use disk_kinds::ChaWords;
use hk_base::{Clock, Sink, Source, Words};
use server_parts::{Door, Yard};
use server_run::{RunEnd, ServerPlan, run_server};
use std::alloc::Global;
use std::sync::Wait;
use std::thread::Threads;

/// A clock that a caller lends.
#[derive(Drop)]
struct LentClock<'a, C> {
    clock: &'a mut C,
}

impl<'a, C: Clock> Clock for LentClock<'a, C> {
    fn now_ms(&mut self) -> u64 {
        self.clock.now_ms()
    }
}

/// Returns a generator whose seed is the next eight words.
fn generator<W: Words>(rand: &mut W) -> ChaWords
    ensures seed { result ≡ generator_of (W.to_come rand.old) }
    ensures rest { (k : ℕ) → W.to_come rand.new k ≡ W.to_come rand.old (k + 8) }
{
    ChaWords::from_words([
        rand.word(),
        rand.word(),
        rand.word(),
        rand.word(),
        rand.word(),
        rand.word(),
        rand.word(),
        rand.word(),
    ])
}

/// Writes the last line of a run of the server, if it has one, and returns its status.
fn report_run<K: Sink>(alloc: Global, out: &mut K, end: RunEnd) -> u8
    ensures reports { ReportsRun end (K.written out.old) (K.written out.new) result }
    ensures write { result ≡ 8 → Rose (K.faults out.old) (K.faults out.new) }
{
    match end {
        RunEnd::Served => 0,
        RunEnd::Closed => 0,
        RunEnd::DoorFault => show(out, b"door fault\n", 9),
        RunEnd::StoreFault => report(alloc, out, ReplayEnd::StoreFault),
        RunEnd::NoMemory => report(alloc, out, ReplayEnd::NoMemory),
        RunEnd::NotOpened { file, fault } => report(alloc, out, ended_by(file, fault)),
    }
}

/// Serves connections with both services, over the key log on file 0 and the edit log on file 1, each
/// on the disk that the yard gives for it.
///
/// It first reads the properties of the key management service, to their end or to the byte past
/// 1,048,576. It then opens both logs, and then accepts `conns` connections at the port of the door,
/// at most `places` at a time, each with a thread of its own. Other threads fill the queues of ready keys
/// and re-encrypt zones meanwhile. When all connections have ended, it finishes the re-encryptions that
/// are left, and gives both disks back. If the door takes no more connections, it ends those that run,
/// and leaves the re-encryptions to the next start. The key management service and each of the two threads that
/// fill queues draw from a generator of their own, whose seeds are eight words of `rand` each, in this
/// order.
///
/// Returns the exit status. Each but 0 has a last line, except 8:
///
/// - 0: the connections were served, or the door took no more.
/// - 3: the properties were refused.
/// - 4: a log is damaged.
/// - 5: a disk failed, while its log was opened or later.
/// - 6: allocation failed.
/// - 7: the properties could not be read.
/// - 8: the output failed.
/// - 9: the door failed.
/// - 10: the last opening of a log is used up.
pub fn run_serve<
    R: Threads + Wait + Sync,
    A: Source,
    K: Sink,
    Y: Yard,
    W: Words,
    C: Clock + Send,
    P: Door,
>(
    rt: &R,
    alloc: Global,
    acls: &mut A,
    out: &mut K,
    yard: &mut Y,
    rand: &mut W,
    clock: &mut C,
    door: &mut P,
    port: u16,
    conns: u32,
    places: u16,
) -> u8
    requires keys { IsTrue ((Y.state yard.old).lies 0) }
    requires names { IsTrue ((Y.state yard.old).lies 1) }
    ensures serves { ServesConns A.Source K.Sink W.Words Y.Yard Y.Own.Disk P.Door P.In.Source
        P.Out.Sink (server_environment acls.old out.old rand.old yard.old door.old)
        (server_environment acls.new out.new rand.new yard.new door.new) port conns result }
    ensures read { result ≡ 7 → Rose (A.faults acls.old) (A.faults acls.new) }
    ensures write { result ≡ 8 → Rose (K.faults out.old) (K.faults out.new) }
    ensures store { result ≡ 5 → Rose (Y.state yard.old).faults (Y.state yard.new).faults }
    ensures door { result ≡ 9 → Rose (P.faults door.old) (P.faults door.new) }
{
    let props = match read_properties(alloc, acls) {
        Err(fault) => return report(alloc, out, ended_by_props(fault)),
        Ok(props) => props,
    };
    let words = generator(rand);
    let plan = ServerPlan {
        port,
        conns,
        places,
        first: generator(rand),
        second: generator(rand),
    };
    let clock = LentClock { clock };
    let end = run_server(rt, alloc, &props, yard, words, clock, door, plan);
    drop(props);
    report_run(alloc, out, end)
}
