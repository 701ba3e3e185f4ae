//! The command line.
ghost use Rattle.std.specs.Prelude.{◌≡◌, ◌⊎◌, ℕ, IsTrue};
ghost use Rattle.hk_base.specs.Faults.{Rose};
ghost use Rattle.clap_lines.specs.Orders.{IsMistake};
ghost use Rattle.command_line.specs.Orders.{FindsHelp, FindsVersion, Names, line_fault};
ghost use Rattle.command_line.specs.declared.order.Order.TheVariants as order;
ghost use Rattle.command_io.specs.Environment.{environment};
ghost use Rattle.hk_runs.specs.Headline.{FromSoundFiles, PipeKeeps, ReplayKeeps};
ghost use Rattle.hkms_commands.specs.Commands.{CarriesOut, ChecksLogs, KeepsByWords, LoadsSteps, PipesRequests, RefusesWords, ReplaysLines, ServesByWords, ShowsOwnText, given};
ghost use Rattle.hkms_commands.specs.Orders.{ByLogs, LeavesServing, UsesDisk, UsesLogs, UsesYard};

use check_run::run_check;
use command_io::{show, show_made};
use command_line::{Order, OrderFault, read_order};
use hk_base::{Clock, Disk, Sink, Source, Text, Words};
use hk_runs::{run_pipe, run_replay};
use load_run::run_load;
use server_command::run_serve;
use server_parts::{Door, Yard};
use std::alloc::Global;
use std::sync::Wait;
use std::thread::Threads;

/// Carries out an order, with the contract of `hkms`.
fn obey<
    R: Threads + Wait + Sync,
    A: Source,
    S: Source,
    K: Sink,
    D: Disk,
    Y: Yard,
    W: Words,
    C: Clock + Send,
    P: Door,
>(
    rt: &R,
    alloc: Global,
    order: Result<Order, OrderFault>,
    acls: &mut A,
    input: &mut S,
    out: &mut K,
    disk: &mut D,
    yard: &mut Y,
    rand: &mut W,
    clock: &mut C,
    door: &mut P,
) -> u8
    requires keys { IsTrue ((Y.state yard.old).lies 0) }
    requires names { IsTrue ((Y.state yard.old).lies 1) }
    ensures obeys { CarriesOut A.Source K.Sink W.Words Y.Yard Y.Own.Disk P.Door
        P.In.Source P.Out.Sink
        (given disk.old acls.old input.old out.old rand.old clock.old yard.old door.old)
        (given disk.new acls.new input.new out.new rand.new clock.new yard.new door.new)
        D.Disk S.Source order result }
    ensures read { result ≡ 7 →
        ByLogs order
        (Rose (S.faults input.old) (S.faults input.new) ⊎
        Rose (A.faults acls.old) (A.faults acls.new))
        ⊥ (Rose (A.faults acls.old) (A.faults acls.new)) }
    ensures write { result ≡ 8 → Rose (K.faults out.old) (K.faults out.new) }
    ensures idle { LeavesServing order ((yard.new ≡ yard.old) × (door.new ≡ door.old)) }
    ensures store { result ≡ 5 →
        ByLogs order (Rose (D.state disk.old).faults (D.state disk.new).faults)
        (Rose (D.state disk.old).faults (D.state disk.new).faults)
        (Rose (Y.state yard.old).faults (Y.state yard.new).faults) }
    ensures door { result ≡ 9 → ByLogs order ⊥ ⊥ (Rose (P.faults door.old) (P.faults door.new)) }
{
    match order {
        Ok(Order::Replay) => run_replay(alloc, acls, input, out, disk, rand),
        Ok(Order::Pipe) => run_pipe(alloc, acls, input, out, disk, rand, clock),
        Ok(
            Order::Serve {
                port,
                conns,
                places,
            },
        ) => run_serve(
            rt, alloc, acls, out, yard, rand, clock, door, port, conns, places,
        ),
        Ok(Order::Load { count }) => run_load(alloc, count, out, rand),
        Ok(Order::Check) => run_check(alloc, disk, out),
        Ok(Order::Help(text)) => show_made(out, text),
        Ok(Order::Version(text)) => show_made(out, text),
        Err(OrderFault::Usage) => show(out, b"usage refused\n", 2),
        Err(OrderFault::NoMemory) => show(out, b"no memory\n", 6),
    }
}

/// Carries out a command line and returns the exit status.
///
/// `replay` replays the event lines of the input, and `pipe` serves the input as an HTTP connection to
/// both services. Both use the key log on file 0 of the disk, the edit log on file 1, and the
/// properties of `acls`. What they keep of files and keys, in every world and after every crash, is
/// the headline, which `docs/headline.md` explains: the clauses `headline` and `headline_pipe`.
///
/// `serve` serves connections of the door with both services, over the same two logs, each on the disk
/// that the yard gives for it. Both disks must lie in the yard. What it keeps of files, whatever its threads
/// do, is the clause `headline_serve`.
///
/// `load` does a load over a disk of its own, in memory, and writes the line that sums it up. It uses the
/// output and the random words alone.
///
/// `check` writes what the two logs on the disk make, and which files are lost. It only reads the disk, and
/// uses nothing else but the output.
///
/// Help and version are printed with status 0, whatever other words there are. A mistake in the words
/// gives status 2 and the line `usage refused`. If allocation fails while the words are read, the status
/// is 6 and the line is `no memory`. Anything but the five commands uses the output alone. A status
/// that tells of a fault comes only if the count of what the command uses rose: `replay` and `pipe`
/// use the disk and the input, `check` the disk, `serve` the yard and the door.
pub fn hkms<
    R: Threads + Wait + Sync,
    A: Source,
    S: Source,
    K: Sink,
    D: Disk,
    Y: Yard,
    W: Words,
    C: Clock + Send,
    P: Door,
>(
    rt: &R,
    alloc: Global,
    words: &[Text],
    acls: &mut A,
    input: &mut S,
    out: &mut K,
    disk: &mut D,
    yard: &mut Y,
    rand: &mut W,
    clock: &mut C,
    door: &mut P,
) -> u8
    requires keys { IsTrue ((Y.state yard.old).lies 0) }
    requires names { IsTrue ((Y.state yard.old).lies 1) }
    ensures usage { IsMistake (line_fault words.now) →
        RefusesWords K.Sink
        (environment disk.old acls.old input.old out.old rand.old)
        (environment disk.new acls.new input.new out.new rand.new) (clock.new ≡ clock.old) result }
    ensures usage_only { result ≡ 2 → IsMistake (line_fault words.now) }
    ensures help { FindsHelp words.now ⊎ FindsVersion words.now →
        ShowsOwnText K.Sink
        (environment disk.old acls.old input.old out.old rand.old)
        (environment disk.new acls.new input.new out.new rand.new) (clock.new ≡ clock.old) result }
    ensures replay { Names order.Replay words.now →
        ReplaysLines D.Disk A.Source S.Source K.Sink W.Words
        (environment disk.old acls.old input.old out.old rand.old)
        (environment disk.new acls.new input.new out.new rand.new) (clock.new ≡ clock.old) result }
    ensures headline { Names order.Replay words.now →
        FromSoundFiles (D.state disk.old)
        (ReplayKeeps D.Disk A.Source S.Source K.Sink W.Words
        (environment disk.old acls.old input.old out.old rand.old)
        (environment disk.new acls.new input.new out.new rand.new))
        result }
    ensures pipe { Names order.Pipe words.now →
        PipesRequests D.Disk A.Source S.Source K.Sink W.Words
        (environment disk.old acls.old input.old out.old rand.old)
        (environment disk.new acls.new input.new out.new rand.new) (clock.new ≡ clock.old) result }
    ensures headline_pipe { Names order.Pipe words.now →
        FromSoundFiles (D.state disk.old)
        (PipeKeeps D.Disk A.Source S.Source K.Sink W.Words
        (environment disk.old acls.old input.old out.old rand.old)
        (environment disk.new acls.new input.new out.new rand.new) (clock.new ≡ clock.old))
        result }
    ensures serve { ServesByWords A.Source K.Sink W.Words Y.Yard Y.Own.Disk P.Door
        P.In.Source P.Out.Sink
        (given disk.old acls.old input.old out.old rand.old clock.old yard.old door.old)
        (given disk.new acls.new input.new out.new rand.new clock.new yard.new door.new)
        words.now result }
    ensures headline_serve { KeepsByWords A.Source K.Sink W.Words Y.Yard Y.Own.Disk P.Door
        P.In.Source P.Out.Sink
        (given disk.old acls.old input.old out.old rand.old clock.old yard.old door.old)
        (given disk.new acls.new input.new out.new rand.new clock.new yard.new door.new)
        words.now result }
    ensures load { (count : ℕ) → Names (order.Load count) words.now →
        LoadsSteps K.Sink
        (environment disk.old acls.old input.old out.old rand.old)
        (environment disk.new acls.new input.new out.new rand.new) (clock.new ≡ clock.old) W.Words
        count result }
    ensures check { Names order.Check words.now →
        ChecksLogs K.Sink
        (environment disk.old acls.old input.old out.old rand.old)
        (environment disk.new acls.new input.new out.new rand.new) (clock.new ≡ clock.old) D.Disk
        result }
    ensures idle { UsesYard words.now ⊎ ((yard.new ≡ yard.old) × (door.new ≡ door.old)) }
    ensures read { result ≡ 7 →
        (UsesDisk words.now ×
        (Rose (S.faults input.old) (S.faults input.new) ⊎
        Rose (A.faults acls.old) (A.faults acls.new))) ⊎
        (UsesYard words.now × Rose (A.faults acls.old) (A.faults acls.new)) }
    ensures write { result ≡ 8 → Rose (K.faults out.old) (K.faults out.new) }
    ensures store { result ≡ 5 →
        (UsesLogs words.now × Rose (D.state disk.old).faults (D.state disk.new).faults) ⊎
        (UsesYard words.now × Rose (Y.state yard.old).faults (Y.state yard.new).faults) }
    ensures door { result ≡ 9 → UsesYard words.now × Rose (P.faults door.old) (P.faults door.new) }
{
    let order = read_order(alloc, words);
    obey(
        rt, alloc, order, acls, input, out, disk, yard, rand, clock, door,
    )
}
