//! hkms: the Hadoop key management server.
#![tactic(auto)]

ghost use Rattle.std.specs.Prelude.{◌≡◌, ◌≢◌, IfErr, IfOk, IsTrue, MatchResult};
ghost use Rattle.clap_lines.specs.Orders.{IsMistake};
ghost use Rattle.command_line.specs.Orders.{line_fault};
ghost use Rattle.hkms_tool.specs.Starting.{EndsUnopened};
ghost use Rattle.program_start.specs.Starting.{EndsProgram, EndsWith};

mod announcing;
mod looking;
mod opening;
mod stopping;

use announcing::Announcing;
use command_line::{Order, OrderFault, read_order};
use disk_kinds::{Alarm, ChaWords, PlainDisk, Reading, WallClock, Writing};
use door_kinds::{MemDoor, MemYard};
use hk_base::{Disk, Source, Text};
use hkms_commands::hkms;
use opening::{Unopened, enter_given, open_disk, open_look, open_yard};
use program_start::{PROPERTIES, end_with, fill_standard, random_seed, words_given};
use server_parts::{Door, Yard};
use std::alloc::Global;
use std::io::{self, ErrorKind};
use std::process::ExitCode;
use std::sync::{Arc, Wait};
use std::thread::Threads;
use stopping::watch_stop;

/// What a command writes to the output.
#[derive(Clone, Copy)]
enum Output {
    /// Lines. The last one tells of a fault.
    Lines,
    /// Responses alone.
    Responses,
}

/// Tells of a fault that comes before the input is read, by a last line, and returns the status.
fn report_fault(rt: &HostRuntime, output: Output, line: &[u8], status: u8) -> u8
    ensures { EndsWith status result }
{
    if matches!(output, Output::Responses) {
        return status;
    }
    end_with(&mut Writing::new(rt.stdout()), line, status)
}

/// Tells of an error that comes before the input is read, as `report_fault` does. A failed allocation
/// has a line and a status of its own.
fn report_error(rt: &HostRuntime, output: Output, error: &io::Error, line: &[u8], status: u8) -> u8
    ensures { EndsProgram status error.now result }
{
    if error.kind() == ErrorKind::OutOfMemory {
        return report_fault(rt, output, b"no memory\n", 6);
    }
    report_fault(rt, output, line, status)
}

/// Tells that the folder, the properties or the logs could not be opened, also on standard error, where the
/// folder has been told of.
fn report_unopened(rt: &HostRuntime, output: Output, unopened: &Unopened) -> u8
    ensures ends { EndsUnopened unopened.now result }
    ensures not_usage { result ≢ 2 }
{
    match unopened {
        Unopened::Folder(error) => report_error(rt, output, error, b"store fault\n", 5),
        Unopened::Properties(error) => {
            let _ = eprintln!(rt; "hkms: {PROPERTIES} cannot be opened here: {error}");
            report_error(rt, output, error, b"read fault\n", 7)
        }
        Unopened::Logs(error) => {
            let _ = eprintln!(rt; "hkms: keys.log and names.log cannot be opened here: {error}");
            report_error(rt, output, error, b"store fault\n", 5)
        }
    }
}

/// Does what the words of the command line say, over a disk, a yard and a door.
fn run_over<T: Threads + Wait + Sync, A: Source, D: Disk, Y: Yard, P: Door>(
    rt: &HostRuntime,
    threads: &T,
    words: &[Text],
    seed: [u8; 32],
    acls: &mut A,
    disk: &mut D,
    yard: &mut Y,
    door: &mut P,
) -> u8
    requires keys { IsTrue ((Y.state yard.old).lies 0) }
    requires names { IsTrue ((Y.state yard.old).lies 1) }
    ensures { result ≡ 2 → IsMistake (line_fault words.now) }
{
    let mut input = Reading::new(rt.stdin());
    let mut out = Writing::new(rt.stdout());
    let mut rand = ChaWords::from_seed(seed);
    let mut clock = WallClock::new(rt);
    hkms(
        threads,
        rt.alloc(),
        words,
        acls,
        &mut input,
        &mut out,
        disk,
        yard,
        &mut rand,
        &mut clock,
        door,
    )
}

/// Does what the words of the command line say, over a disk alone. A server would have empty logs, and
/// nobody would connect to it.
fn run_over_disk<T: Threads + Wait + Sync, A: Source, D: Disk>(
    rt: &HostRuntime,
    threads: &T,
    words: &[Text],
    output: Output,
    seed: [u8; 32],
    acls: &mut A,
    disk: &mut D,
) -> u8
    ensures { result ≡ 2 → IsMistake (line_fault words.now) }
{
    let alloc = rt.alloc();
    match (MemYard::empty(alloc), MemDoor::closed(alloc)) {
        (Ok(mut yard), Ok(mut door)) => {
            run_over(rt, threads, words, seed, acls, disk, &mut yard, &mut door)
        }
        _ => report_fault(rt, output, b"no memory\n", 6),
    }
}

/// Does what the words of the command line say, over the properties and the disk that were opened.
fn run_opened<T: Threads + Wait + Sync, A: Source + Drop, D: Disk + Drop>(
    rt: &HostRuntime,
    threads: &T,
    words: &[Text],
    output: Output,
    seed: [u8; 32],
    opened: Result<(A, D), Unopened>,
) -> u8
    ensures usage { result ≡ 2 → IsMistake (line_fault words.now) }
    ensures unopened { IfErr opened (λ unopened. EndsUnopened unopened result) }
{
    match opened {
        Ok((mut acls, mut disk)) => {
            run_over_disk(rt, threads, words, output, seed, &mut acls, &mut disk)
        }
        Err(unopened) => report_unopened(rt, output, &unopened),
    }
}

/// Serves, as the words of the command line say, over the properties and the yard that were opened. It
/// takes no more connections once the alarm is raised, and says on standard error when it listens and
/// when it ends.
fn serve_opened<T: Threads + Wait + Sync, A: Source + Drop, Y: Yard + Drop>(
    rt: &HostRuntime,
    threads: &T,
    words: &[Text],
    seed: [u8; 32],
    alarm: Arc<Alarm, Global>,
    opened: Result<(A, Y), Unopened>,
) -> u8
    requires keys { IfOk opened (λ opened. IsTrue ((Y.state opened.1).lies 0)) }
    requires names { IfOk opened (λ opened. IsTrue ((Y.state opened.1).lies 1)) }
    ensures usage { result ≡ 2 → IsMistake (line_fault words.now) }
    ensures unopened { IfErr opened (λ unopened. EndsUnopened unopened result) }
{
    match opened {
        Ok((mut acls, mut yard)) => {
            let mut disk = PlainDisk::new(rt.alloc());
            let mut door = Announcing::new(rt, rt.alloc(), alarm);
            let status = run_over(
                rt, threads, words, seed, &mut acls, &mut disk, &mut yard, &mut door,
            );
            let _ = eprintln!(rt; "hkms: ended with status {status}");
            status
        }
        Err(unopened) => report_unopened(rt, Output::Lines, &unopened),
    }
}

/// Serves, as the words of the command line say, with the files of the folder that they give, or else of the
/// current one. A sync of a log
/// that fails raises an alarm, and so does a byte on the pipe `hkms.stop`: the server then takes no more
/// connections, and ends.
fn serve<T: Threads + Wait + Sync>(
    rt: &HostRuntime,
    threads: &T,
    words: &[Text],
    seed: [u8; 32],
) -> u8
    ensures { result ≡ 2 → IsMistake (line_fault words.now) }
{
    let alloc = rt.alloc();
    if let Err(unopened) = enter_given(rt, alloc, words, rt.stderr()) {
        return report_unopened(rt, Output::Lines, &unopened);
    }
    let Ok(alarm) = Arc::new(alloc, Alarm::new()) else {
        return report_fault(rt, Output::Lines, b"no memory\n", 6);
    };
    if let Err(error) = watch_stop(rt, threads, &alarm) {
        let _ = eprintln!(rt; "hkms: hkms.stop cannot be watched: {error}");
    }
    let opened = open_yard(rt, alloc, rt.stderr(), &alarm);
    serve_opened(rt, threads, words, seed, alarm, opened)
}

/// Checks the logs of the folder that the words of the command line give, or else of the current one.
fn check_logs<T: Threads + Wait + Sync>(
    rt: &HostRuntime,
    threads: &T,
    words: &[Text],
    seed: [u8; 32],
) -> u8
    ensures { result ≡ 2 → IsMistake (line_fault words.now) }
{
    let opened = open_look(rt, rt.alloc(), words, rt.stderr());
    run_opened(rt, threads, words, Output::Lines, seed, opened)
}

/// Runs words that name no command, or one without files. Opens no file.
fn run_without_files<T: Threads + Wait + Sync>(
    rt: &HostRuntime,
    threads: &T,
    words: &[Text],
    seed: [u8; 32],
) -> u8
    ensures { result ≡ 2 → IsMistake (line_fault words.now) }
{
    let mut acls = Reading::new(io::empty());
    let mut disk = PlainDisk::new(rt.alloc());
    run_over_disk(
        rt,
        threads,
        words,
        Output::Lines,
        seed,
        &mut acls,
        &mut disk,
    )
}

/// Does what the words of the command line say, with the files of the folder that they give, or else of the
/// current one.
fn run<T: Threads + Wait + Sync>(
    rt: &HostRuntime,
    threads: &T,
    words: &[Text],
    seed: [u8; 32],
) -> u8
    ensures { result ≡ 2 → IsMistake (line_fault words.now) }
{
    let alloc = rt.alloc();
    match read_order(alloc, words) {
        Ok(Order::Replay) => {
            run_opened(
                rt,
                threads,
                words,
                Output::Lines,
                seed,
                open_disk(rt, alloc, words, rt.stderr()),
            )
        }
        Ok(Order::Pipe) => {
            run_opened(
                rt,
                threads,
                words,
                Output::Responses,
                seed,
                open_disk(rt, alloc, words, rt.stderr()),
            )
        }
        Ok(Order::Check) => check_logs(rt, threads, words, seed),
        Ok(Order::Serve { .. }) => serve(rt, threads, words, seed),
        Err(OrderFault::NoMemory) => report_fault(rt, Output::Lines, b"no memory\n", 6),
        _ => run_without_files(rt, threads, words, seed),
    }
}

/// Does what the words of the command line say, if they could be read. Words that are not UTF-8 are
/// refused as words that are not known.
fn run_words<T: Threads + Wait + Sync>(
    rt: &HostRuntime,
    threads: &T,
    words: io::Result<Vec<Text>>,
    seed: [u8; 32],
) -> u8
    ensures { MatchResult words
        (λ words. result ≡ 2 → IsMistake (line_fault words.items))
        (λ error. EndsProgram 2 error result) }
{
    match words {
        Ok(words) => run(rt, threads, words.as_slice(), seed),
        Err(error) => report_error(rt, Output::Lines, &error, b"usage refused\n", 2),
    }
}

/// Tells that the program can't begin.
fn report_no_start(rt: &HostRuntime, line: &[u8]) -> ExitCode {
    let _ = end_with(&mut Writing::new(rt.stdout()), line, 7);
    ExitCode::from(7)
}

fn main(rt: HostRuntime) -> ExitCode {
    // This comes first: a log that is opened as a standard descriptor would be written over.
    let _standard = match fill_standard(&rt) {
        Ok(standard) => standard,
        Err(error) => {
            let _ = eprintln!(rt; "hkms: /dev/null cannot be opened: {error}");
            return report_no_start(&rt, b"read fault\n");
        }
    };
    let Ok(seed) = random_seed(&rt) else {
        return report_no_start(&rt, b"no random source\n");
    };
    let words = words_given(&rt);
    ExitCode::from(run_words(&rt, &rt, words, seed))
}
