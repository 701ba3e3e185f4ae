//! hkcopy: copies of HDFS encryption zones in a second cluster.
#![tactic(auto)]

ghost use Rattle.std.specs.Prelude.{◌≡◌};
ghost use Rattle.clap_lines.specs.Orders.{IsMistake};
ghost use Rattle.copy_command_line.specs.Orders.{line_fault};

mod opening;
mod progress;

use body_kinds::MemVault;
use body_stream::Vault;
use copy_command::hkcopy;
use copy_command_line::{CopyOrder, OrderFault, read_order};
use disk_kinds::{ChaWords, PlainDisk, Reading, WallClock, Writing};
use hk_base::{Disk, Source, Text};
use opening::{BACKUP_LOG, BODIES, COPIES, Opened, Unopened, open_all};
use program_start::{PROPERTIES, end_by, end_with, fill_standard, random_seed, words_given};
use progress::{CountedVault, LastLines, Progress};
use std::io::{self, IsTerminal};
use std::process::ExitCode;

/// Tells what could not be opened, also on standard error, where the folder has been told of.
fn report_unopened(rt: &HostRuntime, unopened: &Unopened) -> u8 {
    let mut out = Writing::new(rt.stdout());
    match unopened {
        Unopened::Folder(error) => end_by(&mut out, error, b"store fault\n", 5),
        Unopened::Properties(error) => {
            let _ = eprintln!(rt; "hkcopy: {PROPERTIES} cannot be opened here: {error}");
            end_by(&mut out, error, b"read fault\n", 7)
        }
        Unopened::Logs(error) => {
            let _ = eprintln!(rt; "hkcopy: keys.log and names.log cannot be opened here: {error}");
            end_by(&mut out, error, b"store fault\n", 5)
        }
        Unopened::Backup(error) => {
            let _ = eprintln!(rt; "hkcopy: {BACKUP_LOG} cannot be opened here: {error}");
            end_by(&mut out, error, b"store fault\n", 5)
        }
        Unopened::Bodies(error) => {
            let _ = eprintln!(rt; "hkcopy: {BODIES} cannot be opened here: {error}");
            end_by(&mut out, error, b"vault fault\n", 12)
        }
        Unopened::Copies(error) => {
            let _ = eprintln!(rt; "hkcopy: {COPIES} cannot be opened here: {error}");
            end_by(&mut out, error, b"vault fault\n", 12)
        }
    }
}

/// Does what the words of the command line say, over the disks and the vaults of both clusters. `shows`
/// says that standard error may show the progress of a copy, which the last line then removes.
fn run_over<A: Source, D: Disk, E: Disk, V: Vault, U: Vault>(
    rt: &HostRuntime,
    words: &[Text],
    seed: [u8; 32],
    shows: bool,
    acls: &mut A,
    disk: &mut D,
    backup: &mut E,
    vault: &mut V,
    copies: &mut U,
) -> u8
    ensures { result ≡ 2 → IsMistake (line_fault words.now) }
{
    let mut out = Writing::new(LastLines::new(rt.stdout(), rt.stderr(), shows));
    let mut rand = ChaWords::from_seed(seed);
    let mut clock = WallClock::new(rt);
    hkcopy(
        rt.alloc(),
        words,
        acls,
        &mut out,
        disk,
        backup,
        vault,
        copies,
        &mut rand,
        &mut clock,
    )
}

/// Does what the words of the command line say, with the files of the folder that they give, or else of the
/// current one.
fn run_in_folder(rt: &HostRuntime, words: &[Text], seed: [u8; 32], shows: bool) -> u8 {
    match open_all(rt, rt.alloc(), words, rt.stderr()) {
        Ok(opened) => {
            let Opened {
                mut acls,
                mut disk,
                mut backup,
                mut vault,
                copies,
            } = opened;
            let progress = Progress::new(rt.stderr(), shows, WallClock::new(rt));
            let mut copies = CountedVault::new(copies, progress);
            run_over(
                rt,
                words,
                seed,
                shows,
                &mut acls,
                &mut disk,
                &mut backup,
                &mut vault,
                &mut copies,
            )
        }
        Err(unopened) => report_unopened(rt, &unopened),
    }
}

/// Runs words that name no command. Opens no file.
fn run_without_files(rt: &HostRuntime, words: &[Text], seed: [u8; 32]) -> u8
    ensures { result ≡ 2 → IsMistake (line_fault words.now) }
{
    let alloc = rt.alloc();
    let mut acls = Reading::new(io::empty());
    let mut disk = PlainDisk::new(alloc);
    let mut backup = PlainDisk::new(alloc);
    let mut vault = MemVault::new(alloc, Vec::new(alloc));
    let mut copies = MemVault::new(alloc, Vec::new(alloc));
    run_over(
        rt,
        words,
        seed,
        false,
        &mut acls,
        &mut disk,
        &mut backup,
        &mut vault,
        &mut copies,
    )
}

/// Does what the words of the command line say. The progress of a copy is shown if standard error is a
/// terminal.
fn run(rt: &HostRuntime, words: &[Text], seed: [u8; 32]) -> u8 {
    match read_order(rt.alloc(), words) {
        Ok(CopyOrder::Copy { .. }) => {
            let shows = rt.stderr().is_terminal();
            run_in_folder(rt, words, seed, shows)
        }
        Ok(CopyOrder::Read { .. }) => run_in_folder(rt, words, seed, false),
        Err(OrderFault::NoMemory) => end_with(&mut Writing::new(rt.stdout()), b"no memory\n", 6),
        _ => run_without_files(rt, words, seed),
    }
}

/// Does what the words of the command line say, if they could be read. Words that are not UTF-8 are
/// refused as words that are not known.
fn run_words(rt: &HostRuntime, words: io::Result<Vec<Text>>, seed: [u8; 32]) -> u8 {
    match words {
        Ok(words) => run(rt, words.as_slice(), seed),
        Err(error) => end_by(
            &mut Writing::new(rt.stdout()),
            &error,
            b"usage refused\n",
            2,
        ),
    }
}

/// Tells that the program can't begin.
fn report_no_start(rt: &HostRuntime, line: &[u8]) -> ExitCode {
    let _ = end_with(&mut Writing::new(rt.stdout()), line, 7);
    ExitCode::from(7)
}

fn main(rt: HostRuntime) -> ExitCode {
    // This comes first: a log that is opened as a standard descriptor would be written over.
    let _standard = match fill_standard(&rt) {
        Ok(standard) => standard,
        Err(error) => {
            let _ = eprintln!(rt; "hkcopy: /dev/null cannot be opened: {error}");
            return report_no_start(&rt, b"read fault\n");
        }
    };
    let Ok(seed) = random_seed(&rt) else {
        return report_no_start(&rt, b"no random source\n");
    };
    let words = words_given(&rt);
    ExitCode::from(run_words(&rt, words, seed))
}
