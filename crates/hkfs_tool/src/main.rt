//! hkfs: bodies of files in HDFS encryption zones.
#![tactic(auto)]

ghost use Rattle.std.specs.Prelude.{◌≡◌};
ghost use Rattle.clap_lines.specs.Orders.{IsMistake};
ghost use Rattle.fs_command_line.specs.Orders.{line_fault};

mod opening;

use body_kinds::MemVault;
use body_stream::Vault;
use data_stream::hkfs;
use disk_kinds::{ChaWords, PlainDisk, Reading, WallClock, Writing};
use fs_command_line::{FsOrder, OrderFault, read_order};
use hk_base::{Disk, Source, Text};
use opening::{BODIES, Opened, Unopened, open_all};
use program_start::{PROPERTIES, end_by, end_with, fill_standard, random_seed, words_given};
use std::io;
use std::process::ExitCode;

/// Tells what could not be opened, also on standard error, where the folder has been told of.
fn report_unopened(rt: &HostRuntime, unopened: &Unopened) -> u8 {
    let mut out = Writing::new(rt.stdout());
    match unopened {
        Unopened::Folder(error) => end_by(&mut out, error, b"store fault\n", 5),
        Unopened::Properties(error) => {
            let _ = eprintln!(rt; "hkfs: {PROPERTIES} cannot be opened here: {error}");
            end_by(&mut out, error, b"read fault\n", 7)
        }
        Unopened::Logs(error) => {
            let _ = eprintln!(rt; "hkfs: keys.log and names.log cannot be opened here: {error}");
            end_by(&mut out, error, b"store fault\n", 5)
        }
        Unopened::Bodies(error) => {
            let _ = eprintln!(rt; "hkfs: {BODIES} cannot be opened here: {error}");
            end_by(&mut out, error, b"vault fault\n", 12)
        }
    }
}

/// Does what the words of the command line say, over a disk and a vault.
fn run_over<A: Source, D: Disk, V: Vault>(
    rt: &HostRuntime,
    words: &[Text],
    seed: [u8; 32],
    acls: &mut A,
    disk: &mut D,
    vault: &mut V,
) -> u8
    ensures { result ≡ 2 → IsMistake (line_fault words.now) }
{
    let mut input = Reading::new(rt.stdin());
    let mut out = Writing::new(rt.stdout());
    let mut rand = ChaWords::from_seed(seed);
    let mut clock = WallClock::new(rt);
    hkfs(
        rt.alloc(),
        words,
        acls,
        &mut input,
        &mut out,
        disk,
        vault,
        &mut rand,
        &mut clock,
    )
}

/// Does what the words of the command line say, with the files of the folder that they give, or else of the
/// current one.
fn run_in_folder(rt: &HostRuntime, words: &[Text], seed: [u8; 32]) -> u8 {
    match open_all(rt, rt.alloc(), words, rt.stderr(), rt.stderr()) {
        Ok(opened) => {
            let Opened {
                mut acls,
                mut disk,
                mut vault,
            } = opened;
            run_over(rt, words, seed, &mut acls, &mut disk, &mut vault)
        }
        Err(unopened) => report_unopened(rt, &unopened),
    }
}

/// Runs words that name no command. Opens no file.
fn run_without_files(rt: &HostRuntime, words: &[Text], seed: [u8; 32]) -> u8
    ensures { result ≡ 2 → IsMistake (line_fault words.now) }
{
    let alloc = rt.alloc();
    let mut acls = Reading::new(io::empty());
    let mut disk = PlainDisk::new(alloc);
    let mut vault = MemVault::new(alloc, Vec::new(alloc));
    run_over(rt, words, seed, &mut acls, &mut disk, &mut vault)
}

/// Does what the words of the command line say.
fn run(rt: &HostRuntime, words: &[Text], seed: [u8; 32]) -> u8 {
    match read_order(rt.alloc(), words) {
        Ok(FsOrder::Put { .. }) => run_in_folder(rt, words, seed),
        Ok(FsOrder::Read { .. }) => run_in_folder(rt, words, seed),
        Err(OrderFault::NoMemory) => end_with(&mut Writing::new(rt.stdout()), b"no memory\n", 6),
        _ => run_without_files(rt, words, seed),
    }
}

/// Does what the words of the command line say, if they could be read. Words that are not UTF-8 are
/// refused as words that are not known.
fn run_words(rt: &HostRuntime, words: io::Result<Vec<Text>>, seed: [u8; 32]) -> u8 {
    match words {
        Ok(words) => run(rt, words.as_slice(), seed),
        Err(error) => end_by(
            &mut Writing::new(rt.stdout()),
            &error,
            b"usage refused\n",
            2,
        ),
    }
}

/// Tells that the program can't begin.
fn report_no_start(rt: &HostRuntime, line: &[u8]) -> ExitCode {
    let _ = end_with(&mut Writing::new(rt.stdout()), line, 7);
    ExitCode::from(7)
}

fn main(rt: HostRuntime) -> ExitCode {
    // This comes first: a log that is opened as a standard descriptor would be written over.
    let _standard = match fill_standard(&rt) {
        Ok(standard) => standard,
        Err(error) => {
            let _ = eprintln!(rt; "hkfs: /dev/null cannot be opened: {error}");
            return report_no_start(&rt, b"read fault\n");
        }
    };
    let Ok(seed) = random_seed(&rt) else {
        return report_no_start(&rt, b"no random source\n");
    };
    let words = words_given(&rt);
    ExitCode::from(run_words(&rt, words, seed))
}
