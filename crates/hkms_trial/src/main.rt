//! hkms_trial: runs commands by a trial file, over a disk, a vault, an input and an output in memory
//! that may fail.
#![tactic(auto)]

mod calls;
mod disk;
mod file;
mod head;
mod mistake;
mod outside;
mod reading;
mod report;
mod run;
mod trial;
mod vault;

use disk_kinds::Writing;
use hk_base::{Failed, write_all};
use report::Report;
use std::alloc::Global;
use std::process::ExitCode;
use std::rt::Env;
use std::{env, fs, io};
use trial::Trial;

const HELP: &str = "usage: hkms_trial FILE

Runs hkms and hkfs by the trial in FILE, in memory, and prints what their runs come to.
Lines of a trial (those that are empty or begin with # are skipped):
  command NAME            `replay`, `pipe` or `load N` of hkms, or of hkfs `put USER PATH` or
                          `read USER PATH FROM COUNT`; without this line `replay`
  property LINE           a line of the properties; with none everybody may do everything
  no properties           there are no properties
  draw HEX ..             32-bit words of the random source, then zeros
  read N, write N         a read gives, a write takes at most N bytes
  fail PART N ..          these calls fail: PART is input, output, properties, disk or vault
  stop PART N             this call and all after it fail
  each fail PART          the runs are repeated with each call failing in turn
  each stop PART          the same, with all calls after it failing too
  faults in run N         the calls that fail are those of run N; without this line of the first run
  keys HEX, names HEX     what keys.log and names.log hold at the start, `-` for nothing
  images                  the last run is made on each image that a crash may leave after the run before
  files                   prints both files and the bodies after each run
  bodies                  prints the bodies after each run, each with its id
  calls                   prints how many calls of the disk each run made, and hkfs of the vault
  input                   the lines after this one are the input, up to a line `then`
  then [COMMAND]          a further run with the same disk and vault; without COMMAND it is that of the
                          line `command`; its input follows
The input of a command of hkfs is in hex digits, whose lines are joined. What it writes is printed as a
line `bytes HEX` if it is no text.
";

/// The first argument.
fn argument(rt: &(impl Env + Alloc<A = Global>)) -> io::Result<Option<String>> {
    Ok(env::args(rt)?.nth(1))
}

fn print_bytes(rt: &HostRuntime, bytes: &[u8]) -> Result<(), Failed> {
    let mut out = Writing::new(rt.stdout());
    write_all(&mut out, bytes)
}

/// Runs a trial and prints its report.
fn run_trial(rt: &HostRuntime, trial: &Trial) -> u8 {
    let mut report = Report::new(rt.alloc());
    if report.trial(trial).is_err() {
        let _ = eprintln!(rt; "hkms_trial: out of memory");
        return 6;
    }
    match print_bytes(rt, report.as_slice()) {
        Ok(()) => 0,
        Err(_) => 8,
    }
}

/// Reads a trial and runs it.
fn run_file(rt: &HostRuntime, path: &str, file: &[u8]) -> u8 {
    match reading::read_trial(rt.alloc(), file) {
        Ok(trial) => {
            let status = run_trial(rt, &trial);
            drop(trial);
            status
        }
        Err(fault) => {
            let _ = eprintln!(rt; "hkms_trial: {path}: {fault}");
            2
        }
    }
}

/// Runs the trial in the file at a path.
fn run_path(rt: &HostRuntime, path: &str) -> u8 {
    match fs::read(rt, path) {
        Ok(file) => run_file(rt, path, file.as_slice()),
        Err(error) => {
            let _ = eprintln!(rt; "hkms_trial: {path}: {error}");
            2
        }
    }
}

fn show_help(rt: &HostRuntime) -> u8 {
    match print_bytes(rt, HELP.as_bytes()) {
        Ok(()) => 0,
        Err(_) => 8,
    }
}

fn main(rt: HostRuntime) -> ExitCode {
    let Ok(Some(word)) = argument(&rt) else {
        let _ = eprintln!(rt; "usage: hkms_trial FILE");
        return ExitCode::from(2);
    };
    let status = match word.as_str() {
        "--help" => show_help(&rt),
        path => run_path(&rt, path),
    };
    ExitCode::from(status)
}
