//! The directives in the head of a trial file.
use crate::mistake::Mistake;
use crate::trial::{Command, Fault, FaultAt, Part, Sweep, Trial};
use hk_base::Text;
use std::alloc::Global;

/// Appends a line of properties.
pub fn add_property(alloc: Global, trial: &mut Trial, line: &[u8]) -> Result<(), Mistake> {
    let mut properties = trial.properties.take().unwrap_or(Vec::new(alloc));
    properties.extend_from_slice(line)?;
    properties.push(b'\n')?;
    trial.properties = Some(properties);
    Ok(())
}

/// Reads `replay`, `pipe`, `load N`, or the words of a command of `hkfs`.
pub fn command(alloc: Global, text: &str) -> Result<Command, Mistake> {
    match first_word(text) {
        ("replay", "") => Ok(Command::Replay),
        ("pipe", "") => Ok(Command::Pipe),
        ("load", steps) => load(steps),
        ("put", _) => files(alloc, text),
        ("read", _) => files(alloc, text),
        _ => Err(Mistake::NoCommand),
    }
}

fn files(alloc: Global, text: &str) -> Result<Command, Mistake> {
    let mut words = Vec::new(alloc);
    for word in text.split_whitespace() {
        words.push(Text::of(String::from_str(alloc, word)?))?;
    }
    Ok(Command::Files(words))
}

fn load(steps: &str) -> Result<Command, Mistake> {
    let steps = number(steps)?;
    match u32::try_from(steps) {
        Ok(steps) => Ok(Command::Load(steps)),
        Err(_) => Err(Mistake::NoNumber),
    }
}

fn number(word: &str) -> Result<u64, Mistake> {
    match word.parse::<u64>() {
        Ok(0) => Err(Mistake::NoNumber),
        Ok(number) => Ok(number),
        Err(_) => Err(Mistake::NoNumber),
    }
}

fn size(word: &str) -> Result<usize, Mistake> {
    let number = number(word)?;
    usize::try_from(number).map_err(|_| Mistake::NoNumber)
}

fn part(word: &str) -> Result<Part, Mistake> {
    match word {
        "input" => Ok(Part::Input),
        "output" => Ok(Part::Output),
        "properties" => Ok(Part::Properties),
        "disk" => Ok(Part::Disk),
        "vault" => Ok(Part::Vault),
        _ => Err(Mistake::NoPart),
    }
}

/// A word, and what follows it after a space.
fn first_word(text: &str) -> (&str, &str) {
    text.split_once(' ').unwrap_or((text, ""))
}

/// Reads `PART CALL ..`.
fn add_faults(trial: &mut Trial, fault: Fault, rest: &str) -> Result<(), Mistake> {
    let (word, calls) = first_word(rest);
    let part = part(word)?;
    if calls.is_empty() {
        return Err(Mistake::NoNumber);
    }
    for word in calls.split_whitespace() {
        let call = number(word)?;
        trial.faults.push(FaultAt { part, fault, call })?;
    }
    Ok(())
}

fn add_draws(trial: &mut Trial, rest: &str) -> Result<(), Mistake> {
    for word in rest.split_whitespace() {
        match u32::from_str_radix(word, 16) {
            Ok(draw) => trial.draws.push(draw)?,
            Err(_) => return Err(Mistake::NoDigits),
        }
    }
    Ok(())
}

/// Reads `fail PART` or `stop PART`.
fn set_sweep(trial: &mut Trial, rest: &str) -> Result<(), Mistake> {
    if trial.sweep.is_some() {
        return Err(Mistake::SecondSweep);
    }
    let (word, rest) = first_word(rest);
    let fault = match word {
        "fail" => Fault::Fail,
        "stop" => Fault::Stop,
        _ => return Err(Mistake::Unknown),
    };
    let part = part(rest)?;
    trial.sweep = Some(Sweep { part, fault });
    Ok(())
}

/// Reads `in run N`.
fn set_faulty(trial: &mut Trial, rest: &str) -> Result<(), Mistake> {
    let Some(word) = rest.strip_prefix("in run ") else {
        return Err(Mistake::Unknown);
    };
    trial.faulty = size(word)?;
    Ok(())
}

/// Appends the bytes that hex digits spell; `-` spells none.
pub fn add_bytes(alloc: Global, file: &mut Vec<u8>, digits: &str) -> Result<(), Mistake> {
    if digits == "-" {
        return Ok(());
    }
    match hex::decode(alloc, digits.as_bytes()) {
        Ok(bytes) => Ok(file.extend_from_slice(bytes.as_slice())?),
        Err(hex::FromHexError::OutOfMemory) => Err(Mistake::NoMemory),
        Err(_) => Err(Mistake::NoDigits),
    }
}

fn show_files(trial: &mut Trial) {
    trial.files = true;
    trial.bodies = true;
}

/// A directive that has no words after it.
fn set_flag(trial: &mut Trial, line: &str) -> Result<(), Mistake> {
    match line {
        "images" => trial.images = true,
        "files" => show_files(trial),
        "bodies" => trial.bodies = true,
        "calls" => trial.calls = true,
        _ => return Err(Mistake::Unknown),
    }
    Ok(())
}

/// Takes a directive into a trial.
pub fn read_directive(alloc: Global, trial: &mut Trial, line: &str) -> Result<(), Mistake> {
    let (word, rest) = first_word(line);
    match word {
        "command" => {
            trial.command = command(alloc, rest)?;
            Ok(())
        }
        "no" => set_no_properties(alloc, trial, rest),
        "draw" => add_draws(trial, rest),
        "read" | "write" => set_size(trial, word, rest),
        "fail" => add_faults(trial, Fault::Fail, rest),
        "stop" => add_faults(trial, Fault::Stop, rest),
        "each" => set_sweep(trial, rest),
        "faults" => set_faulty(trial, rest),
        "keys" => add_bytes(alloc, &mut trial.keys, rest),
        "names" => add_bytes(alloc, &mut trial.names, rest),
        _ => set_flag(trial, line),
    }
}

/// Sets how many bytes a read or a write takes at most.
fn set_size(trial: &mut Trial, word: &str, rest: &str) -> Result<(), Mistake> {
    let size = size(rest)?;
    if word == "read" {
        trial.read = size;
    } else {
        trial.write = size;
    }
    Ok(())
}

/// Reads `no properties`.
fn set_no_properties(alloc: Global, trial: &mut Trial, rest: &str) -> Result<(), Mistake> {
    if rest != "properties" {
        return Err(Mistake::Unknown);
    }
    trial.properties = Some(Vec::new(alloc));
    Ok(())
}
