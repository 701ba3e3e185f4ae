//! Reads a trial file.
use crate::head::{add_bytes, add_property, command, read_directive};
use crate::mistake::{Mistake, TrialFault};
use crate::trial::{Command, Run, Trial};
use std::alloc::Global;

/// A trial as far as its file has been read.
#[derive(Drop)]
struct Draft {
    alloc: Global,
    trial: Trial,
    /// The run whose input is being read; none in the head.
    run: Option<Run>,
    /// Whether the input that is being read has a line yet.
    has_line: bool,
}

/// Text of a trial file.
fn text_of(line: &[u8]) -> Result<&str, Mistake> {
    str::from_utf8(line).map_err(|_| Mistake::NotUtf8)
}

impl Draft {
    /// Takes a line of the head.
    fn take_head_line(&mut self, line: &[u8]) -> Result<(), Mistake> {
        if line.is_empty() || line.starts_with(b"#") {
            return Ok(());
        }
        if let Some(property) = line.strip_prefix(b"property ") {
            return add_property(self.alloc, &mut self.trial, property);
        }
        let text = text_of(line)?;
        if text == "input" {
            self.begin_run(None);
            return Ok(());
        }
        read_directive(self.alloc, &mut self.trial, text)
    }

    /// Begins a run without an input.
    fn begin_run(&mut self, command: Option<Command>) {
        self.has_line = false;
        let input = Vec::new(self.alloc);
        self.run = Some(Run { command, input });
    }

    /// Adds the line feed of the line before to an input in text. It comes only now, since the last line
    /// of the file has none.
    fn end_line(&mut self, run: &mut Run) -> Result<(), Mistake> {
        if self.has_line {
            run.input.push(b'\n')?;
        }
        self.has_line = true;
        Ok(())
    }

    /// Takes a line of the input of a run.
    fn take_input_line(&mut self, mut run: Run, line: &[u8]) -> Result<(), Mistake> {
        if self.trial.command_of(&run).is_of_files() {
            add_bytes(self.alloc, &mut run.input, text_of(line)?)?;
        } else {
            self.end_line(&mut run)?;
            run.input.extend_from_slice(line)?;
        }
        self.run = Some(run);
        Ok(())
    }

    /// Ends the input of a run, and begins the next run with this command.
    fn end_run(&mut self, mut run: Run, command: Option<Command>) -> Result<(), Mistake> {
        self.end_line(&mut run)?;
        self.trial.runs.push(run)?;
        self.begin_run(command);
        Ok(())
    }

    /// Takes a line of the input of a run, or the line that ends it.
    fn take_run_line(&mut self, run: Run, line: &[u8]) -> Result<(), Mistake> {
        if line == b"then".as_slice() {
            return self.end_run(run, None);
        }
        if let Some(words) = line.strip_prefix(b"then ") {
            let command = command(self.alloc, text_of(words)?)?;
            return self.end_run(run, Some(command));
        }
        self.take_input_line(run, line)
    }

    fn take_line(&mut self, line: &[u8]) -> Result<(), Mistake> {
        match self.run.take() {
            None => self.take_head_line(line),
            Some(run) => self.take_run_line(run, line),
        }
    }
}

/// What the file as a whole lacks.
fn fault_of(trial: &Trial) -> Option<TrialFault> {
    if trial.images && trial.runs.len() < 2 {
        return Some(TrialFault::ImagesThen);
    }
    let (runs, _) = trial.parts();
    if trial.faulty > runs.len() {
        return Some(TrialFault::NoFaultyRun);
    }
    None
}

/// Checks what the file as a whole must have.
fn checked(trial: Trial) -> Result<Trial, TrialFault> {
    match fault_of(&trial) {
        None => Ok(trial),
        Some(fault) => {
            drop(trial);
            Err(fault)
        }
    }
}

/// The fault of a line.
fn fault_in(number: u64, mistake: Mistake) -> TrialFault {
    TrialFault::Line { number, mistake }
}

/// Adds the last run to a trial, after this many lines.
fn finished(mut trial: Trial, run: Run, number: u64) -> Result<Trial, TrialFault> {
    match trial.runs.push(run) {
        Ok(()) => checked(trial),
        Err(_) => {
            drop(trial);
            Err(fault_in(number, Mistake::NoMemory))
        }
    }
}

/// The trial of a file that was read to its end, after this many lines.
fn trial_of(draft: Draft, number: u64) -> Result<Trial, TrialFault> {
    let Draft { trial, run, .. } = draft;
    match run {
        Some(run) => finished(trial, run, number),
        None => {
            drop(trial);
            Err(TrialFault::NoInput)
        }
    }
}

/// Reads the lines of a trial file into a draft.
fn read_lines(mut draft: Draft, file: &[u8]) -> Result<Trial, TrialFault> {
    let mut number = 0u64;
    for line in file.split(|byte| *byte == b'\n') {
        number = number.saturating_add(1);
        match draft.take_line(line) {
            Ok(()) => {}
            Err(mistake) => {
                drop(draft);
                return Err(fault_in(number, mistake));
            }
        }
    }
    trial_of(draft, number)
}

/// Reads a trial file.
pub fn read_trial(alloc: Global, file: &[u8]) -> Result<Trial, TrialFault> {
    let draft = Draft {
        alloc,
        trial: Trial::new(alloc),
        run: None,
        has_line: false,
    };
    read_lines(draft, file)
}
