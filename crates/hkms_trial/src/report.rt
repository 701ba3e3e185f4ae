//! The report of a trial: what each of its runs came to.
use crate::run::{Outside, Place};
use crate::trial::{Command, FaultAt, Run, Sweep, Trial};
use crate::vault::TrialBody;
use std::alloc::{AllocError, Global};

/// The report so far.
#[derive(Drop)]
pub struct Report {
    alloc: Global,
    text: Vec<u8>,
}

impl Report {
    pub fn new(alloc: Global) -> Report {
        Report {
            alloc,
            text: Vec::new(alloc),
        }
    }

    pub fn as_slice(&self) -> &[u8] {
        self.text.as_slice()
    }

    fn line(&mut self, text: &str) -> Result<(), AllocError> {
        self.text.extend_from_slice(text.as_bytes())?;
        self.text.push(b'\n')?;
        Ok(())
    }

    fn number(&mut self, name: &str, number: u64) -> Result<(), AllocError> {
        let text = format!(in self.alloc; "{name} {number}")?;
        self.line(text.as_str())
    }

    /// A name and bytes in hex digits.
    fn bytes(&mut self, name: &str, bytes: &[u8]) -> Result<(), AllocError> {
        let digits = digits(self.alloc, bytes)?;
        let text = format!(in self.alloc; "{name} {digits}")?;
        self.line(text.as_str())
    }

    fn files(&mut self, place: &Place) -> Result<(), AllocError> {
        self.bytes("keys", place.disk.keys().as_slice())?;
        self.bytes("names", place.disk.names().as_slice())
    }

    /// Each body with its id.
    fn bodies(&mut self, place: &Place) -> Result<(), AllocError> {
        for body in place.vault.bodies() {
            self.body(body)?;
        }
        Ok(())
    }

    fn body(&mut self, body: &TrialBody) -> Result<(), AllocError> {
        let id = body.id;
        let name = format!(in self.alloc; "body {id}")?;
        self.bytes(name.as_str(), body.bytes.as_slice())
    }

    /// What a run wrote, which always ends a line. What `hkfs` writes is in hex digits if it is no text.
    fn transcript(&mut self, command: &Command, text: &[u8]) -> Result<(), AllocError> {
        if command.is_of_files() && !is_text(text) {
            return self.bytes("bytes", text);
        }
        self.text.extend_from_slice(text)?;
        if !text.is_empty() && !text.ends_with(b"\n") {
            self.text.push(b'\n')?;
        }
        Ok(())
    }

    /// How many calls of the disk a run made, and of the vault if it had one.
    fn calls(&mut self, command: &Command, place: &Place) -> Result<(), AllocError> {
        self.number("calls", place.disk.calls())?;
        if command.is_of_files() {
            self.number("vault calls", place.vault.calls())?;
        }
        Ok(())
    }

    /// What a run came to.
    fn outcome(
        &mut self,
        trial: &Trial,
        command: &Command,
        place: &Place,
        status: u8,
    ) -> Result<(), AllocError> {
        self.number("status", status as u64)?;
        if trial.calls {
            self.calls(command, place)?;
        }
        if trial.files {
            self.files(place)?;
        }
        if trial.bodies {
            self.bodies(place)?;
        }
        Ok(())
    }

    /// Makes a run with these faults, and reports it.
    fn run<'b>(
        &mut self,
        trial: &Trial,
        run: &Run,
        faults: &'b [FaultAt],
        place: &mut Place<'b>,
    ) -> Result<(), AllocError> {
        let mut outside = Outside::new(
            self.alloc,
            trial,
            run.input.as_slice(),
            faults,
            place.drawn,
        )?;
        let ran = self.run_in(trial, trial.command_of(run), &mut outside, faults, place);
        drop(outside);
        ran
    }

    /// Runs the command in what surrounds it, and reports it.
    fn run_in<'b>(
        &mut self,
        trial: &Trial,
        command: &Command,
        outside: &mut Outside,
        faults: &'b [FaultAt],
        place: &mut Place<'b>,
    ) -> Result<(), AllocError> {
        let status = outside.run_at(self.alloc, command, faults, place);
        self.transcript(command, outside.transcript())?;
        self.outcome(trial, command, place, status)
    }

    /// Reports the runs of a trial, one of which has these faults.
    fn runs(&mut self, trial: &Trial, faults: &[FaultAt]) -> Result<(), AllocError> {
        let mut place = Place::new(self.alloc, trial)?;
        let ran = self.runs_at(trial, faults, &mut place);
        drop(place);
        ran
    }

    /// Reports the runs of a trial at a place.
    fn runs_at<'b>(
        &mut self,
        trial: &Trial,
        faults: &'b [FaultAt],
        place: &mut Place<'b>,
    ) -> Result<(), AllocError> {
        let (runs, last) = trial.parts();
        for (before, run) in runs.iter().enumerate() {
            self.run(trial, run, trial.faults_after(before, faults), place)?;
        }
        match last {
            Some(run) => self.images(trial, run, place),
            None => Ok(()),
        }
    }

    /// Reports a run on each image that a crash may leave of the disk.
    fn images(&mut self, trial: &Trial, run: &Run, place: &Place) -> Result<(), AllocError> {
        let names = place.disk.names().images()?;
        let ran = self.images_with(trial, run, place, names.as_slice());
        drop(names);
        ran
    }

    /// Reports a run on each image of the key log with each of these of the edit log.
    fn images_with(
        &mut self,
        trial: &Trial,
        run: &Run,
        place: &Place,
        names: &[Vec<u8>],
    ) -> Result<(), AllocError> {
        let keys = place.disk.keys().images()?;
        let mut number = 0u64;
        let mut ran = Ok(());
        for image in keys.iter() {
            ran = self.images_of(trial, run, place, number, image.as_slice(), names);
            if ran.is_err() {
                break;
            }
            number = number.saturating_add(names.len() as u64);
        }
        drop(keys);
        ran
    }

    /// Reports a run on this image of the key log with each of these of the edit log. `number` images came
    /// before them.
    fn images_of(
        &mut self,
        trial: &Trial,
        run: &Run,
        place: &Place,
        number: u64,
        keys: &[u8],
        names: &[Vec<u8>],
    ) -> Result<(), AllocError> {
        let mut number = number;
        for image in names {
            number = number.saturating_add(1);
            self.image_line(number, keys, image.as_slice())?;
            let mut left = place.with_files(self.alloc, keys, image.as_slice())?;
            let ran = self.run(trial, run, &[], &mut left);
            drop(left);
            ran?;
        }
        Ok(())
    }

    fn image_line(&mut self, number: u64, keys: &[u8], names: &[u8]) -> Result<(), AllocError> {
        let keys = digits(self.alloc, keys)?;
        let names = digits(self.alloc, names)?;
        let text = format!(in self.alloc; "image {number} keys {keys} names {names}")?;
        self.line(text.as_str())
    }

    /// Reports the runs of a sweep.
    fn sweep(&mut self, trial: &Trial, sweep: Sweep) -> Result<(), AllocError> {
        let calls = count_calls(self.alloc, trial, sweep)?;
        for call in 1..=calls {
            self.number("call", call)?;
            let faults = faults_with(self.alloc, trial, sweep, call)?;
            self.runs(trial, faults.as_slice())?;
        }
        Ok(())
    }

    /// Runs a trial.
    pub fn trial(&mut self, trial: &Trial) -> Result<(), AllocError> {
        match trial.sweep {
            Some(sweep) => self.sweep(trial, sweep),
            None => self.runs(trial, trial.faults.as_slice()),
        }
    }
}

/// Whether all bytes are printable ASCII or line feeds.
fn is_text(bytes: &[u8]) -> bool {
    bytes
        .iter()
        .all(|byte| (*byte >= b' ' && *byte <= b'~') || *byte == b'\n')
}

/// Hex digits of bytes, `-` if there are none.
fn digits(alloc: Global, bytes: &[u8]) -> Result<String, AllocError> {
    if bytes.is_empty() {
        return String::from_str(alloc, "-");
    }
    hex::encode(alloc, bytes)
}

/// How many calls of the part of a sweep the run with the faults makes without the fault of the sweep.
fn count_calls(alloc: Global, trial: &Trial, sweep: Sweep) -> Result<u64, AllocError> {
    let mut place = Place::new(alloc, trial)?;
    let count = count_at(alloc, trial, sweep, &mut place);
    drop(place);
    count
}

/// Makes the runs of a trial up to the one with the faults. Returns how many calls that made of the part
/// of a sweep.
fn count_at<'b>(
    alloc: Global,
    trial: &'b Trial,
    sweep: Sweep,
    place: &mut Place<'b>,
) -> Result<u64, AllocError> {
    let mut count = 0;
    for (before, run) in trial.runs.iter().take(trial.faulty).enumerate() {
        let faults = trial.faults_after(before, trial.faults.as_slice());
        count = count_in(alloc, trial, sweep, run, faults, place)?;
    }
    Ok(count)
}

/// Makes a run with these faults. Returns how many calls it made of the part of a sweep.
fn count_in<'b>(
    alloc: Global,
    trial: &Trial,
    sweep: Sweep,
    run: &Run,
    faults: &'b [FaultAt],
    place: &mut Place<'b>,
) -> Result<u64, AllocError> {
    let mut outside = Outside::new(alloc, trial, run.input.as_slice(), faults, place.drawn)?;
    outside.run_at(alloc, trial.command_of(run), faults, place);
    let count = outside.calls(sweep.part, place);
    drop(outside);
    Ok(count)
}

/// The faults of a trial, and that of its sweep at a call.
fn faults_with(
    alloc: Global,
    trial: &Trial,
    sweep: Sweep,
    call: u64,
) -> Result<Vec<FaultAt>, AllocError> {
    let mut faults = trial.faults.to_vec(alloc)?;
    faults.push(FaultAt {
        part: sweep.part,
        fault: sweep.fault,
        call,
    })?;
    Ok(faults)
}
