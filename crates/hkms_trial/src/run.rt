//! One run of a command under a trial.
use crate::calls::Calls;
use crate::disk::TrialDisk;
use crate::outside::{CountedWords, Noon, TrialSink, TrialSource};
use crate::trial::{Command, FaultAt, Part, Trial};
use crate::vault::TrialVault;
use data_stream::hkfs;
use hk_runs::{run_pipe, run_replay};
use load_run::run_load;
use std::alloc::{AllocError, Global};

/// Properties under which every user may do everything.
const PERMITTING: &[u8] = b"default.key.acl.MANAGEMENT=*\n\
    default.key.acl.GENERATE_EEK=*\n\
    default.key.acl.DECRYPT_EEK=*\n\
    default.key.acl.READ=*\n";

/// What the runs of a trial leave to the runs after them.
#[derive(Drop)]
pub struct Place<'a> {
    pub disk: TrialDisk<'a>,
    pub vault: TrialVault<'a>,
    /// How many words of the trial were drawn.
    pub drawn: usize,
}

impl<'a> Place<'a> {
    /// What the first run of a trial begins with.
    pub fn new(alloc: Global, trial: &Trial) -> Result<Place<'a>, AllocError> {
        let keys = trial.keys.to_vec(alloc)?;
        let names = trial.names.to_vec(alloc)?;
        Ok(Place {
            disk: TrialDisk::new(alloc, keys, names),
            vault: TrialVault::new(alloc, trial.read),
            drawn: 0,
        })
    }

    /// The same place with these files on the disk, as a crash left them.
    pub fn with_files(
        &self,
        alloc: Global,
        keys: &[u8],
        names: &[u8],
    ) -> Result<Place<'static>, AllocError> {
        let keys = keys.to_vec(alloc)?;
        let names = names.to_vec(alloc)?;
        Ok(Place {
            disk: TrialDisk::new(alloc, keys, names),
            vault: self.vault.copy()?,
            drawn: self.drawn,
        })
    }

    /// Begins to count the calls anew. Those with one of these faults fail.
    fn plan(&mut self, faults: &'a [FaultAt]) {
        self.disk.plan(faults);
        self.vault.plan(faults);
    }
}

/// What surrounds a run beside its place.
#[derive(Drop)]
pub struct Outside<'a> {
    properties: TrialSource<'a>,
    input: TrialSource<'a>,
    output: TrialSink<'a>,
    words: CountedWords,
}

/// The words of a trial that are left after `drawn` of them.
fn draws_after(alloc: Global, trial: &Trial, drawn: usize) -> Result<Vec<u32>, AllocError> {
    let begin = drawn.min(trial.draws.len());
    trial.draws[begin..].to_vec(alloc)
}

fn properties_of(alloc: Global, trial: &Trial) -> Result<Vec<u8>, AllocError> {
    match &trial.properties {
        Some(properties) => properties.to_vec(alloc),
        None => PERMITTING.to_vec(alloc),
    }
}

impl<'a> Outside<'a> {
    /// What surrounds a run with this input, of which the calls with one of these faults fail.
    pub fn new(
        alloc: Global,
        trial: &Trial,
        input: &[u8],
        faults: &'a [FaultAt],
        drawn: usize,
    ) -> Result<Outside<'a>, AllocError> {
        let properties = properties_of(alloc, trial)?;
        let input = input.to_vec(alloc)?;
        let draws = draws_after(alloc, trial, drawn)?;
        let calls = Calls::new(Part::Properties, faults);
        let properties = TrialSource::new(alloc, properties, trial.read, calls);
        let calls = Calls::new(Part::Input, faults);
        Ok(Outside {
            properties,
            input: TrialSource::new(alloc, input, trial.read, calls),
            output: TrialSink::new(alloc, trial.write, Calls::new(Part::Output, faults)),
            words: CountedWords::new(draws),
        })
    }

    /// Runs the command at a place. Returns its status.
    fn run(
        &mut self,
        alloc: Global,
        command: &Command,
        disk: &mut TrialDisk,
        vault: &mut TrialVault,
    ) -> u8 {
        let Outside {
            properties,
            input,
            output,
            words,
        } = self;
        match command {
            Command::Replay => run_replay(alloc, properties, input, output, disk, words),
            Command::Pipe => run_pipe(alloc, properties, input, output, disk, words, &mut Noon),
            Command::Load(steps) => run_load(alloc, *steps, output, words),
            Command::Files(line) => hkfs(
                alloc,
                line.as_slice(),
                properties,
                input,
                output,
                disk,
                vault,
                words,
                &mut Noon,
            ),
        }
    }

    /// Runs the command at a place, where the calls with one of these faults fail. Returns its status.
    pub fn run_at<'b>(
        &mut self,
        alloc: Global,
        command: &Command,
        faults: &'b [FaultAt],
        place: &mut Place<'b>,
    ) -> u8 {
        place.plan(faults);
        let status = self.run(alloc, command, &mut place.disk, &mut place.vault);
        place.drawn = place.drawn.saturating_add(self.words.drawn());
        status
    }

    /// What was written.
    pub fn transcript(&self) -> &[u8] {
        self.output.as_slice()
    }

    /// How many calls a run made of a part.
    pub fn calls(&self, part: Part, place: &Place) -> u64 {
        match part {
            Part::Input => self.input.calls(),
            Part::Output => self.output.calls(),
            Part::Properties => self.properties.calls(),
            Part::Disk => place.disk.calls(),
            Part::Vault => place.vault.calls(),
        }
    }
}
