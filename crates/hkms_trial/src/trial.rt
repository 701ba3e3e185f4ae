//! What a trial file asks for.
use hk_base::Text;
use std::alloc::Global;

/// A part of what surrounds a run.
#[derive(Clone, Copy, PartialEq, Eq)]
pub enum Part {
    Input,
    Output,
    Properties,
    Disk,
    Vault,
}

/// How calls of a part fail.
#[derive(Clone, Copy, PartialEq, Eq)]
pub enum Fault {
    /// One call fails.
    Fail,
    /// One call and all after it fail.
    Stop,
}

/// A fault at a call, counted from 1.
#[derive(Clone, Copy)]
pub struct FaultAt {
    pub part: Part,
    pub fault: Fault,
    pub call: u64,
}

/// The runs are repeated with a fault at each call of a part in turn.
#[derive(Clone, Copy)]
pub struct Sweep {
    pub part: Part,
    pub fault: Fault,
}

/// How many bytes a read or a write takes at most if the trial gives no other number.
const PIECE: usize = 4096;

/// A command that works without a server.
#[derive(Drop)]
pub enum Command {
    Replay,
    Pipe,
    /// A load of this number of steps.
    Load(u32),
    /// A command of `hkfs`, as its words.
    Files(Vec<Text>),
}

impl Command {
    /// Whether it is a command of `hkfs`.
    pub fn is_of_files(&self) -> bool {
        match self {
            Command::Files(_) => true,
            _ => false,
        }
    }
}

/// A run.
#[derive(Drop)]
pub struct Run {
    /// Its command, or `None` for that of the trial.
    pub command: Option<Command>,
    pub input: Vec<u8>,
}

/// A trial.
#[derive(Drop)]
pub struct Trial {
    pub command: Command,
    /// The properties; without them every user may do everything.
    pub properties: Option<Vec<u8>>,
    pub draws: Vec<u32>,
    pub read: usize,
    pub write: usize,
    pub faults: Vec<FaultAt>,
    pub sweep: Option<Sweep>,
    /// The run that has the faults, counted from 1.
    pub faulty: usize,
    pub keys: Vec<u8>,
    pub names: Vec<u8>,
    pub images: bool,
    pub files: bool,
    pub bodies: bool,
    pub calls: bool,
    pub runs: Vec<Run>,
}

impl Trial {
    /// A replay with no input yet, of whose calls none fails.
    pub fn new(alloc: Global) -> Trial {
        Trial {
            command: Command::Replay,
            properties: None,
            draws: Vec::new(alloc),
            read: PIECE,
            write: PIECE,
            faults: Vec::new(alloc),
            sweep: None,
            faulty: 1,
            keys: Vec::new(alloc),
            names: Vec::new(alloc),
            images: false,
            files: false,
            bodies: false,
            calls: false,
            runs: Vec::new(alloc),
        }
    }

    /// The command of a run.
    pub fn command_of<'a>(&'a self, run: &'a Run) -> &'a Command {
        match &run.command {
            Some(command) => command,
            None => &self.command,
        }
    }

    /// Which of these faults the run after this many runs has.
    pub fn faults_after<'a>(&self, before: usize, faults: &'a [FaultAt]) -> &'a [FaultAt] {
        if before == self.faulty.saturating_sub(1) {
            faults
        } else {
            &[]
        }
    }

    /// The runs on the disk that the trial begins with, and the run that is made on each image that a
    /// crash may leave of it, if there is one.
    pub fn parts(&self) -> (&[Run], Option<&Run>) {
        let runs = self.runs.as_slice();
        if !self.images {
            return (runs, None);
        }
        match runs.split_last() {
            Some((last, before)) => (before, Some(last)),
            None => (runs, None),
        }
    }
}
