//! Why a trial file cannot be read.
use std::alloc::{AllocError, AllocFailed};
use std::fmt;

/// A mistake in a line.
#[derive(Clone, Copy)]
pub enum Mistake {
    NoMemory,
    Unknown,
    NoCommand,
    NotUtf8,
    NoNumber,
    NoPart,
    NoDigits,
    SecondSweep,
}

impl From<AllocError> for Mistake {
    fn from(_error: AllocError) -> Mistake {
        Mistake::NoMemory
    }
}

impl<T: Drop> From<AllocFailed<T>> for Mistake {
    fn from(_error: AllocFailed<T>) -> Mistake {
        Mistake::NoMemory
    }
}

impl Mistake {
    fn text(&self) -> &'static str {
        match self {
            Mistake::NoMemory => "out of memory",
            Mistake::Unknown => "unknown directive",
            Mistake::NoCommand => "expected replay, pipe, load N, put or read",
            Mistake::NotUtf8 => "not UTF-8",
            Mistake::NoNumber => "expected a number from 1",
            Mistake::NoPart => "expected input, output, properties, disk or vault",
            Mistake::NoDigits => "expected hex digits",
            Mistake::SecondSweep => "second line `each`",
        }
    }
}

impl fmt::Display for Mistake {
    fn fmt<W: fmt::Write>(&self, f: &mut fmt::Formatter<W>) -> fmt::Result {
        write!(f, "{}", self.text())
    }
}

/// Why a trial file cannot be read.
#[derive(Clone, Copy)]
pub enum TrialFault {
    /// A line, counted from 1, has a mistake.
    Line { number: u64, mistake: Mistake },
    /// The file has no line `input`.
    NoInput,
    /// `images` needs a line `then`.
    ImagesThen,
    /// The run with the faults isn't there.
    NoFaultyRun,
}

impl fmt::Display for TrialFault {
    fn fmt<W: fmt::Write>(&self, f: &mut fmt::Formatter<W>) -> fmt::Result {
        match self {
            TrialFault::Line { number, mistake } => write!(f, "line {number}: {mistake}"),
            TrialFault::NoInput => write!(f, "the file ends without a line `input`"),
            TrialFault::ImagesThen => write!(f, "`images` needs a line `then`"),
            TrialFault::NoFaultyRun => write!(f, "the run with the faults isn't there"),
        }
    }
}
