//! A source, a sink, words and a clock for a trial.
ghost use Rattle.std.specs.Prelude.{◌≤◌, None, slice_index};
ghost use Rattle.hk_base.specs.Faults.{Rose};

use crate::calls::{Calls, Course};
use disk_kinds::{ListWords, MemSink, MemSource};
use hk_base::{Clock, Failed, Sink, Source, Words};
use std::alloc::Global;

/// Bytes that are read in pieces, by calls of which some may fail.
#[derive(Drop)]
pub struct TrialSource<'a> {
    bytes: MemSource,
    calls: Calls<'a>,
    faults: u64,
}

impl<'a> TrialSource<'a> {
    /// A source of which a read gives at most `most` bytes.
    pub fn new(alloc: Global, bytes: Vec<u8>, most: usize, calls: Calls<'a>) -> TrialSource<'a> {
        TrialSource {
            bytes: MemSource::new(bytes, most.max(1), Vec::new(alloc)),
            calls,
            faults: 0,
        }
    }

    /// How many reads were made.
    pub fn calls(&self) -> u64 {
        self.calls.made()
    }

    fn fault(&mut self) -> Failed
        ensures rose { Rose self.old.faults self.new.faults }
        ensures later { self.old.faults ≤ self.new.faults }
    {
        self.faults = self.faults.saturating_add(1);
        Failed
    }
}

impl Source for TrialSource<'_> {
    ghost left = { λ s. None };

    ghost faults = { λ s. s.faults };

    fn read(&mut self, buf: &mut [u8]) -> Result<usize, Failed> {
        let course = self.calls.call();
        if course != Course::Works {
            return Err(self.fault());
        }
        match self.bytes.read(buf) {
            Ok(count) => Ok(count),
            Err(_) => Err(self.fault()),
        }
    }
}

/// Bytes that are written in pieces, by calls of which some may fail.
#[derive(Drop)]
pub struct TrialSink<'a> {
    bytes: MemSink,
    calls: Calls<'a>,
    faults: u64,
}

impl<'a> TrialSink<'a> {
    /// A sink of which a write takes at most `most` bytes.
    pub fn new(alloc: Global, most: usize, calls: Calls<'a>) -> TrialSink<'a> {
        TrialSink {
            bytes: MemSink::new(alloc, most.max(1), Vec::new(alloc)),
            calls,
            faults: 0,
        }
    }

    /// How many writes were made.
    pub fn calls(&self) -> u64 {
        self.calls.made()
    }

    pub fn as_slice(&self) -> &[u8] {
        self.bytes.as_slice()
    }

    fn fault(&mut self) -> Failed
        ensures rose { Rose self.old.faults self.new.faults }
        ensures later { self.old.faults ≤ self.new.faults }
    {
        self.faults = self.faults.saturating_add(1);
        Failed
    }
}

impl Sink for TrialSink<'_> {
    ghost written = { λ s. None };

    ghost faults = { λ s. s.faults };

    fn write(&mut self, bytes: &[u8]) -> Result<usize, Failed> {
        let course = self.calls.call();
        if course != Course::Works {
            return Err(self.fault());
        }
        match self.bytes.write(bytes) {
            Ok(count) => {
                if count == 0 {
                    let _ = self.fault();
                }
                Ok(count)
            }
            Err(_) => Err(self.fault()),
        }
    }
}

/// The words of a list, then zeros, with a count of those that were drawn.
#[derive(Drop)]
pub struct CountedWords {
    words: ListWords,
    drawn: usize,
}

impl CountedWords {
    pub fn new(words: Vec<u32>) -> CountedWords {
        CountedWords {
            words: ListWords::new(words),
            drawn: 0,
        }
    }

    /// How many words were drawn.
    pub fn drawn(&self) -> usize {
        self.drawn
    }
}

impl Words for CountedWords {
    ghost to_come = { λ w k. slice_index w.words k };

    fn word(&mut self) -> u32 {
        self.drawn = self.drawn.saturating_add(1);
        self.words.word()
    }
}

/// A clock at noon of the first day of 1970.
#[derive(Drop)]
pub struct Noon;

impl Clock for Noon {
    fn now_ms(&mut self) -> u64 {
        12 * 3_600_000
    }
}
