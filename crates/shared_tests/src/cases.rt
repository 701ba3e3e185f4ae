//! What the tests do with the services in their cells.
use crate::callers::Caller;
use crate::gates::{Change, ChangingGate, OpenGate};
use crate::zones::OpenedFile;
use name_calls::Delivered;
use std::process::Abort;
use std::sync::Wait;
use turns::Turns;

/// The files of one batch.
const THREE: [&str; 3] = ["/z/a", "/z/b", "/z/c"];

/// The files of two batches.
const SIX: [&str; 6] = ["/z/a", "/z/b", "/z/c", "/z/d", "/z/e", "/z/f"];

/// What is done with the zone. Except for `Read`, the zone is made with files, the key is rolled, and the
/// re-encryption of the zone is submitted first.
#[derive(Clone, Copy)]
pub enum Case {
    /// The batch of three files is delivered through a gate at which something changes.
    Changed(Change),
    /// Two batches of three files each are delivered, the second one first.
    EitherOrder,
    /// The batch of three files is delivered with another front than that of its walk.
    OtherFront,
    /// The six files are read.
    Read,
}

/// The files, each with its encrypted key opened, and the id of the last re-encryption of the zone.
#[derive(Drop)]
pub struct Zone {
    pub files: Vec<OpenedFile>,
    pub session: u64,
}

/// What came of a case.
#[derive(Drop)]
pub struct Outcome {
    /// The zone when its re-encryption was submitted.
    pub before: Zone,
    /// The answers to the first two deliveries.
    pub answers: [Option<Delivered>; 2],
    /// The zone at the end.
    pub after: Zone,
    /// The number of the current version of the key at the end.
    pub current: u16,
    /// The number of outstanding batches at the end, or `None` if a file is left to be walked.
    pub outstanding: Option<u32>,
}

impl<S: Turns, R: Wait + Abort + AllocGlobal> Caller<'_, S, R> {
    fn create_files(&mut self, files: &[&str]) {
        for file in files {
            self.create_file(*file);
        }
    }

    /// Makes the zone with these files, rolls the key, and submits the re-encryption of the zone.
    fn begin(&mut self, files: &[&str]) {
        self.create_zone();
        self.create_files(files);
        self.roll_key();
        self.submit();
    }

    fn zone(&mut self, files: &[&str]) -> Zone {
        let files = self.open_files(files);
        let session = self.last_session();
        Zone { files, session }
    }

    fn changed(&mut self, change: Change) -> [Option<Delivered>; 2] {
        let served = self.serve_next();
        let front = served.front();
        let gate = ChangingGate::new(self.split(), change);
        let answer = self.deliver(served, front, &gate);
        drop(gate);
        [Some(answer), None]
    }

    fn either_order(&mut self) -> [Option<Delivered>; 2] {
        let first = self.serve_next();
        let second = self.serve_next();
        let earlier = self.deliver_as_walked(second);
        let later = self.deliver_as_walked(first);
        [Some(earlier), Some(later)]
    }

    fn other_front(&mut self) -> [Option<Delivered>; 2] {
        let served = self.serve_next();
        assert!(self.rt; served.front() > 0);
        let answer = self.deliver(served, 0, &OpenGate);
        [Some(answer), None]
    }

    fn deliver_case(&mut self, case: Case) -> [Option<Delivered>; 2] {
        match case {
            Case::Changed(change) => self.changed(change),
            Case::EitherOrder => self.either_order(),
            Case::OtherFront => self.other_front(),
            Case::Read => [None, None],
        }
    }

    /// Does what the case says.
    fn run(&mut self, case: Case) -> Outcome {
        let files = files_of(case);
        if !matches!(case, Case::Read) {
            self.begin(files);
        }
        let before = self.zone(files);
        let answers = self.deliver_case(case);
        Outcome {
            before,
            answers,
            after: self.zone(files),
            current: self.current_version(),
            outstanding: self.outstanding(),
        }
    }
}

/// Does what a case says, by these passes. Returns what came of it, and the passes.
pub fn run_case<S: Turns, R: Wait + Abort + AllocGlobal>(
    rt: &R,
    shared: &S,
    keys: S::Keys,
    names: S::Names,
    case: Case,
) -> (Outcome, S::Keys, S::Names) {
    let mut caller = Caller {
        rt,
        shared,
        keys,
        names,
    };
    let outcome = caller.run(case);
    let (keys, names) = caller.into_passes();
    (outcome, keys, names)
}

fn files_of(case: Case) -> &'static [&'static str] {
    match case {
        Case::Changed(_) | Case::OtherFront => &THREE,
        Case::EitherOrder | Case::Read => &SIX,
    }
}
