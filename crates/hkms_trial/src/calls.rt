//! Which calls of a part fail.
use crate::trial::{Fault, FaultAt, Part};

/// How a call goes.
#[derive(Clone, Copy, PartialEq, Eq)]
pub enum Course {
    Works,
    /// It fails, and may have done a part of its work.
    Fails,
    /// A call before it stopped the part: it does nothing.
    Gone,
}

/// Counts the calls of a part, up to 2^64 - 1, and says how each goes.
#[derive(Drop)]
pub struct Calls<'a> {
    part: Part,
    faults: &'a [FaultAt],
    made: u64,
    stopped: bool,
}

impl<'a> Calls<'a> {
    /// The calls of a part, of which those with one of these faults fail.
    pub fn new(part: Part, faults: &'a [FaultAt]) -> Calls<'a> {
        Calls {
            part,
            faults,
            made: 0,
            stopped: false,
        }
    }

    /// How many calls were made.
    pub fn made(&self) -> u64 {
        self.made
    }

    fn is_hit(&self, wanted: Fault) -> bool {
        for at in self.faults {
            if at.part == self.part && at.fault == wanted && at.call == self.made {
                return true;
            }
        }
        false
    }

    /// Counts a call.
    pub fn call(&mut self) -> Course {
        self.made = self.made.saturating_add(1);
        if self.stopped {
            return Course::Gone;
        }
        self.stopped = self.is_hit(Fault::Stop);
        if self.stopped || self.is_hit(Fault::Fail) {
            return Course::Fails;
        }
        Course::Works
    }
}
