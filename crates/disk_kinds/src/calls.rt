//! The calls of an object in memory that fail by plan.
ghost use Rattle.std.specs.Prelude.{◌≡◌, ◌≤◌, ◌↔◌, IsErr};
ghost use Rattle.hk_base.specs.Faults.{HasCause};
ghost use Rattle.disk_kinds.specs.Fakes.{CallMade, NextFails, counted};

use hk_base::Failed;
use std::marker::Model;

/// Which calls of a source, a sink or a disk in memory fail, by their numbers counted from 1. It
/// counts the calls made, the faults, and the faults for want of memory, each up to 2^64 - 1.
#[derive(Drop)]
pub struct CallPlan {
    failing: Vec<u64>,
    made: u64,
    faults: u64,
    shortages: u64,
}

impl Model for CallPlan {
    ghost use Rattle.disk_kinds.specs.Fakes.{Plan};

    ghost Value = { Plan };

    ghost view = { λ p.
        record {
          failing = p.failing.items;
          made = p.made;
          faults = p.faults;
          shortages = p.shortages;
        } };
}

impl CallPlan {
    /// Creates a plan with no call made yet.
    pub fn new(failing: Vec<u64>) -> CallPlan
        ensures failing { result.failing ≡ failing.items }
        ensures made { result.made ≡ 0 }
        ensures faults { result.faults ≡ 0 }
        ensures shortages { result.shortages ≡ 0 }
    {
        CallPlan {
            failing,
            made: 0,
            faults: 0,
            shortages: 0,
        }
    }

    /// Counts a call. Returns `Failed` and counts a fault if the call's number is in the plan.
    pub fn call(&mut self) -> Result<(), Failed>
        ensures listed { IsErr result ↔ NextFails self.old }
        ensures plan { CallMade self.old self.new result }
        ensures shortages { self.new.shortages ≡ self.old.shortages }
        ensures cause { HasCause self.old.faults self.new.faults result }
    {
        self.made = self.made.saturating_add(1);
        if self.failing.contains(&self.made) {
            self.faults = self.faults.saturating_add(1);
            return Err(Failed);
        }
        Ok(())
    }

    /// Counts a fault for want of memory.
    pub fn shortage(&mut self) -> Failed
        ensures failing { self.new.failing ≡ self.old.failing }
        ensures made { self.new.made ≡ self.old.made }
        ensures faults { self.new.faults ≡ counted self.old.faults }
        ensures shortages { self.new.shortages ≡ counted self.old.shortages }
        ensures later { self.old.faults ≤ self.new.faults }
    {
        self.faults = self.faults.saturating_add(1);
        self.shortages = self.shortages.saturating_add(1);
        Failed
    }

    /// Returns the number of calls made, up to 2^64 - 1.
    pub fn made(&self) -> u64
        ensures { result ≡ self.now.made }
    {
        self.made
    }

    /// Returns the number of calls that failed, up to 2^64 - 1.
    pub fn faults(&self) -> u64
        ensures { result ≡ self.now.faults }
    {
        self.faults
    }

    /// Returns the number of calls that failed for want of memory, up to 2^64 - 1.
    pub fn shortages(&self) -> u64
        ensures { result ≡ self.now.shortages }
    {
        self.shortages
    }
}
