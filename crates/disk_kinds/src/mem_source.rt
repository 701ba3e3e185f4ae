//! A source in memory.
ghost use Rattle.std.specs.Prelude.{◌≡◌, ◌↔◌, ◌+◌, ◌<◌, ◌^◌, ◌-◌, min, length, Some, IfOk, IsErr};
ghost use Rattle.std.specs.Io.{ReadsAtMost};
ghost use Rattle.std.specs.Io.KnownBytes.{ReadConsumes};
ghost use Rattle.hk_base.specs.Faults.{HasCause};
ghost use Rattle.disk_kinds.specs.Fakes.{CallMade, NextFails};

use crate::calls::CallPlan;
use crate::pieces::copy_front;
use hk_base::{Failed, Source};
use server_parts::CloseInput;
use std::marker::Model;

/// A source of bytes in memory, with a plan of the calls that fail.
#[derive(Drop)]
pub struct MemSource {
    bytes: Vec<u8>,
    at: usize,
    most: usize,
    plan: CallPlan,
}

impl Model for MemSource {
    ghost use Rattle.std.specs.Prelude.{◌<◌, ◌≤◌, drop, vec_len};
    ghost use Rattle.disk_kinds.specs.Fakes.{Supply};

    ghost Value = { Supply };

    ghost view = { λ s. record { left = drop s.at s.bytes.items; most = s.most; plan = s.plan } };

    ghost invariant = { λ s. (s.at ≤ vec_len s.bytes) × (0 < s.most) };
}

impl MemSource {
    /// Creates a source of these bytes. A read gives at most `most` of them, so that a caller can have
    /// them in pieces. The reads whose numbers, counted from 1, are in `failing` fail and take no bytes.
    pub fn new(bytes: Vec<u8>, most: usize, failing: Vec<u64>) -> MemSource
        requires { 0 < most }
        ensures left { result.left ≡ bytes.items }
        ensures most { result.most ≡ most }
        ensures failing { result.plan.failing ≡ failing.items }
        ensures made { result.plan.made ≡ 0 }
        ensures faults { result.plan.faults ≡ 0 }
    {
        MemSource {
            bytes,
            at: 0,
            most,
            plan: CallPlan::new(failing),
        }
    }

    /// Returns the bytes not yet read.
    pub fn as_slice(&self) -> &[u8]
        ensures { result.now ≡ self.now.left }
    {
        &self.bytes[self.at..]
    }

    /// Returns the number of reads that failed, up to 2^64 - 1.
    pub fn faults(&self) -> u64
        ensures { result ≡ self.now.plan.faults }
    {
        self.plan.faults()
    }
}

impl Source for MemSource {
    ghost left = { λ s. Some s.left };

    ghost faults = { λ s. s.plan.faults };

    fn read(&mut self, buf: &mut [u8]) -> Result<usize, Failed>
        ensures bound { ReadsAtMost result buf.new }
        ensures bytes { ReadConsumes (Some self.old.left) (Some self.new.left) result buf.new }
        ensures cause { HasCause self.old.plan.faults self.new.plan.faults result }
        ensures listed { IsErr result ↔ NextFails self.old.plan }
        ensures count { IfOk result
            (λ n. n ≡ min (min (length self.old.left) (length buf.new)) self.old.most) }
        ensures most { self.new.most ≡ self.old.most }
        ensures plan { CallMade self.old.plan self.new.plan result }
    {
        self.plan.call()?;
        let left = self.bytes.len() - self.at;
        let end = self.at + left.min(self.most);
        let count = copy_front(&self.bytes[self.at..end], buf);
        self.at += count;
        Ok(count)
    }
}

/// Closing does nothing, since no peer waits for it.
impl CloseInput for MemSource {
    fn close_input(&mut self) {}
}
