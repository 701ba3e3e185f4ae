//! A sink in memory.
ghost use Rattle.std.specs.Prelude.{◌≡◌, ◌+◌, ◌<◌, ◌^◌, ◌-◌, [], min, length, Some, IfOk, OnErr};
ghost use Rattle.std.specs.Io.{WritesAtMost};
ghost use Rattle.std.specs.Io.KnownBytes.{WriteAppends};
ghost use Rattle.hk_base.specs.Faults.{HasCause, Rose};
ghost use Rattle.disk_kinds.specs.Fakes.{FollowsPlan, NextFails};

use crate::calls::CallPlan;
use hk_base::{Failed, Sink};
use server_parts::CloseOutput;
use std::alloc::Global;
use std::marker::Model;

/// A sink that collects bytes in memory, with a plan of the calls that fail.
#[derive(Drop)]
pub struct MemSink {
    bytes: Vec<u8>,
    most: usize,
    plan: CallPlan,
}

impl Model for MemSink {
    ghost use Rattle.std.specs.Prelude.{◌<◌, vec_capacity};
    ghost use Rattle.disk_kinds.specs.Fakes.{Collected};

    ghost Value = { Collected };

    ghost view = { λ s.
        record {
          written = s.bytes.items;
          room = vec_capacity s.bytes;
          most = s.most;
          plan = s.plan;
        } };

    ghost invariant = { λ s. 0 < s.most };
}

impl MemSink {
    /// Creates an empty sink. A write takes at most `most` bytes. The writes whose numbers, counted
    /// from 1, are in `failing` fail. So does a write whose allocation fails, which is counted apart. A
    /// write that fails takes nothing.
    pub fn new(alloc: Global, most: usize, failing: Vec<u64>) -> MemSink
        requires { 0 < most }
        ensures written { result.written ≡ [] }
        ensures most { result.most ≡ most }
        ensures failing { result.plan.failing ≡ failing.items }
        ensures made { result.plan.made ≡ 0 }
        ensures faults { result.plan.faults ≡ 0 }
        ensures shortages { result.plan.shortages ≡ 0 }
    {
        MemSink {
            bytes: Vec::new(alloc),
            most,
            plan: CallPlan::new(failing),
        }
    }

    /// Returns the bytes written.
    pub fn as_slice(&self) -> &[u8]
        ensures { result.now ≡ self.now.written }
    {
        self.bytes.as_slice()
    }

    /// Returns the bytes written, as a vector.
    pub fn into_vec(self) -> Vec<u8>
        ensures { result.items ≡ self.written }
    {
        self.bytes
    }

    /// Returns the number of writes that failed, up to 2^64 - 1.
    pub fn faults(&self) -> u64
        ensures { result ≡ self.now.plan.faults }
    {
        self.plan.faults()
    }

    /// Returns the number of writes that failed for want of memory, up to 2^64 - 1.
    pub fn shortages(&self) -> u64
        ensures { result ≡ self.now.plan.shortages }
    {
        self.plan.shortages()
    }
}

impl Sink for MemSink {
    ghost written = { λ s. Some s.written };

    ghost faults = { λ s. s.plan.faults };

    fn write(&mut self, bytes: &[u8]) -> Result<usize, Failed>
        ensures bound { WritesAtMost result bytes.now }
        ensures bytes { WriteAppends (Some self.old.written) (Some self.new.written) result
            bytes.now }
        ensures cause { HasCause self.old.plan.faults self.new.plan.faults result }
        ensures nothing { result ≡ Ok 0 → 0 < length bytes.now →
            Rose self.old.plan.faults self.new.plan.faults }
        ensures room { OnErr result
            (¬ NextFails self.old.plan →
            self.old.room < length self.old.written + min (length bytes.now) self.old.most) }
        ensures count { IfOk result (λ n. n ≡ min (length bytes.now) self.old.most) }
        ensures most { self.new.most ≡ self.old.most }
        ensures plan { FollowsPlan self.old.plan self.new.plan result }
    {
        self.plan.call()?;
        let count = bytes.len().min(self.most);
        match self.bytes.extend_from_slice(&bytes[..count]) {
            Ok(()) => Ok(count),
            Err(_) => Err(self.plan.shortage()),
        }
    }
}

/// Closing does nothing, since no peer waits for it.
impl CloseOutput for MemSink {
    fn close_output(&mut self) {}
}
