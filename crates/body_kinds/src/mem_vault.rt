//! A vault in memory.
ghost use Rattle.std.specs.Prelude.{◌≡◌, ◌↔◌, ◌≤◌, ◌-◌, ℕ, [], min, length, take, IfOk, IsErr, OnErr, OnOk};
ghost use Rattle.hk_base.specs.Disk.{piece};
ghost use Rattle.hk_base.specs.Faults.{HasCause};
ghost use Rattle.disk_kinds.specs.Fakes.{CallMade, FollowsPlan, NextFails};
ghost use Rattle.body_stream.specs.Vaults.{GrowsBody, GrowsInPart, KeepsBodies};
ghost use Rattle.body_kinds.specs.MemVaults.{body_of, mem_state, plan_of};

use crate::shelf::{Body, append, bytes_of};
use body_stream::Vault;
use disk_kinds::CallPlan;
use hk_base::Failed;
use std::alloc::Global;

/// Bodies in memory, with a plan of the calls that fail.
#[derive(Drop)]
pub struct MemVault {
    alloc: Global,
    bodies: Vec<Body>,
    plan: CallPlan,
}

impl MemVault {
    /// Creates a vault without bodies. The calls whose numbers, counted from 1, are in `failing` fail.
    /// So does a write whose allocation fails, which is counted apart. A call that fails changes no
    /// body.
    pub fn new(alloc: Global, failing: Vec<u64>) -> MemVault
        ensures bodies { (id : ℕ) → body_of result id ≡ [] }
        ensures failing { (plan_of result).failing ≡ failing.items }
        ensures made { (plan_of result).made ≡ 0 }
        ensures faults { (plan_of result).faults ≡ 0 }
        ensures shortages { (plan_of result).shortages ≡ 0 }
    {
        MemVault {
            alloc,
            bodies: Vec::new(alloc),
            plan: CallPlan::new(failing),
        }
    }

    /// Returns the bytes of a body.
    pub fn bytes(&self, id: u64) -> &[u8]
        ensures { result.now ≡ body_of self.now id }
    {
        bytes_of(&self.bodies, id)
    }

    /// Returns the number of calls made, up to 2^64 - 1.
    pub fn made(&self) -> u64
        ensures { result ≡ (plan_of self.now).made }
    {
        self.plan.made()
    }

    /// Returns the number of calls that failed, up to 2^64 - 1.
    pub fn faults(&self) -> u64
        ensures { result ≡ (plan_of self.now).faults }
    {
        self.plan.faults()
    }

    /// Returns the number of writes that failed for want of memory, up to 2^64 - 1.
    pub fn shortages(&self) -> u64
        ensures { result ≡ (plan_of self.now).shortages }
    {
        self.plan.shortages()
    }
}

impl Vault for MemVault {
    ghost state = { λ v. mem_state v };

    fn size(&mut self, id: u64) -> Result<u64, Failed>
        ensures answer { IfOk result (λ n. n ≡ length (body_of self.old id)) }
        ensures same { KeepsBodies (mem_state self.old) (mem_state self.new) }
        ensures listed { IsErr result ↔ NextFails (plan_of self.old) }
        ensures plan { CallMade (plan_of self.old) (plan_of self.new) result }
        ensures cause { HasCause (plan_of self.old).faults (plan_of self.new).faults result }
    {
        self.plan.call()?;
        Ok(self.bytes(id).len() as u64)
    }

    #[tactic(auto, using(crate::proofs::ShelfLemmas::nothing_grew))]
    fn write(&mut self, id: u64, _at: u64, bytes: &[u8]) -> Result<(), Failed>
        ensures written { OnOk result (GrowsBody id bytes.now (body_of self.old) (body_of self.new)) }
        ensures kept { OnErr result (body_of self.new ≡ body_of self.old) }
        ensures torn { OnErr result
            (GrowsInPart id bytes.now (body_of self.old) (body_of self.new)) }
        ensures plan { FollowsPlan (plan_of self.old) (plan_of self.new) result }
        ensures cause { HasCause (plan_of self.old).faults (plan_of self.new).faults result }
    {
        self.plan.call()?;
        match append(self.alloc, &mut self.bodies, id, bytes) {
            Ok(()) => Ok(()),
            Err(_) => Err(self.plan.shortage()),
        }
    }

    fn read(&mut self, id: u64, at: u64, buf: &mut [u8]) -> Result<usize, Failed>
        requires place { at ≤ length (body_of self.old id) }
        ensures count { IfOk result
            (λ n. n ≡ min (length buf.new) (length (body_of self.old id) - at)) }
        ensures bytes { IfOk result (λ n. take n buf.new ≡ piece at n (body_of self.old id)) }
        ensures same { KeepsBodies (mem_state self.old) (mem_state self.new) }
        ensures listed { IsErr result ↔ NextFails (plan_of self.old) }
        ensures plan { CallMade (plan_of self.old) (plan_of self.new) result }
        ensures cause { HasCause (plan_of self.old).faults (plan_of self.new).faults result }
    {
        self.plan.call()?;
        let rest = &self.bytes(id)[at as usize..];
        let count = rest.len().min(buf.len());
        let (front, _) = buf.split_at_mut(count);
        front.copy_from_slice(&rest[..count]);
        Ok(count)
    }
}
