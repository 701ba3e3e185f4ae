//! A vault in memory whose calls fail by a plan.
ghost use Rattle.std.specs.Prelude.{◌≡◌, ◌≤◌, length, IfSome};
ghost use Rattle.hk_base.specs.Faults.{Rose};
ghost use Rattle.body_kinds.specs.Opaque.{opaque_vault};

use crate::calls::{Calls, Course};
use crate::trial::{FaultAt, Part};
use body_stream::Vault;
use hk_base::Failed;
use std::alloc::{AllocError, Global};

/// A body that has bytes.
#[derive(Drop)]
pub struct TrialBody {
    pub id: u64,
    pub bytes: Vec<u8>,
}

/// Bodies in memory. A write that fails appends the first half of its bytes; a call after a stop does
/// nothing. As in a folder of bodies, a write at another place than the end of the body is a fault, and
/// a read may give fewer bytes than there are. A proof knows nothing of the bodies.
#[derive(Drop)]
pub struct TrialVault<'a> {
    alloc: Global,
    bodies: Vec<TrialBody>,
    most: usize,
    calls: Calls<'a>,
    faults: u64,
}

impl<'a> TrialVault<'a> {
    /// A vault without bodies, of whose calls none fails. A read gives at most `most` bytes.
    pub fn new(alloc: Global, most: usize) -> TrialVault<'a> {
        TrialVault {
            alloc,
            bodies: Vec::new(alloc),
            most: most.max(1),
            calls: Calls::new(Part::Vault, &[]),
            faults: 0,
        }
    }

    /// Begins to count the calls anew. Those with one of these faults fail.
    pub fn plan(&mut self, faults: &'a [FaultAt]) {
        self.calls = Calls::new(Part::Vault, faults);
    }

    /// How many calls were made.
    pub fn calls(&self) -> u64 {
        self.calls.made()
    }

    /// The bodies, in the order in which they were begun.
    pub fn bodies(&self) -> &[TrialBody] {
        self.bodies.as_slice()
    }

    /// A vault with the same bodies, of whose calls none fails.
    pub fn copy(&self) -> Result<TrialVault<'static>, AllocError> {
        let mut copy = TrialVault::new(self.alloc, self.most);
        for body in self.bodies.iter() {
            copy.append(body.id, body.bytes.as_slice())?;
        }
        Ok(copy)
    }

    /// The bytes of a body.
    fn bytes(&self, id: u64) -> &[u8] {
        match self.bodies.iter().find(|body| body.id == id) {
            Some(body) => body.bytes.as_slice(),
            None => b"",
        }
    }

    /// Counts a fault.
    fn fault(&mut self) -> Failed
        ensures rose { Rose self.old.faults self.new.faults }
        ensures later { self.old.faults ≤ self.new.faults }
    {
        self.faults = self.faults.saturating_add(1);
        Failed
    }

    /// Counts a call of the vault. It answers how the call goes.
    fn course(&mut self) -> Course
        ensures { self.new.faults ≡ self.old.faults }
    {
        self.calls.call()
    }

    /// Appends to a body. A body without bytes isn't kept.
    fn append(&mut self, id: u64, bytes: &[u8]) -> Result<(), AllocError>
        ensures { self.new.faults ≡ self.old.faults }
    {
        if bytes.is_empty() {
            return Ok(());
        }
        if let Some(body) = self.bodies.iter_mut().find(|body| body.id == id) {
            return body.bytes.extend_from_slice(bytes);
        }
        let bytes = bytes.to_vec(self.alloc)?;
        self.bodies.push(TrialBody { id, bytes })?;
        Ok(())
    }

    /// Copies bytes of a body from its byte `at` on, and returns how many, or `None` if the body ends
    /// before.
    fn copy_rest(&self, id: u64, at: u64, buf: &mut [u8]) -> Option<usize>
        ensures { IfSome result (λ n. n ≤ length buf.new) }
    {
        let bytes = self.bytes(id);
        if at > bytes.len() as u64 {
            return None;
        }
        let rest = &bytes[at as usize..];
        let count = rest.len().min(buf.len()).min(self.most);
        let (front, _) = buf.split_at_mut(count);
        front.copy_from_slice(&rest[..count]);
        Some(count)
    }

    /// Appends as much as the course of a call lets it. It answers whether that is all.
    fn append_planned(&mut self, id: u64, bytes: &[u8]) -> bool
        ensures { self.new.faults ≡ self.old.faults }
    {
        match self.course() {
            Course::Works => self.append(id, bytes).is_ok(),
            Course::Fails => {
                let _ = self.append(id, &bytes[..bytes.len() / 2]);
                false
            }
            Course::Gone => false,
        }
    }
}

impl Vault for TrialVault<'_> {
    ghost state = { λ v. opaque_vault v.faults };

    fn size(&mut self, id: u64) -> Result<u64, Failed> {
        let course = self.course();
        if course != Course::Works {
            return Err(self.fault());
        }
        Ok(self.bytes(id).len() as u64)
    }

    fn write(&mut self, id: u64, at: u64, bytes: &[u8]) -> Result<(), Failed> {
        if at != self.bytes(id).len() as u64 {
            return Err(self.fault());
        }
        if self.append_planned(id, bytes) {
            Ok(())
        } else {
            Err(self.fault())
        }
    }

    fn read(&mut self, id: u64, at: u64, buf: &mut [u8]) -> Result<usize, Failed> {
        let course = self.course();
        if course != Course::Works {
            return Err(self.fault());
        }
        match self.copy_rest(id, at, buf) {
            Some(count) => Ok(count),
            None => Err(self.fault()),
        }
    }
}
