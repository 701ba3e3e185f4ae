//! A disk of two files in memory whose calls fail by a plan.
ghost use Rattle.std.specs.Prelude.{◌≤◌};
ghost use Rattle.hk_base.specs.Faults.{Rose};
ghost use Rattle.disk_kinds.specs.Opaque.{opaque};

use crate::calls::{Calls, Course};
use crate::file::TrialFile;
use crate::trial::{FaultAt, Part};
use hk_base::{Disk, Failed, LONGEST_FILE};
use std::alloc::Global;

/// Two files in memory. A write that fails writes the first half of its bytes; a call after a stop
/// does nothing. A proof knows nothing of their content.
#[derive(Drop)]
pub struct TrialDisk<'a> {
    keys: TrialFile,
    names: TrialFile,
    calls: Calls<'a>,
    faults: u64,
}

impl<'a> TrialDisk<'a> {
    /// A disk with these files, synced, of whose calls none fails.
    pub fn new(alloc: Global, keys: Vec<u8>, names: Vec<u8>) -> TrialDisk<'a> {
        TrialDisk {
            keys: TrialFile::new(alloc, keys),
            names: TrialFile::new(alloc, names),
            calls: Calls::new(Part::Disk, &[]),
            faults: 0,
        }
    }

    /// Begins to count the calls anew. Those with one of these faults fail.
    pub fn plan(&mut self, faults: &'a [FaultAt]) {
        self.calls = Calls::new(Part::Disk, faults);
    }

    /// How many calls were made.
    pub fn calls(&self) -> u64 {
        self.calls.made()
    }

    pub fn keys(&self) -> &TrialFile {
        &self.keys
    }

    pub fn names(&self) -> &TrialFile {
        &self.names
    }

    fn file(&self, file: u8) -> &TrialFile {
        if file == 0 { &self.keys } else { &self.names }
    }

    /// How many bytes a file has.
    fn size(&self, file: u8) -> u64 {
        self.file(file).as_slice().len() as u64
    }

    /// Counts a fault.
    fn fault(&mut self) -> Failed
        ensures rose { Rose self.old.faults self.new.faults }
        ensures later { self.old.faults ≤ self.new.faults }
    {
        self.faults = self.faults.saturating_add(1);
        Failed
    }

    /// Writes to a file. It answers whether it did.
    fn write_file(&mut self, file: u8, at: u64, bytes: &[u8]) -> bool
        ensures same { self.old.faults ≤ self.new.faults }
    {
        let at = at as usize;
        if file == 0 {
            self.keys.write(at, bytes).is_ok()
        } else {
            self.names.write(at, bytes).is_ok()
        }
    }

    /// Cuts a file. It answers whether it did.
    fn cut_file(&mut self, file: u8, len: u64) -> bool
        ensures same { self.old.faults ≤ self.new.faults }
    {
        let len = len as usize;
        if file == 0 {
            self.keys.cut(len).is_ok()
        } else {
            self.names.cut(len).is_ok()
        }
    }

    /// Counts a call of the disk. It answers how the call goes.
    fn course(&mut self) -> Course
        ensures same { self.old.faults ≤ self.new.faults }
    {
        self.calls.call()
    }

    /// Counts a write, and writes as much of it as its course lets it. It answers whether that is all.
    fn write_planned(&mut self, file: u8, at: u64, bytes: &[u8]) -> bool
        ensures same { self.old.faults ≤ self.new.faults }
    {
        match self.course() {
            Course::Works => self.write_file(file, at, bytes),
            Course::Fails => {
                let _ = self.write_file(file, at, &bytes[..bytes.len() / 2]);
                false
            }
            Course::Gone => false,
        }
    }

    /// Counts a cut, and makes it if its course lets it. It answers whether it did.
    fn cut_planned(&mut self, file: u8, len: u64) -> bool
        ensures same { self.old.faults ≤ self.new.faults }
    {
        match self.course() {
            Course::Works => self.cut_file(file, len),
            _ => false,
        }
    }

    /// Makes what a file reads as what a crash leaves.
    fn sync_file(&mut self, file: u8)
        ensures same { self.old.faults ≤ self.new.faults }
    {
        if file == 0 {
            self.keys.sync();
        } else {
            self.names.sync();
        }
    }
}

impl Disk for TrialDisk<'_> {
    ghost state = { λ d. opaque d.faults };

    ghost counts_now = { λ d t c le now. tt };

    ghost only_now = { λ d c left f lt. tt };

    ghost is_one = { λ d f tells lt. Prim.cc tells };

    ghost bounded = { λ d f tells lt. Prim.cc tells };

    ghost later_leaves_less = { λ d s t c le left. left };

    fn len(&mut self, file: u8) -> Result<u64, Failed> {
        let course = self.course();
        let size = self.size(file);
        if course != Course::Works || size > LONGEST_FILE {
            return Err(self.fault());
        }
        Ok(size)
    }

    fn read(&mut self, file: u8, at: u64, buf: &mut [u8]) -> Result<usize, Failed> {
        let course = self.course();
        if course != Course::Works || at > self.size(file) {
            return Err(self.fault());
        }
        Ok(self.file(file).read(at as usize, buf))
    }

    #[tactic(auto, using(disk_kinds::proofs::OpaqueLemmas::opaque_torn))]
    fn write_at(&mut self, file: u8, at: u64, bytes: &[u8]) -> Result<(), Failed> {
        let size = bytes.len() as u64;
        if at > self.size(file) || at > LONGEST_FILE || size > LONGEST_FILE - at {
            return Err(self.fault());
        }
        if self.write_planned(file, at, bytes) {
            Ok(())
        } else {
            Err(self.fault())
        }
    }

    #[tactic(auto, using(disk_kinds::proofs::OpaqueLemmas::opaque_cut))]
    fn cut(&mut self, file: u8, len: u64) -> Result<(), Failed> {
        if len > self.size(file) {
            return Err(self.fault());
        }
        if self.cut_planned(file, len) {
            Ok(())
        } else {
            Err(self.fault())
        }
    }

    fn sync(&mut self, file: u8) -> Result<(), Failed> {
        let course = self.course();
        if course != Course::Works {
            return Err(self.fault());
        }
        self.sync_file(file);
        Ok(())
    }
}
