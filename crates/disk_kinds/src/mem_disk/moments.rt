//! The calls of a disk in memory.
ghost use Rattle.std.specs.Prelude.{◌≡◌, ◌↔◌, ◌≤◌, ◌<◌, ◌+◌, ◌-◌, ◌^◌, ◌++◌, [], ◌∷◌, min, length, take, drop, OnOk, OnErr, IfOk, IsErr};
ghost use Rattle.std.proofs.Common.{arith, inl, refl};
ghost use Rattle.hk_base.specs.Disk.{CallOn, Cut, Follows, Only, Reads, Torn, piece, written};
ghost use Rattle.disk_kinds.specs.declared.mem_disk.Change.TheVariants.{Written, CutTo};
ghost use Rattle.disk_kinds.specs.Fakes.{CallMade, FollowsPlan, NextFails};
ghost use Rattle.disk_kinds.specs.Past.{FileAt, moment_at, file_at, fresh_file, now_of, past_of, plan_of, state_of, reads_of, leaves_of, the_file, only_image, since_earlier, within, Put, LeftAlone};

use super::{Change, Kept, MemDisk, Moment};
use crate::calls::CallPlan;
use crate::pieces::copy_front;
use hk_base::{Disk, Failed, LONGEST_FILE};
use std::alloc::{AllocError, Global};

impl Kept {
    /// Creates a file that is synced.
    fn fresh(alloc: Global, bytes: Vec<u8>) -> Result<Kept, AllocError>
        requires { length bytes.items ≤ 2 ^ 62 }
        ensures { IfOk result (λ k. file_at k ≡ fresh_file bytes.items) }
    {
        Ok(Kept {
            synced: bytes.to_vec(alloc)?,
            changes: Vec::new(alloc),
            reads: bytes,
        })
    }

    fn copy(&self, alloc: Global) -> Result<Kept, AllocError>
        ensures { IfOk result (λ k. file_at k ≡ file_at self.now) }
    {
        Ok(Kept {
            reads: self.reads.to_vec(alloc)?,
            synced: self.synced.to_vec(alloc)?,
            changes: self.changes.to_vec(alloc)?,
        })
    }
}

impl Moment {
    fn copy(&self, alloc: Global) -> Result<Moment, AllocError>
        ensures { IfOk result (λ m. moment_at m ≡ moment_at self.now) }
    {
        Ok(Moment {
            first: self.first.copy(alloc)?,
            second: self.second.copy(alloc)?,
        })
    }

    fn file(&self, file: u8) -> &Kept
        requires { file < 2 }
        ensures { file_at result.now ≡ the_file (moment_at self.now) file }
    {
        if file == 0 { &self.first } else { &self.second }
    }
}

impl MemDisk {
    /// Creates a disk with these files, both synced. The calls whose numbers, counted from 1, are in
    /// `failing` fail. So does a call whose allocation fails.
    pub fn new(
        alloc: Global,
        first: Vec<u8>,
        second: Vec<u8>,
        failing: Vec<u64>,
    ) -> Result<MemDisk, AllocError>
        requires first { length first.items ≤ 2 ^ 62 }
        requires second { length second.items ≤ 2 ^ 62 }
        ensures files { IfOk result
            (λ d. now_of d ≡
            record { first = fresh_file first.items; second = fresh_file second.items }) }
        ensures past { IfOk result (λ d. past_of d ≡ []) }
        ensures plan { IfOk result
            (λ d. plan_of d ≡
            record { failing = failing.items; made = 0; faults = 0; shortages = 0 }) }
    {
        Ok(MemDisk {
            alloc,
            current: Moment {
                first: Kept::fresh(alloc, first)?,
                second: Kept::fresh(alloc, second)?,
            },
            past: Vec::new(alloc),
            plan: CallPlan::new(failing),
        })
    }

    /// Returns the current content of a file.
    pub fn bytes(&self, file: u8) -> &[u8]
        requires { file < 2 }
        ensures { result.now ≡ (the_file (now_of self.now) file).reads }
    {
        self.current.file(file).reads.as_slice()
    }

    /// Returns the content of a file at its last sync.
    pub fn synced(&self, file: u8) -> &[u8]
        requires { file < 2 }
        ensures { result.now ≡ (the_file (now_of self.now) file).synced }
    {
        self.current.file(file).synced.as_slice()
    }

    /// Returns the number of calls made, up to 2^64 - 1.
    pub fn calls(&self) -> u64
        ensures { result ≡ (plan_of self.now).made }
    {
        self.plan.made()
    }

    /// Returns the number of calls that failed, up to 2^64 - 1.
    pub fn faults(&self) -> u64
        ensures { result ≡ (plan_of self.now).faults }
    {
        self.plan.faults()
    }

    /// Returns the number of calls that failed for want of memory, up to 2^64 - 1.
    pub fn shortages(&self) -> u64
        ensures { result ≡ (plan_of self.now).shortages }
    {
        self.plan.shortages()
    }

    /// Replaces a file and records the moment before.
    fn put(&mut self, file: u8, next: Kept) -> Result<(), AllocError>
        requires { file < 2 }
        ensures ok { OnOk result
            (Put file (file_at next) (now_of self.old) (now_of self.new) (past_of self.old)
            (past_of self.new)) }
        ensures err { OnErr result
            (LeftAlone (now_of self.old) (now_of self.new) (past_of self.old) (past_of self.new)) }
        ensures plan { plan_of self.new ≡ plan_of self.old }
    {
        self.past.push(self.current.copy(self.alloc)?)?;
        if file == 0 {
            self.current.first = next;
        } else {
            self.current.second = next;
        }
        Ok(())
    }

    /// Writes a prefix of a write of `size` bytes. If allocation fails, or if the file would become
    /// longer than 2^62 bytes, which no memory holds, nothing is written.
    fn write_part(&mut self, file: u8, at: u64, part: &[u8], size: u64) -> Result<(), AllocError>
        requires file { file < 2 }
        requires place { at ≤ length ((the_file (now_of self.old) file).reads) }
        requires part { length part.now ≤ size }
        ensures limit { OnOk result (at + size ≤ 2 ^ 62) }
        ensures ok { let old = the_file (now_of self.old) file in OnOk result
            (Put file
            (record {
              reads = written at part.now old.reads;
              synced = old.synced;
              changes = old.changes ++ Written at size ∷ [];
            })
            (now_of self.old) (now_of self.new) (past_of self.old) (past_of self.new)) }
        ensures err { OnErr result
            (LeftAlone (now_of self.old) (now_of self.new) (past_of self.old) (past_of self.new)) }
        ensures plan { plan_of self.new ≡ plan_of self.old }
    {
        if at > LONGEST_FILE || size > LONGEST_FILE - at {
            return Err(AllocError);
        }
        let old = self.current.file(file);
        let reads = overwritten(self.alloc, &old.reads, at, part)?;
        let mut changes = old.changes.to_vec(self.alloc)?;
        changes.push(Change::Written { at, size })?;
        let synced = old.synced.to_vec(self.alloc)?;
        self.put(
            file,
            Kept {
                reads,
                synced,
                changes,
            },
        )
    }

    /// Shortens a file. If allocation fails, the file is unchanged.
    fn cut_to(&mut self, file: u8, size: u64) -> Result<(), AllocError>
        requires file { file < 2 }
        requires place { size ≤ length ((the_file (now_of self.old) file).reads) }
        ensures ok { let old = the_file (now_of self.old) file in OnOk result
            (Put file
            (record {
              reads = take size old.reads;
              synced = old.synced;
              changes = old.changes ++ CutTo size ∷ [];
            })
            (now_of self.old) (now_of self.new) (past_of self.old) (past_of self.new)) }
        ensures err { OnErr result
            (LeftAlone (now_of self.old) (now_of self.new) (past_of self.old) (past_of self.new)) }
        ensures plan { plan_of self.new ≡ plan_of self.old }
    {
        let old = self.current.file(file);
        let reads = old.reads[..size as usize].to_vec(self.alloc)?;
        let mut changes = old.changes.to_vec(self.alloc)?;
        changes.push(Change::CutTo { size })?;
        let synced = old.synced.to_vec(self.alloc)?;
        self.put(
            file,
            Kept {
                reads,
                synced,
                changes,
            },
        )
    }

    /// Marks the content of a file as synced. If allocation fails, nothing changes.
    fn make_synced(&mut self, file: u8) -> Result<(), AllocError>
        requires { file < 2 }
        ensures ok { OnOk result
            (Put file (fresh_file ((the_file (now_of self.old) file).reads)) (now_of self.old)
            (now_of self.new) (past_of self.old) (past_of self.new)) }
        ensures err { OnErr result
            (LeftAlone (now_of self.old) (now_of self.new) (past_of self.old) (past_of self.new)) }
        ensures plan { plan_of self.new ≡ plan_of self.old }
    {
        let bytes = self.current.file(file).reads.to_vec(self.alloc)?;
        let next = Kept::fresh(self.alloc, bytes)?;
        self.put(file, next)
    }
}

/// Returns the content of a file after a write.
fn overwritten(alloc: Global, old: &[u8], at: u64, bytes: &[u8]) -> Result<Vec<u8>, AllocError>
    requires { at ≤ length old.now }
    ensures { IfOk result (λ v. v.items ≡ written at bytes.now old.now) }
{
    let begin = at as usize;
    let mut new = old[..begin].to_vec(alloc)?;
    new.extend_from_slice(bytes)?;
    if bytes.len() < old.len() - begin {
        new.extend_from_slice(&old[begin + bytes.len()..])?;
    }
    Ok(new)
}

impl Disk for MemDisk {
    ghost state = { λ d. state_of d };

    ghost counts_now = { λ d t c le now. inl now };

    ghost only_now = { λ d c left. only_image (now_of d) (past_of d) c left };

    ghost is_one = { λ d f tells lt. inl refl };

    ghost bounded = { λ d f tells lt. within d f lt };

    ghost later_leaves_less = { λ d s t c le left.
        since_earlier (now_of d) (past_of d) s t c (Prim.omega arith) left };

    fn len(&mut self, file: u8) -> Result<u64, Failed>
        requires { file < 2 }
        ensures listed { IsErr result ↔ NextFails (plan_of self.old) }
        ensures plan { CallMade (plan_of self.old) (plan_of self.new) result }
        ensures size { IfOk result (λ n. n ≡ length (reads_of self.old file)) }
        ensures kept { LeftAlone (now_of self.old) (now_of self.new) (past_of self.old)
            (past_of self.new) }
        ensures call { CallOn file (state_of self.old) (state_of self.new) }
    {
        match self.plan.call() {
            Ok(()) => Ok(self.current.file(file).reads.len() as u64),
            Err(failed) => Err(failed),
        }
    }

    fn read(&mut self, file: u8, at: u64, buf: &mut [u8]) -> Result<usize, Failed>
        requires file { file < 2 }
        requires place { at ≤ length (reads_of self.old file) }
        ensures listed { IsErr result ↔ NextFails (plan_of self.old) }
        ensures plan { CallMade (plan_of self.old) (plan_of self.new) result }
        ensures count { IfOk result
            (λ n. n ≡ min (length buf.new) (length (reads_of self.old file) - at)) }
        ensures bytes { IfOk result (λ n. take n buf.new ≡ piece at n (reads_of self.old file)) }
        ensures rest { IfOk result (λ n. drop n buf.new ≡ drop n buf.old) }
        ensures kept { LeftAlone (now_of self.old) (now_of self.new) (past_of self.old)
            (past_of self.new) }
        ensures call { CallOn file (state_of self.old) (state_of self.new) }
    {
        self.plan.call()?;
        Ok(copy_front(&self.current.file(file).reads[at as usize..], buf))
    }

    fn write_at(&mut self, file: u8, at: u64, bytes: &[u8]) -> Result<(), Failed>
        requires file { file < 2 }
        requires place { at ≤ length (reads_of self.old file) }
        ensures plan { FollowsPlan (plan_of self.old) (plan_of self.new) result }
        ensures written { OnOk result
            (reads_of self.new file ≡ written at bytes.now (reads_of self.old file)) }
        ensures torn { OnErr result
            (Torn at (length bytes.now) (reads_of self.old file) (reads_of self.new file)) }
        ensures limit { OnOk result (at + length bytes.now ≤ 2 ^ 62) }
        ensures kept { ¬ NextFails (plan_of self.old) →
            OnErr result
            (LeftAlone (now_of self.old) (now_of self.new) (past_of self.old) (past_of self.new)) }
        ensures crash { Follows (Torn at (length bytes.now)) (leaves_of self.old file)
            (leaves_of self.new file) }
        ensures call { CallOn file (state_of self.old) (state_of self.new) }
    {
        let size = bytes.len() as u64;
        match self.plan.call() {
            Ok(()) => match self.write_part(file, at, bytes, size) {
                Ok(()) => Ok(()),
                Err(_) => Err(self.plan.shortage()),
            },
            Err(failed) => match self.write_part(file, at, &bytes[..bytes.len() / 2], size) {
                Ok(()) => Err(failed),
                Err(_) => Err(failed),
            },
        }
    }

    fn cut(&mut self, file: u8, len: u64) -> Result<(), Failed>
        requires file { file < 2 }
        requires place { len ≤ length (reads_of self.old file) }
        ensures plan { FollowsPlan (plan_of self.old) (plan_of self.new) result }
        ensures kept { OnErr result
            (LeftAlone (now_of self.old) (now_of self.new) (past_of self.old) (past_of self.new)) }
        ensures cut { OnOk result (reads_of self.new file ≡ take len (reads_of self.old file)) }
        ensures torn { OnErr result (Cut len (reads_of self.old file) (reads_of self.new file)) }
        ensures crash { Follows (Cut len) (leaves_of self.old file) (leaves_of self.new file) }
        ensures call { CallOn file (state_of self.old) (state_of self.new) }
    {
        self.plan.call()?;
        match self.cut_to(file, len) {
            Ok(()) => Ok(()),
            Err(_) => Err(self.plan.shortage()),
        }
    }

    fn sync(&mut self, file: u8) -> Result<(), Failed>
        requires { file < 2 }
        ensures plan { FollowsPlan (plan_of self.old) (plan_of self.new) result }
        ensures kept { OnErr result
            (LeftAlone (now_of self.old) (now_of self.new) (past_of self.old) (past_of self.new)) }
        ensures durable { OnOk result (Only (reads_of self.old file) (leaves_of self.new file)) }
        ensures same { Reads file (state_of self.old) (state_of self.new) }
        ensures call { CallOn file (state_of self.old) (state_of self.new) }
    {
        self.plan.call()?;
        match self.make_synced(file) {
            Ok(()) => Ok(()),
            Err(_) => Err(self.plan.shortage()),
        }
    }
}
