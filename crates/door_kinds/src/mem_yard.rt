//! A yard in memory.
ghost use Rattle.std.specs.Prelude.{◌≡◌, ◌≤◌, ◌<◌, ◌^◌, length, None, OnOk, OnErr, IfOk, IfSome, IsSome, IsTrue, is_some};
ghost use Rattle.hk_base.specs.Disk.{Only};
ghost use Rattle.server_parts.specs.Yards.{Taken};
ghost use Rattle.disk_kinds.specs.Past.{reads_of, leaves_of, plan_of, state_of};
ghost use Rattle.door_kinds.specs.Yards.{lying, mem_yard_state};

use crate::counts::count_after_giving;
use disk_kinds::{CallPlan, MemDisk};
use hk_base::{Disk, Failed};
use server_parts::Yard;
use std::alloc::{AllocError, Global};

/// The content of a file of a yard in memory, and the calls that fail, counted from 1, of the first
/// disk that is taken of it.
#[derive(Drop)]
pub struct MemFile {
    pub bytes: Vec<u8>,
    pub failing: Vec<u64>,
}

/// Two files in memory, with a plan of the takes that fail. A disk that is taken is a new one: it has
/// only its own file, which is synced, and its record of crashes starts there.
#[derive(Drop)]
pub struct MemYard {
    alloc: Global,
    first: Option<MemDisk>,
    second: Option<MemDisk>,
    /// The calls that fail of each file's next disk.
    first_failing: Vec<u64>,
    second_failing: Vec<u64>,
    takes: CallPlan,
    faults: u64,
}

/// Creates a disk with the content of one file of another disk. It is synced.
#[tactic(auto, using(crate::proofs::YardLemmas::fresh_leaves, disk_kinds::specs::Past::within))]
fn copy_of(alloc: Global, file: u8, disk: &MemDisk, failing: &[u64]) -> Result<MemDisk, AllocError>
    requires { file < 2 }
    ensures reads { IfOk result (λ own. reads_of own file ≡ reads_of disk.now file) }
    ensures leaves { IfOk result (λ own. Only (reads_of disk.now file) (leaves_of own file)) }
    ensures faults { IfOk result (λ own. (plan_of own).faults ≡ 0) }
{
    let bytes = disk.bytes(file).to_vec(alloc)?;
    let failing = failing.to_vec(alloc)?;
    let none = Vec::new(alloc);
    if file == 0 {
        MemDisk::new(alloc, bytes, none, failing)
    } else {
        MemDisk::new(alloc, none, bytes, failing)
    }
}

/// Takes a disk that lies in the yard. If allocation fails, it stays there.
fn take_lying(
    alloc: Global,
    file: u8,
    disk: &mut Option<MemDisk>,
    failing: &mut Vec<u64>,
) -> Result<MemDisk, Failed>
    requires file { file < 2 }
    requires lies { IsSome disk.old }
    ensures gone { OnOk result (disk.new ≡ None) }
    ensures kept { OnErr result (disk.new ≡ disk.old) }
    ensures reads { IfOk result (λ own. reads_of own file ≡ lying file disk.old) }
    ensures leaves { IfOk result (λ own. Only (lying file disk.old) (leaves_of own file)) }
    ensures faults { IfOk result (λ own. (plan_of own).faults ≡ 0) }
{
    match disk {
        Some(lying) => match copy_of(alloc, file, lying, failing) {
            Ok(own) => {
                failing.clear();
                *disk = None;
                Ok(own)
            }
            Err(_) => Err(Failed),
        },
        None => unreachable!(),
    }
}

impl MemYard {
    /// Creates a yard with these files. The takes whose numbers, counted from 1, are in `failing`
    /// fail. So does a take whose allocation fails.
    pub fn new(
        alloc: Global,
        first: MemFile,
        second: MemFile,
        failing: Vec<u64>,
    ) -> Result<MemYard, AllocError>
        requires first { length first.bytes.items ≤ 2 ^ 62 }
        requires second { length second.bytes.items ≤ 2 ^ 62 }
        ensures faults { IfOk result (λ yard. (mem_yard_state yard).faults ≡ 0) }
        ensures first_lies { IfOk result (λ yard. IsTrue ((mem_yard_state yard).lies 0)) }
        ensures second_lies { IfOk result (λ yard. IsTrue ((mem_yard_state yard).lies 1)) }
        ensures first { IfOk result (λ yard. (mem_yard_state yard).reads 0 ≡ first.bytes.items) }
        ensures second { IfOk result (λ yard. (mem_yard_state yard).reads 1 ≡ second.bytes.items) }
    {
        let none = Vec::new(alloc);
        Ok(MemYard {
            alloc,
            first: Some(MemDisk::new(alloc, first.bytes, Vec::new(alloc), Vec::new(alloc))?),
            second: Some(MemDisk::new(alloc, none, second.bytes, Vec::new(alloc))?),
            first_failing: first.failing,
            second_failing: second.failing,
            takes: CallPlan::new(failing),
            faults: 0,
        })
    }

    /// Creates a yard with two empty files.
    pub fn empty(alloc: Global) -> Result<MemYard, AllocError>
        ensures first_lies { IfOk result (λ yard. IsTrue ((mem_yard_state yard).lies 0)) }
        ensures second_lies { IfOk result (λ yard. IsTrue ((mem_yard_state yard).lies 1)) }
    {
        let first = MemFile {
            bytes: Vec::new(alloc),
            failing: Vec::new(alloc),
        };
        let second = MemFile {
            bytes: Vec::new(alloc),
            failing: Vec::new(alloc),
        };
        MemYard::new(alloc, first, second, Vec::new(alloc))
    }

    /// Returns the disk of a file if it lies in the yard.
    pub fn disk(&self, file: u8) -> Option<&MemDisk>
        requires { file < 2 }
        ensures lies { is_some result ≡ (mem_yard_state self.now).lies file }
        ensures reads { IfSome result
            (λ disk. reads_of disk.now file ≡ (mem_yard_state self.now).reads file) }
    {
        if file == 0 {
            self.first.as_ref()
        } else {
            self.second.as_ref()
        }
    }

    /// Returns the number of faults, up to 2^64 - 1.
    pub fn faults(&self) -> u64
        ensures { result ≡ (mem_yard_state self.now).faults }
    {
        self.faults
    }

    /// Takes a disk, but counts no fault.
    fn try_take(&mut self, file: u8) -> Result<MemDisk, Failed>
        requires file { file < 2 }
        requires lies { IsTrue ((mem_yard_state self.old).lies file) }
        ensures taken { IfOk result
            (λ own. Taken file (mem_yard_state self.old) (mem_yard_state self.new) (state_of own)) }
        ensures kept { OnErr result (mem_yard_state self.new ≡ mem_yard_state self.old) }
    {
        self.takes.call()?;
        if file == 0 {
            take_lying(self.alloc, 0, &mut self.first, &mut self.first_failing)
        } else {
            take_lying(self.alloc, 1, &mut self.second, &mut self.second_failing)
        }
    }
}

impl Yard for MemYard {
    type Own = MemDisk;

    ghost state = { mem_yard_state };

    fn take(&mut self, file: u8) -> Result<MemDisk, Failed> {
        match self.try_take(file) {
            Ok(own) => Ok(own),
            Err(failed) => {
                self.faults = self.faults.saturating_add(1);
                Err(failed)
            }
        }
    }

    fn give(&mut self, file: u8, own: MemDisk) -> bool {
        let faults = own.faults();
        self.faults = count_after_giving(self.faults, faults);
        if file == 0 {
            self.first = Some(own);
        } else {
            self.second = Some(own);
        }
        faults > 0
    }
}
