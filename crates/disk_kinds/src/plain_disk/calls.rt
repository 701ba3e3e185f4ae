//! The calls of a disk that records nothing about crashes.
ghost use Rattle.std.specs.Prelude.{◌≡◌, ◌≤◌, ◌<◌, ◌+◌, ◌-◌, ◌^◌, [], min, length, take, drop, IfOk, OnOk, OnErr, MatchResult};
ghost use Rattle.std.proofs.Common.{refl};
ghost use Rattle.hk_base.specs.Disk.{CallOn, Follows, Torn, piece, written};
ghost use Rattle.disk_kinds.specs.Fakes.{counted};
ghost use Rattle.disk_kinds.specs.Plain.{contents, faults_of, state_of, within};

use super::PlainDisk;
use crate::pieces::copy_front;
use hk_base::{Disk, Failed, LONGEST_FILE};
use std::alloc::{AllocError, Global};

impl PlainDisk {
    /// Creates a disk of two empty files.
    pub fn new(alloc: Global) -> PlainDisk
        ensures first { contents result 0 ≡ [] }
        ensures second { contents result 1 ≡ [] }
        ensures faults { faults_of result ≡ 0 }
    {
        PlainDisk {
            first: Vec::new(alloc),
            second: Vec::new(alloc),
            faults: 0,
        }
    }

    /// Returns the content of a file.
    pub fn bytes(&self, file: u8) -> &[u8]
        requires { file < 2 }
        ensures { result.now ≡ contents self.now file }
    {
        self.file(file).as_slice()
    }

    fn file(&self, file: u8) -> &Vec<u8>
        requires { file < 2 }
        ensures { result.now.items ≡ contents self.now file }
    {
        if file == 0 { &self.first } else { &self.second }
    }

    /// Writes into a file in place. If allocation fails, nothing changes.
    fn write_in_place(&mut self, file: u8, at: usize, bytes: &[u8]) -> Result<(), AllocError>
        requires file { file < 2 }
        requires place { at ≤ length (contents self.old file) }
        requires limit { at + length bytes.now ≤ 2 ^ 62 }
        ensures written { OnOk result
            (contents self.new file ≡ written at bytes.now (contents self.old file)) }
        ensures other { contents self.new (1 - file) ≡ contents self.old (1 - file) }
        ensures same { OnErr result (contents self.new file ≡ contents self.old file) }
        ensures grows { OnErr result (length (contents self.old file) < at + length bytes.now) }
        ensures faults { faults_of self.new ≡ faults_of self.old }
    {
        if file == 0 {
            overwrite(&mut self.first, at, bytes)
        } else {
            overwrite(&mut self.second, at, bytes)
        }
    }

    /// Counts a fault.
    fn fault(&mut self) -> Failed
        ensures same { contents self.new ≡ contents self.old }
        ensures faults { faults_of self.new ≡ counted (faults_of self.old) }
        ensures later { faults_of self.old ≤ faults_of self.new }
    {
        self.faults = self.faults.saturating_add(1);
        Failed
    }
}

/// Writes at an offset, over the bytes there and past the end. If allocation fails, nothing changes.
fn overwrite(file: &mut Vec<u8>, at: usize, bytes: &[u8]) -> Result<(), AllocError>
    requires { at ≤ length file.old.items }
    ensures written { OnOk result (file.new.items ≡ written at bytes.now file.old.items) }
    ensures same { OnErr result (file.new.items ≡ file.old.items) }
    ensures grows { OnErr result (length file.old.items < at + length bytes.now) }
{
    let inside = bytes.len().min(file.len() - at);
    let (over, past) = bytes.split_at(inside);
    file.extend_from_slice(past)?;
    file[at..at + inside].copy_from_slice(over);
    Ok(())
}

impl Disk for PlainDisk {
    ghost state = { λ d. state_of d };

    ghost counts_now = { λ d t c le now. now };

    ghost only_now = { λ d c left. left };

    ghost is_one = { λ d f tells lt. refl };

    ghost bounded = { λ d f tells lt. within d f lt };

    ghost later_leaves_less = { λ d s t c le left. left };

    fn len(&mut self, file: u8) -> Result<u64, Failed>
        requires { file < 2 }
        ensures size { result ≡ Ok (length (contents self.old file)) }
        ensures kept { self.new ≡ self.old }
    {
        Ok(self.file(file).len() as u64)
    }

    fn read(&mut self, file: u8, at: u64, buf: &mut [u8]) -> Result<usize, Failed>
        requires file { file < 2 }
        requires place { at ≤ length (contents self.old file) }
        ensures count { result ≡ Ok (min (length buf.new) (length (contents self.old file) - at)) }
        ensures bytes { IfOk result (λ n. take n buf.new ≡ piece at n (contents self.old file)) }
        ensures rest { IfOk result (λ n. drop n buf.new ≡ drop n buf.old) }
        ensures kept { self.new ≡ self.old }
    {
        Ok(copy_front(&self.file(file)[at as usize..], buf))
    }

    fn write_at(&mut self, file: u8, at: u64, bytes: &[u8]) -> Result<(), Failed>
        requires file { file < 2 }
        requires place { at ≤ length (contents self.old file) }
        ensures written { OnOk result
            (contents self.new file ≡ written at bytes.now (contents self.old file)) }
        ensures other { contents self.new (1 - file) ≡ contents self.old (1 - file) }
        ensures limit { OnOk result (at + length bytes.now ≤ 2 ^ 62) }
        ensures grows { OnErr result (length (contents self.old file) < at + length bytes.now) }
        ensures kept { OnErr result (contents self.new file ≡ contents self.old file) }
        ensures faults { MatchResult result (λ _. faults_of self.new ≡ faults_of self.old)
            (λ _. faults_of self.new ≡ counted (faults_of self.old)) }
        ensures torn { OnErr result
            (Torn at (length bytes.now) (contents self.old file) (contents self.new file)) }
        ensures crash { Follows (Torn at (length bytes.now)) ((state_of self.old).leaves file)
            ((state_of self.new).leaves file) }
        ensures call { CallOn file (state_of self.old) (state_of self.new) }
    {
        let size = bytes.len() as u64;
        if at > LONGEST_FILE || size > LONGEST_FILE - at {
            return Err(self.fault());
        }
        match self.write_in_place(file, at as usize, bytes) {
            Ok(()) => Ok(()),
            Err(_) => Err(self.fault()),
        }
    }

    fn cut(&mut self, file: u8, len: u64) -> Result<(), Failed>
        requires file { file < 2 }
        requires place { len ≤ length (contents self.old file) }
        ensures works { result ≡ Ok tt }
        ensures cut { contents self.new file ≡ take len (contents self.old file) }
        ensures other { contents self.new (1 - file) ≡ contents self.old (1 - file) }
        ensures faults { faults_of self.new ≡ faults_of self.old }
    {
        if file == 0 {
            self.first.truncate(len as usize);
        } else {
            self.second.truncate(len as usize);
        }
        Ok(())
    }

    fn sync(&mut self, _file: u8) -> Result<(), Failed>
        ensures works { result ≡ Ok tt }
        ensures kept { self.new ≡ self.old }
    {
        // Memory needs no sync.
        Ok(())
    }
}
