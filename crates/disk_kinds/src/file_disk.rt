//! A disk over both real files.
ghost use Rattle.std.specs.Prelude.{◌≡◌, IfOk};
ghost use Rattle.disk_kinds.specs.Opaque.{opaque};

use crate::locked_file::{LockedFile, open_logs};
use crate::log_file::counted;
use hk_base::{Disk, Failed};
use std::alloc::Global;
use std::fs::File;
use std::io;
use std::rt::{Files, Stderr};

/// The files `keys.log` and `names.log` of a folder. It counts errors, up to 2^64 - 1, and writes one
/// line to standard error for each failed call, which names the file, the call and the system's error.
/// It tries a call that a signal interrupts again, up to 1,000 times in all. Contracts promise nothing
/// about what the files hold.
///
/// The system may drop what a sync could not write. So once a sync of a file has failed, every later
/// sync of that file fails, until the file is opened again.
///
/// It holds an exclusive lock on each file for as long as it lives, so no other `FileDisk` can use the
/// files, in this process or another. A process that takes no lock is not kept out. The system
/// releases the locks when the process ends, in whatever way, so nothing needs cleaning up after a
/// crash.
#[derive(Drop)]
pub struct FileDisk {
    keys: LockedFile,
    names: LockedFile,
    pub faults: u64,
}

impl FileDisk {
    /// Opens and locks both files of a folder, such as `.`, and creates those that are missing. If
    /// another process or another `FileDisk` of this one holds either file, it fails at once with
    /// `ErrorKind::WouldBlock` and holds neither. It does not change an existing file. It reports later
    /// failures on `errors`.
    pub fn open<R: Files<File = File>>(
        files: &R,
        alloc: Global,
        folder: &str,
        errors: Stderr,
    ) -> io::Result<FileDisk>
        ensures { IfOk result (λ disk. disk.faults ≡ 0) }
    {
        let (keys, names) = open_logs(files, alloc, folder, errors)?;
        Ok(FileDisk {
            keys,
            names,
            faults: 0,
        })
    }

    fn file(&self, file: u8) -> &LockedFile {
        if file == 0 { &self.keys } else { &self.names }
    }

    fn sync_file(&mut self, file: u8) -> Result<(), Failed>
        ensures { self.new.faults ≡ self.old.faults }
    {
        if file == 0 {
            self.keys.sync()
        } else {
            self.names.sync()
        }
    }
}

impl Disk for FileDisk {
    ghost state = { λ d. opaque d.faults };

    ghost counts_now = { λ d t c le now. tt };

    ghost only_now = { λ d c left f lt. tt };

    ghost is_one = { λ d f tells lt. Prim.cc tells };

    ghost bounded = { λ d f tells lt. Prim.cc tells };

    ghost later_leaves_less = { λ d s t c le left. left };

    fn len(&mut self, file: u8) -> Result<u64, Failed> {
        let outcome = self.file(file).len();
        counted(&mut self.faults, outcome)
    }

    fn read(&mut self, file: u8, at: u64, buf: &mut [u8]) -> Result<usize, Failed> {
        let outcome = self.file(file).read(at, buf);
        counted(&mut self.faults, outcome)
    }

    #[tactic(auto, using(crate::proofs::OpaqueLemmas::opaque_torn))]
    fn write_at(&mut self, file: u8, at: u64, bytes: &[u8]) -> Result<(), Failed> {
        let outcome = self.file(file).write_at(at, bytes);
        counted(&mut self.faults, outcome)
    }

    #[tactic(auto, using(crate::proofs::OpaqueLemmas::opaque_cut))]
    fn cut(&mut self, file: u8, len: u64) -> Result<(), Failed> {
        let outcome = self.file(file).cut(len);
        counted(&mut self.faults, outcome)
    }

    fn sync(&mut self, file: u8) -> Result<(), Failed> {
        let outcome = self.sync_file(file);
        counted(&mut self.faults, outcome)
    }
}
