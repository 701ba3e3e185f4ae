//! A disk over one real file.
ghost use Rattle.std.specs.Prelude.{◌≡◌, ◌≤◌, ◌<◌, ◌+◌, ◌^◌, length, drop, IfOk, OnErr};
ghost use Rattle.hk_base.specs.Faults.{Rose};
ghost use Rattle.disk_kinds.specs.Opaque.{opaque};

use crate::alarm::Alarm;
use crate::locked_file::{LockedFile, open_logs, open_names};
use hk_base::{Disk, Failed};
use std::alloc::Global;
use std::fs::File;
use std::io;
use std::rt::{Files, Stderr};
use std::sync::Arc;

/// One of the files `keys.log` and `names.log`, as the disk of whoever owns that log. Its calls do
/// the same whichever file is asked. It counts errors, up to 2^64 - 1, and otherwise behaves as
/// [`FileDisk`](crate::FileDisk) does: it holds the lock, it tries interrupted calls again, it writes
/// one line to standard error for each failed call, and after a failed sync every later one fails. The
/// sync that failed raises an alarm. Contracts promise nothing about what the file holds.
#[derive(Drop)]
pub struct LogFile {
    locked: LockedFile,
    pub faults: u64,
}

/// Counts a fault if there was one.
pub(crate) fn counted<T>(faults: &mut u64, outcome: Result<T, Failed>) -> Result<T, Failed>
    ensures same { result ≡ outcome }
    ensures later { faults.old ≤ faults.new }
    ensures cause { OnErr result (Rose faults.old faults.new) }
{
    match outcome {
        Ok(value) => Ok(value),
        Err(failed) => {
            *faults = faults.saturating_add(1);
            Err(failed)
        }
    }
}

impl LogFile {
    /// Opens and locks both files of a folder, such as `.`, the key log first, and creates those that
    /// are missing. If another process or another disk of this one holds either file, it fails at once
    /// with `ErrorKind::WouldBlock` and holds neither. It does not change an existing file. Both
    /// report later failures on `errors`, and raise the alarm if a sync fails.
    pub fn open_both<R: Files<File = File>>(
        files: &R,
        alloc: Global,
        folder: &str,
        errors: Stderr,
        alarm: &Arc<Alarm, Global>,
    ) -> io::Result<(LogFile, LogFile)>
        ensures { IfOk result (λ logs. (logs.0.faults ≡ 0) × (logs.1.faults ≡ 0)) }
    {
        let (mut keys, mut names) = open_logs(files, alloc, folder, errors)?;
        keys.set_alarm(Arc::try_clone(alarm)?);
        names.set_alarm(Arc::try_clone(alarm)?);
        Ok((LogFile::over(keys), LogFile::over(names)))
    }

    /// Opens and locks one log of a folder, and creates it if it is missing. `path` is that of the log
    /// from the current folder, such as `backup/names.log`, and names it in reports. If another process
    /// or another disk of this one holds it, it fails at once with `ErrorKind::WouldBlock`. It does not
    /// change an existing file. It reports later failures on `errors`, and raises no alarm.
    pub fn open_names<R: Files<File = File>>(
        files: &R,
        alloc: Global,
        folder: &str,
        path: &'static str,
        errors: Stderr,
    ) -> io::Result<LogFile>
        ensures { IfOk result (λ log. log.faults ≡ 0) }
    {
        let locked = open_names(files, alloc, folder, path, errors)?;
        Ok(LogFile::over(locked))
    }

    fn over(locked: LockedFile) -> LogFile
        ensures { result.faults ≡ 0 }
    {
        LogFile { locked, faults: 0 }
    }
}

impl Disk for LogFile {
    ghost state = { λ d. opaque d.faults };

    ghost counts_now = { λ d t c le now. tt };

    ghost only_now = { λ d c left f lt. tt };

    ghost is_one = { λ d f tells lt. Prim.cc tells };

    ghost bounded = { λ d f tells lt. Prim.cc tells };

    ghost later_leaves_less = { λ d s t c le left. left };

    fn len(&mut self, _file: u8) -> Result<u64, Failed> {
        counted(&mut self.faults, self.locked.len())
    }

    fn read(&mut self, _file: u8, at: u64, buf: &mut [u8]) -> Result<usize, Failed> {
        counted(&mut self.faults, self.locked.read(at, buf))
    }

    #[tactic(auto, using(crate::proofs::OpaqueLemmas::opaque_torn))]
    fn write_at(&mut self, _file: u8, at: u64, bytes: &[u8]) -> Result<(), Failed> {
        counted(&mut self.faults, self.locked.write_at(at, bytes))
    }

    #[tactic(auto, using(crate::proofs::OpaqueLemmas::opaque_cut))]
    fn cut(&mut self, _file: u8, len: u64) -> Result<(), Failed> {
        counted(&mut self.faults, self.locked.cut(len))
    }

    fn sync(&mut self, _file: u8) -> Result<(), Failed> {
        counted(&mut self.faults, self.locked.sync())
    }
}
