//! A file of a folder that is held while it is used, and that reports its faults.
ghost use Rattle.std.specs.Prelude.{◌≡◌, ◌≤◌, ◌+◌, ◌^◌, length, drop, IfOk, OnOk};

use crate::alarm::Alarm;
use crate::file_calls::{cut_tried, length_of, read_all, sync_tried, write_within};
use hk_base::Failed;
use std::alloc::Global;
use std::fs::{File, OpenOptions, TryLockError};
use std::io::{self, ErrorKind};
use std::os::unix::fs::OpenOptionsExt;
use std::rt::{Files, Stderr};
use std::sync::Arc;

/// A file that is locked for as long as this lives. Its calls count no faults. Each failed call writes
/// one line to standard error.
#[derive(Drop)]
pub(crate) struct LockedFile {
    file: File,
    name: &'static str,
    errors: Stderr,
    /// Raised by the first sync that fails.
    alarm: Option<Arc<Alarm, Global>>,
    /// Whether a sync has failed.
    lost: bool,
}

/// Opens a file for reading and writing and locks it without waiting. Creates it if it is missing,
/// readable and writable by its owner only, since the logs hold keys in the clear.
fn open_log<R: Files<File = File>>(
    files: &R,
    alloc: Global,
    folder: &str,
    name: &'static str,
    errors: Stderr,
) -> io::Result<LockedFile> {
    let path = format!(in alloc; "{folder}/{name}")?;
    let file = OpenOptions::new()
        .read(true)
        .write(true)
        .create(true)
        .mode(0o600)
        .open(files, path.as_str())?;
    match file.try_lock() {
        Ok(()) => Ok(LockedFile {
            file,
            name,
            errors,
            alarm: None,
            lost: false,
        }),
        Err(TryLockError::WouldBlock) => Err(io::Error::new(
            ErrorKind::WouldBlock,
            "another process holds the log",
        )),
        Err(TryLockError::Error(error)) => Err(error),
    }
}

/// Opens and locks both files of a folder and syncs the folder.
pub(crate) fn open_logs<R: Files<File = File>>(
    files: &R,
    alloc: Global,
    folder: &str,
    errors: Stderr,
) -> io::Result<(LockedFile, LockedFile)> {
    let keys = open_log(files, alloc, folder, "keys.log", errors)?;
    let names = open_log(files, alloc, folder, "names.log", errors)?;
    // A new file survives a crash only once its folder is synced. An earlier run that was stopped
    // may have created it too.
    File::open(files, folder)?.sync_all()?;
    Ok((keys, names))
}

/// Opens and locks one file of a folder and syncs the folder. `path` is that of the file from the
/// current folder, and names it in reports.
pub(crate) fn open_names<R: Files<File = File>>(
    files: &R,
    alloc: Global,
    folder: &str,
    path: &'static str,
    errors: Stderr,
) -> io::Result<LockedFile> {
    let log = open_log(files, alloc, ".", path, errors)?;
    File::open(files, folder)?.sync_all()?;
    Ok(log)
}

impl LockedFile {
    /// Sets the alarm that the first failed sync raises.
    pub(crate) fn set_alarm(&mut self, alarm: Arc<Alarm, Global>) {
        self.alarm = Some(alarm);
    }

    /// Reports which call failed, and why.
    fn fault(&self, call: &str, error: &io::Error) -> Failed {
        let name = self.name;
        let _ = eprintln!(self.errors; "hkms: {name}: {call} failed: {error}");
        Failed
    }

    pub(crate) fn len(&self) -> Result<u64, Failed>
        ensures { IfOk result (λ n. n ≤ 2 ^ 62) }
    {
        match length_of(&self.file) {
            Ok(len) => Ok(len),
            Err(error) => Err(self.fault("length", &error)),
        }
    }

    pub(crate) fn read(&self, at: u64, buf: &mut [u8]) -> Result<usize, Failed>
        ensures count { IfOk result (λ n. n ≤ length buf.new) }
        ensures rest { IfOk result (λ n. drop n buf.new ≡ drop n buf.old) }
    {
        match read_all(&self.file, buf, at) {
            Ok(count) => Ok(count),
            Err(error) => Err(self.fault("read", &error)),
        }
    }

    pub(crate) fn write_at(&self, at: u64, bytes: &[u8]) -> Result<(), Failed>
        ensures { OnOk result (at + length bytes.now ≤ 2 ^ 62) }
    {
        match write_within(&self.file, bytes, at) {
            Ok(()) => Ok(()),
            Err(error) => Err(self.fault("write", &error)),
        }
    }

    pub(crate) fn cut(&self, len: u64) -> Result<(), Failed> {
        match cut_tried(&self.file, len) {
            Ok(()) => Ok(()),
            Err(error) => Err(self.fault("truncate", &error)),
        }
    }

    /// After a failure every later sync fails, and is not tried.
    pub(crate) fn sync(&mut self) -> Result<(), Failed> {
        if self.lost {
            return Err(self.not_synced());
        }
        match sync_tried(&self.file) {
            Ok(()) => Ok(()),
            Err(error) => {
                self.lose();
                Err(self.fault("sync", &error))
            }
        }
    }

    /// Reports that a sync was not tried.
    fn not_synced(&self) -> Failed {
        let name = self.name;
        let _ = eprintln!(self.errors; "hkms: {name}: not synced: an earlier sync failed");
        Failed
    }

    /// Notes that a sync failed, and raises the alarm.
    fn lose(&mut self) {
        self.lost = true;
        if let Some(alarm) = &self.alarm {
            alarm.raise();
        }
    }
}
