//! A yard over the logs of a folder.
ghost use Rattle.std.specs.Prelude.{◌≡◌, ◌<◌, IfOk, IsTrue};
ghost use Rattle.door_kinds.specs.Yards.{file_yard_state};

use crate::counts::count_after_giving;
use disk_kinds::{Alarm, LogFile};
use hk_base::Failed;
use server_parts::Yard;
use std::alloc::Global;
use std::fs::File;
use std::io;
use std::rt::{Files, Stderr};
use std::sync::Arc;

/// The files `keys.log` and `names.log` of a folder. Each is locked for as long as its disk lives, in
/// the yard or taken from it. Contracts promise nothing about what the files hold.
#[derive(Drop)]
pub struct FileYard {
    keys: Option<LogFile>,
    names: Option<LogFile>,
    pub faults: u64,
}

impl FileYard {
    /// Opens and locks both files of a folder, as `FileDisk::open` does: it creates those that are
    /// missing, and fails with `ErrorKind::WouldBlock` if either is held. Both files report later
    /// failures on `errors`, and raise the alarm if a sync fails.
    pub fn open<R: Files<File = File>>(
        files: &R,
        alloc: Global,
        folder: &str,
        errors: Stderr,
        alarm: &Arc<Alarm, Global>,
    ) -> io::Result<FileYard>
        ensures keys { IfOk result (λ yard. IsTrue ((file_yard_state yard).lies 0)) }
        ensures names { IfOk result (λ yard. IsTrue ((file_yard_state yard).lies 1)) }
        ensures faults { IfOk result (λ yard. yard.faults ≡ 0) }
    {
        let (keys, names) = LogFile::open_both(files, alloc, folder, errors, alarm)?;
        Ok(FileYard {
            keys: Some(keys),
            names: Some(names),
            faults: 0,
        })
    }
}

impl Yard for FileYard {
    type Own = LogFile;

    ghost state = { file_yard_state };

    fn take(&mut self, file: u8) -> Result<LogFile, Failed> {
        let lying = if file == 0 {
            self.keys.take()
        } else {
            self.names.take()
        };
        match lying {
            Some(mut own) => {
                own.faults = 0;
                Ok(own)
            }
            None => unreachable!(),
        }
    }

    fn give(&mut self, file: u8, own: LogFile) -> bool {
        let faults = own.faults;
        self.faults = count_after_giving(self.faults, faults);
        if file == 0 {
            self.keys = Some(own);
        } else {
            self.names = Some(own);
        }
        faults > 0
    }
}
