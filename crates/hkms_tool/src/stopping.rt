//! Ending a server by a byte on a named pipe.
use disk_kinds::Alarm;
use std::alloc::Global;
use std::fs::{self, File, OpenOptions};
use std::io::{self, ErrorKind, Read};
use std::os::unix::fs::FileTypeExt;
use std::rt::Files;
use std::sync::Arc;
use std::thread::{self, Threads};

/// The named pipe of the current folder on which a byte ends a server.
const STOP: &str = "hkms.stop";

/// Opens the pipe. Returns `None` if there is no such entry, and fails if the entry is of another kind.
fn open_stop<R: Files<File = File>>(files: &R) -> io::Result<Option<File>> {
    let kind = match fs::symlink_metadata(files, STOP) {
        Ok(entry) => entry.file_type(),
        Err(error) => {
            if error.kind() == ErrorKind::NotFound {
                return Ok(None);
            }
            return Err(error);
        }
    };
    if !kind.is_fifo() {
        return Err(io::Error::new(ErrorKind::InvalidInput, "not a named pipe"));
    }
    // A pipe that is open for writing too never waits for a writer to come, nor ends when one leaves.
    let pipe = OpenOptions::new().read(true).write(true).open(files, STOP)?;
    Ok(Some(pipe))
}

/// Raises the alarm once a byte comes.
fn wait_for_byte(mut pipe: File, alarm: &Alarm) {
    let mut byte = [0u8; 1];
    if pipe.read_exact(&mut byte).is_ok() {
        alarm.raise();
    }
}

/// Raises the alarm once a byte is written to the named pipe `hkms.stop` of the current folder, if there
/// is one. A thread waits for it, which lasts as long as the process. Fails if the pipe cannot be
/// opened, or if no thread can be made.
pub fn watch_stop<R: Files<File = File>, T: Threads>(
    files: &R,
    threads: &T,
    alarm: &Arc<Alarm, Global>,
) -> io::Result<()> {
    let Some(pipe) = open_stop(files)? else {
        return Ok(());
    };
    let alarm = alarm.clone()?;
    match thread::spawn(threads, move || wait_for_byte(pipe, &alarm)) {
        Ok(_) => Ok(()),
        Err(_) => Err(io::Error::from(ErrorKind::OutOfMemory)),
    }
}
