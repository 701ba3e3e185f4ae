//! The folder that the program enters, and the files that it opens, before it runs a command.
ghost use Rattle.std.specs.Prelude.{IfOk, IsTrue};
ghost use Rattle.door_kinds.specs.Yards.{file_yard_state};

use crate::looking::LookDisk;
use command_line::read_folder;
use disk_kinds::{Alarm, FileDisk, Reading};
use door_kinds::FileYard;
use hk_base::Text;
use program_start::{PropertyBytes, enter_folder, open_properties};
use std::alloc::Global;
use std::fs::File;
use std::io;
use std::rt::{Env, Files, Stderr};
use std::sync::Arc;

/// What could not be opened, and why.
#[derive(Drop)]
pub enum Unopened {
    Folder(io::Error),
    Properties(io::Error),
    Logs(io::Error),
}

/// Enters the folder that the words of the command line give, if they give one. Tells on `errors` why it
/// can't be entered.
pub fn enter_given<R: Env>(
    rt: &R,
    alloc: Global,
    words: &[Text],
    errors: Stderr,
) -> Result<(), Unopened> {
    let given = read_folder(alloc, words);
    enter_folder(rt, errors, "hkms", given).map_err(Unopened::Folder)
}

/// Opens the properties and both logs of the folder that the words of the command line give, or else of the
/// current one. Faults of the logs are told on `errors`.
pub fn open_disk<R: Files<File = File> + Env>(
    files: &R,
    alloc: Global,
    words: &[Text],
    errors: Stderr,
) -> Result<(Reading<PropertyBytes>, FileDisk), Unopened> {
    enter_given(files, alloc, words, errors)?;
    let acls = open_properties(files).map_err(Unopened::Properties)?;
    match FileDisk::open(files, alloc, ".", errors) {
        Ok(disk) => Ok((acls, disk)),
        Err(error) => Err(Unopened::Logs(error)),
    }
}

/// Opens both logs of the folder that the words of the command line give, or else of the current one, for
/// reading alone, beside an empty source in place of the properties. Faults of the logs are told on `errors`.
pub fn open_look<R: Files<File = File> + Env>(
    files: &R,
    alloc: Global,
    words: &[Text],
    errors: Stderr,
) -> Result<(Reading<io::Empty>, LookDisk), Unopened> {
    enter_given(files, alloc, words, errors)?;
    match LookDisk::open(files, errors) {
        Ok(disk) => Ok((Reading::new(io::empty()), disk)),
        Err(error) => Err(Unopened::Logs(error)),
    }
}

/// Opens the properties of the current folder, and both logs as a yard. Faults of the logs are told on
/// `errors`, and one after which a log takes no more records raises the alarm.
pub fn open_yard<R: Files<File = File>>(
    files: &R,
    alloc: Global,
    errors: Stderr,
    alarm: &Arc<Alarm, Global>,
) -> Result<(Reading<PropertyBytes>, FileYard), Unopened>
    ensures keys { IfOk result (λ opened. IsTrue ((file_yard_state opened.1).lies 0)) }
    ensures names { IfOk result (λ opened. IsTrue ((file_yard_state opened.1).lies 1)) }
{
    let acls = open_properties(files).map_err(Unopened::Properties)?;
    match FileYard::open(files, alloc, ".", errors, alarm) {
        Ok(yard) => Ok((acls, yard)),
        Err(error) => Err(Unopened::Logs(error)),
    }
}
