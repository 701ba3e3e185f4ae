//! The folder that the program enters, and the files that it opens, before it runs a command.
use body_kinds::FolderVault;
use disk_kinds::{FileDisk, Reading};
use fs_command_line::read_folder;
use hk_base::Text;
use program_start::{PropertyBytes, enter_folder, open_properties};
use std::alloc::Global;
use std::fs::File;
use std::io;
use std::rt::{Env, Files, Stderr};

/// The folder of the bodies, in the current folder.
pub const BODIES: &str = "bodies";

/// What could not be opened, and why.
#[derive(Drop)]
pub enum Unopened {
    Folder(io::Error),
    Properties(io::Error),
    Logs(io::Error),
    Bodies(io::Error),
}

/// What a command works on: the properties, both logs and the bodies.
#[derive(Drop)]
pub struct Opened<'f, R: Files<File = File>> {
    pub acls: Reading<PropertyBytes>,
    pub disk: FileDisk,
    pub vault: FolderVault<'f, R>,
}

/// Enters the folder that the words of the command line give, if they give one. Tells on `errors` why it
/// can't be entered.
fn enter_given<R: Env>(
    rt: &R,
    alloc: Global,
    words: &[Text],
    errors: Stderr,
) -> Result<(), Unopened> {
    let given = read_folder(alloc, words);
    enter_folder(rt, errors, "hkfs", given).map_err(Unopened::Folder)
}

/// Opens the properties, both logs and the bodies of the folder that the words of the command line give, or
/// else of the current one. Faults of the logs and of the bodies are told on `errors`.
pub fn open_all<'f, R: Files<File = File> + Env>(
    files: &'f R,
    alloc: Global,
    words: &[Text],
    errors: Stderr,
    bodies_errors: Stderr,
) -> Result<Opened<'f, R>, Unopened> {
    enter_given(files, alloc, words, errors)?;
    let acls = open_properties(files).map_err(Unopened::Properties)?;
    let disk = match FileDisk::open(files, alloc, ".", errors) {
        Ok(disk) => disk,
        Err(error) => {
            drop(acls);
            return Err(Unopened::Logs(error));
        }
    };
    match FolderVault::open(files, alloc, BODIES, bodies_errors) {
        Ok(vault) => Ok(Opened { acls, disk, vault }),
        Err(error) => {
            drop(acls);
            drop(disk);
            Err(Unopened::Bodies(error))
        }
    }
}
