//! The folder that the program enters, and the files that it opens, before it runs a command.
use body_kinds::FolderVault;
use copy_command_line::read_folder;
use disk_kinds::{FileDisk, LogFile, Reading};
use hk_base::Text;
use program_start::{PropertyBytes, enter_folder, open_properties};
use std::alloc::Global;
use std::fs::{DirBuilder, File};
use std::io;
use std::os::unix::fs::DirBuilderExt;
use std::rt::{Env, Files, Stderr};

/// The folder of the bodies, in the current folder.
pub const BODIES: &str = "bodies";

/// The folder of the edit log of the second cluster.
const BACKUP: &str = "backup";

/// The edit log of the second cluster.
pub const BACKUP_LOG: &str = "backup/names.log";

/// The folder of the bodies of the second cluster.
pub const COPIES: &str = "copies";

/// What could not be opened, and why.
#[derive(Drop)]
pub enum Unopened {
    Folder(io::Error),
    Properties(io::Error),
    Logs(io::Error),
    Backup(io::Error),
    Bodies(io::Error),
    Copies(io::Error),
}

/// What a command works on: the properties, both logs and the bodies, and the edit log and the bodies of
/// the second cluster.
#[derive(Drop)]
pub struct Opened<'f, R: Files<File = File>> {
    pub acls: Reading<PropertyBytes>,
    pub disk: FileDisk,
    pub backup: LogFile,
    pub vault: FolderVault<'f, R>,
    pub copies: FolderVault<'f, R>,
}

/// Creates the folder of the second cluster for its owner only, if it is missing.
fn make_backup<R: Files>(files: &R) -> io::Result<()> {
    DirBuilder::new()
        .recursive(true)
        .mode(0o700)
        .create(files, BACKUP)
}

/// Opens the logs of both clusters.
fn open_logs<R: Files<File = File>>(
    files: &R,
    alloc: Global,
    errors: Stderr,
) -> Result<(FileDisk, LogFile), Unopened> {
    // This comes first: to open the logs of a folder syncs that folder.
    make_backup(files).map_err(Unopened::Backup)?;
    let disk = FileDisk::open(files, alloc, ".", errors).map_err(Unopened::Logs)?;
    match LogFile::open_names(files, alloc, BACKUP, BACKUP_LOG, errors) {
        Ok(backup) => Ok((disk, backup)),
        Err(error) => {
            drop(disk);
            Err(Unopened::Backup(error))
        }
    }
}

/// Opens the bodies of both clusters.
fn open_bodies<'f, R: Files<File = File>>(
    files: &'f R,
    alloc: Global,
    errors: Stderr,
) -> Result<(FolderVault<'f, R>, FolderVault<'f, R>), Unopened> {
    let vault = FolderVault::open(files, alloc, BODIES, errors).map_err(Unopened::Bodies)?;
    match FolderVault::open(files, alloc, COPIES, errors) {
        Ok(copies) => Ok((vault, copies)),
        Err(error) => {
            drop(vault);
            Err(Unopened::Copies(error))
        }
    }
}

/// Enters the folder that the words of the command line give, if they give one. Tells on `errors` why it
/// can't be entered.
fn enter_given<R: Env>(
    rt: &R,
    alloc: Global,
    words: &[Text],
    errors: Stderr,
) -> Result<(), Unopened> {
    let given = read_folder(alloc, words);
    enter_folder(rt, errors, "hkcopy", given).map_err(Unopened::Folder)
}

/// Opens the properties, and the logs and the bodies of both clusters, in the folder that the words of the
/// command line give, or else in the current one. Faults of the logs and of the bodies are told on `errors`.
pub fn open_all<'f, R: Files<File = File> + Env>(
    files: &'f R,
    alloc: Global,
    words: &[Text],
    errors: Stderr,
) -> Result<Opened<'f, R>, Unopened> {
    enter_given(files, alloc, words, errors)?;
    let acls = open_properties(files).map_err(Unopened::Properties)?;
    let (disk, backup) = match open_logs(files, alloc, errors) {
        Ok(logs) => logs,
        Err(unopened) => {
            drop(acls);
            return Err(unopened);
        }
    };
    match open_bodies(files, alloc, errors) {
        Ok((vault, copies)) => Ok(Opened {
            acls,
            disk,
            backup,
            vault,
            copies,
        }),
        Err(unopened) => {
            drop(acls);
            drop(disk);
            drop(backup);
            Err(unopened)
        }
    }
}
