//! A vault over the files of a folder.
ghost use Rattle.std.specs.Prelude.{◌≡◌, ◌≤◌, length, IfOk, OnErr};
ghost use Rattle.std.specs.Io.{ReadsAtMost};
ghost use Rattle.hk_base.specs.Faults.{HasCause};
ghost use Rattle.body_kinds.specs.Opaque.{opaque_vault};

use body_stream::Vault;
use hk_base::Failed;
use std::alloc::Global;
use std::fs::{DirBuilder, File, OpenOptions};
use std::io::{self, ErrorKind};
use std::os::unix::fs::{DirBuilderExt, FileExt, OpenOptionsExt};
use std::rt::{Files, Stderr};

/// How many times a call is tried if a signal interrupts it.
const TRIES: u32 = 1000;

/// A body that is open.
#[derive(Drop)]
struct OpenBody {
    id: u64,
    file: File,
}

/// The files of a folder, such as `bodies`, each of which is the body whose id in decimal is its name.
/// It counts errors, up to 2^64 - 1, and writes one line to standard error for each failed call, which
/// names the file, the call and the system's error. It tries a call that a signal interrupts again.
/// Contracts promise nothing about what the files hold.
///
/// A write at another place than the end of the file is a fault, and writes nothing. So a body that an
/// earlier run left under the id of a new file is refused, and is not mixed with the new one.
///
/// The file that was used last stays open. A file that is missing reads as an empty body. No call
/// syncs a file.
#[derive(Drop)]
pub struct FolderVault<'f, R: Files<File = File>> {
    files: &'f R,
    alloc: Global,
    folder: &'f str,
    errors: Stderr,
    open: Option<OpenBody>,
    pub faults: u64,
}

/// Creates a folder for its owner only, if it is missing.
fn make_folder<R: Files>(files: &R, folder: &str) -> io::Result<()> {
    match DirBuilder::new().mode(0o700).create(files, folder) {
        Ok(()) => Ok(()),
        Err(error) => {
            if error.kind() == ErrorKind::AlreadyExists {
                return Ok(());
            }
            Err(error)
        }
    }
}

/// Opens a file for reading and writing, and may create it, readable and writable by its owner only.
/// Returns `None` if it is missing and not created.
fn open_file<R: Files<File = File>>(
    files: &R,
    path: &str,
    create: bool,
) -> io::Result<Option<File>> {
    let opened = OpenOptions::new()
        .read(true)
        .write(true)
        .create(create)
        .mode(0o600)
        .open(files, path);
    match opened {
        Ok(file) => Ok(Some(file)),
        Err(error) => {
            if error.kind() == ErrorKind::NotFound && !create {
                return Ok(None);
            }
            Err(error)
        }
    }
}

fn read_tried(file: &File, buf: &mut [u8], at: u64) -> io::Result<usize>
    ensures { ReadsAtMost result buf.new }
{
    for _ in 0..TRIES {
        match file.read_at(buf, at) {
            Ok(count) => return Ok(count),
            Err(error) => {
                if error.kind() != ErrorKind::Interrupted {
                    return Err(error);
                }
            }
        }
    }
    Err(io::Error::from(ErrorKind::Interrupted))
}

/// Writes at the end of a file, which must be at `at`.
fn append(file: &File, at: u64, bytes: &[u8]) -> io::Result<()> {
    if file.metadata()?.len() != at {
        return Err(io::Error::new(
            ErrorKind::InvalidData,
            "the file does not end where the body does",
        ));
    }
    file.write_all_at(bytes, at)
}

impl<'f, R: Files<File = File>> FolderVault<'f, R> {
    /// Creates the folder if it is missing, for its owner only. Reports later failures on `errors`.
    pub fn open(
        files: &'f R,
        alloc: Global,
        folder: &'f str,
        errors: Stderr,
    ) -> io::Result<FolderVault<'f, R>>
        ensures { IfOk result (λ vault. vault.faults ≡ 0) }
    {
        make_folder(files, folder)?;
        Ok(FolderVault {
            files,
            alloc,
            folder,
            errors,
            open: None,
            faults: 0,
        })
    }

    /// Reports which call failed, and why.
    fn report(&self, id: u64, call: &str, error: &io::Error) {
        let folder = self.folder;
        let _ = eprintln!(self.errors; "{folder}/{id}: {call} failed: {error}");
    }

    /// Reports and counts a fault if there was one.
    fn settled<T>(&mut self, id: u64, call: &str, outcome: io::Result<T>) -> Result<T, Failed>
        ensures value { IfOk result (λ value. outcome ≡ Ok value) }
        ensures cause { HasCause self.old.faults self.new.faults result }
    {
        match outcome {
            Ok(value) => Ok(value),
            Err(error) => {
                self.report(id, call, &error);
                self.faults = self.faults.saturating_add(1);
                Err(Failed)
            }
        }
    }

    /// Returns the file of a body if it is the one that is open.
    fn file(&self, id: u64) -> Option<&File> {
        match &self.open {
            Some(body) => {
                if body.id == id {
                    return Some(&body.file);
                }
                None
            }
            None => None,
        }
    }

    /// Opens the file of a body, unless it is open or is missing and not created.
    fn hold(&mut self, id: u64, create: bool) -> io::Result<()>
        ensures { self.new.faults ≡ self.old.faults }
    {
        if self.file(id).is_some() {
            return Ok(());
        }
        let folder = self.folder;
        let path = format!(in self.alloc; "{folder}/{id}")?;
        if let Some(file) = open_file(self.files, path.as_str(), create)? {
            self.open = Some(OpenBody { id, file });
        }
        Ok(())
    }

    fn size_of(&mut self, id: u64) -> io::Result<u64>
        ensures { self.new.faults ≡ self.old.faults }
    {
        self.hold(id, false)?;
        match self.file(id) {
            Some(file) => Ok(file.metadata()?.len()),
            None => Ok(0),
        }
    }

    fn read_from(&mut self, id: u64, at: u64, buf: &mut [u8]) -> io::Result<usize>
        ensures faults { self.new.faults ≡ self.old.faults }
        ensures bound { ReadsAtMost result buf.new }
    {
        self.hold(id, false)?;
        match self.file(id) {
            Some(file) => read_tried(file, buf, at),
            None => Ok(0),
        }
    }

    fn append_to(&mut self, id: u64, at: u64, bytes: &[u8]) -> io::Result<()>
        ensures { self.new.faults ≡ self.old.faults }
    {
        self.hold(id, true)?;
        match self.file(id) {
            Some(file) => append(file, at, bytes),
            None => Err(io::Error::from(ErrorKind::NotFound)),
        }
    }
}

impl<'f, R: Files<File = File>> Vault for FolderVault<'f, R> {
    ghost state = { λ v. opaque_vault v.faults };

    fn size(&mut self, id: u64) -> Result<u64, Failed> {
        let outcome = self.size_of(id);
        self.settled(id, "length", outcome)
    }

    fn write(&mut self, id: u64, at: u64, bytes: &[u8]) -> Result<(), Failed> {
        let outcome = self.append_to(id, at, bytes);
        self.settled(id, "write", outcome)
    }

    fn read(&mut self, id: u64, at: u64, buf: &mut [u8]) -> Result<usize, Failed> {
        let outcome = self.read_from(id, at, buf);
        self.settled(id, "read", outcome)
    }
}
