//! Both logs of the current folder, opened for reading alone.
ghost use Rattle.std.specs.Prelude.{◌≡◌, ◌≤◌, ◌^◌, length, drop, IfOk, OnErr};
ghost use Rattle.std.specs.Io.{ReadsAtMost};
ghost use Rattle.disk_kinds.specs.Opaque.{opaque};
ghost use Rattle.hk_base.specs.Faults.{Rose};

use disk_kinds::open_source;
use hk_base::{Disk, Failed, LONGEST_FILE};
use std::fs::File;
use std::io::{self, ErrorKind};
use std::os::unix::fs::FileExt;
use std::rt::{Files, Stderr};

/// How many times a read is tried if a signal interrupts it.
const TRIES: u32 = 1000;

/// The most bytes read at a time.
const PIECE: usize = 4096;

/// The files `keys.log` and `names.log` of the current folder, of which only reads work. A file that is
/// missing reads as an empty one. It takes no lock. Contracts promise nothing about what the files hold.
/// It writes a line to standard error for a read that fails.
#[derive(Drop)]
pub struct LookDisk {
    keys: Option<File>,
    names: Option<File>,
    errors: Stderr,
    faults: u64,
}

/// Opens a file for reading, if it is there.
fn open_file<R: Files<File = File>>(files: &R, path: &str) -> io::Result<Option<File>> {
    match open_source(files, path)? {
        Some(source) => Ok(Some(source.inner)),
        None => Ok(None),
    }
}

/// Returns the length of a file. Fails if it is over 2^62 bytes.
fn length_of(file: &Option<File>) -> io::Result<u64>
    ensures { IfOk result (λ n. n ≤ 2 ^ 62) }
{
    match file {
        None => Ok(0),
        Some(file) => {
            let len = file.metadata()?.len();
            if len > LONGEST_FILE {
                return Err(io::Error::new(ErrorKind::FileTooLarge, "more than 2^62 bytes"));
            }
            Ok(len)
        }
    }
}

fn read_tried(file: &File, buf: &mut [u8], at: u64) -> io::Result<usize>
    ensures { ReadsAtMost result buf.new }
{
    for _ in 0..TRIES {
        match file.read_at(buf, at) {
            Ok(count) => return Ok(count),
            Err(error) => {
                if error.kind() != ErrorKind::Interrupted {
                    return Err(error);
                }
            }
        }
    }
    Err(io::Error::from(ErrorKind::Interrupted))
}

/// Reads up to 4,096 bytes into the start of the buffer and leaves the rest of it unchanged.
fn read_piece(file: &Option<File>, at: u64, buf: &mut [u8]) -> io::Result<usize>
    ensures count { IfOk result (λ n. n ≤ length buf.new) }
    ensures rest { IfOk result (λ n. drop n buf.new ≡ drop n buf.old) }
{
    match file {
        None => Ok(0),
        Some(file) => {
            let mut piece = [0u8; PIECE];
            let want = buf.len().min(PIECE);
            let count = read_tried(file, &mut piece[..want], at)?;
            let (front, _) = buf.split_at_mut(count);
            front.copy_from_slice(&piece[..count]);
            Ok(count)
        }
    }
}

impl LookDisk {
    /// Opens both files. Fails if one is there and cannot be opened, or is no regular file. It reports
    /// later failures on `errors`.
    pub fn open<R: Files<File = File>>(files: &R, errors: Stderr) -> io::Result<LookDisk> {
        let keys = open_file(files, "keys.log")?;
        let names = open_file(files, "names.log")?;
        Ok(LookDisk {
            keys,
            names,
            errors,
            faults: 0,
        })
    }

    fn file(&self, file: u8) -> &Option<File> {
        if file == 0 { &self.keys } else { &self.names }
    }

    /// Reports that a call failed, and counts the fault.
    fn report(&mut self, call: &str, error: &io::Error) -> Failed
        ensures later { self.old.faults ≤ self.new.faults }
        ensures fault { Rose self.old.faults self.new.faults }
    {
        let _ = eprintln!(self.errors; "hkms: a log: {call} failed: {error}");
        self.fault()
    }

    /// Counts a fault.
    fn fault(&mut self) -> Failed
        ensures later { self.old.faults ≤ self.new.faults }
        ensures fault { Rose self.old.faults self.new.faults }
    {
        self.faults = self.faults.saturating_add(1);
        Failed
    }
}

impl Disk for LookDisk {
    ghost state = { λ d. opaque d.faults };

    ghost counts_now = { λ d t c le now. tt };

    ghost only_now = { λ d c left f lt. tt };

    ghost is_one = { λ d f tells lt. Prim.cc tells };

    ghost bounded = { λ d f tells lt. Prim.cc tells };

    ghost later_leaves_less = { λ d s t c le left. left };

    fn len(&mut self, file: u8) -> Result<u64, Failed> {
        match length_of(self.file(file)) {
            Ok(len) => Ok(len),
            Err(error) => Err(self.report("length", &error)),
        }
    }

    fn read(&mut self, file: u8, at: u64, buf: &mut [u8]) -> Result<usize, Failed> {
        match read_piece(self.file(file), at, buf) {
            Ok(count) => Ok(count),
            Err(error) => Err(self.report("read", &error)),
        }
    }

    /// Fails.
    #[tactic(auto, using(disk_kinds::proofs::OpaqueLemmas::opaque_torn))]
    fn write_at(&mut self, _file: u8, _at: u64, _bytes: &[u8]) -> Result<(), Failed> {
        Err(self.fault())
    }

    /// Fails.
    #[tactic(auto, using(disk_kinds::proofs::OpaqueLemmas::opaque_cut))]
    fn cut(&mut self, _file: u8, _len: u64) -> Result<(), Failed> {
        Err(self.fault())
    }

    /// Fails.
    fn sync(&mut self, _file: u8) -> Result<(), Failed> {
        Err(self.fault())
    }
}
