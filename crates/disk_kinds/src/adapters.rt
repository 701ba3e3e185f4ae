//! Adapters over the system's readers, writers and clock that count errors.
ghost use Rattle.std.specs.Prelude.{◌≡◌, ◌≤◌, ◌<◌, ◌+◌, ◌-◌, ◌^◌, min, IfOk, IfSome};
ghost use Rattle.std.specs.Io.{ReadsAtMost, WritesAtMost};
ghost use Rattle.std.specs.Io.KnownBytes.{ReadConsumes, WriteAppends};

use hk_base::{Clock, Failed, Sink, Source};
use std::fs::{self, File};
use std::io::{self, ErrorKind, Read, Write};
use std::rt::Files;
use std::time;

/// How many times a call is tried if a signal interrupts it.
const TRIES: u32 = 1000;

/// Returns the count of faults after one more fault.
fn one_more(faults: u64) -> u64
    ensures { result ≡ min (faults + 1) (2 ^ 64 - 1) }
{
    faults.saturating_add(1)
}

/// A source over a reader. It counts errors, up to 2^64 - 1. A read that a signal interrupts is tried
/// again, up to 1,000 times in all. It promises the bytes still to come if the reader does.
#[derive(Drop)]
pub struct Reading<R: Read + Drop> {
    pub inner: R,
    pub faults: u64,
}

/// A source over a file.
pub type FileSource = Reading<File>;

impl<R: Read + Drop> Reading<R> {
    pub fn new(inner: R) -> Reading<R>
        ensures inner { result.inner ≡ inner }
        ensures faults { result.faults ≡ 0 }
    {
        Reading { inner, faults: 0 }
    }
}

/// Returns whether a path has an entry. A link counts as one, wherever it leads.
fn has_entry<R: Files>(files: &R, path: &str) -> io::Result<bool> {
    match fs::symlink_metadata(files, path) {
        Ok(_) => Ok(true),
        Err(error) => {
            if error.kind() == ErrorKind::NotFound {
                return Ok(false);
            }
            Err(error)
        }
    }
}

/// Opens a regular file, or a link to one, for reading. Returns `None` if the path has no entry. Fails
/// if the entry is of another kind or can't be opened, as a link that leads nowhere.
pub fn open_source<R: Files>(files: &R, path: &str) -> io::Result<Option<Reading<R::File>>>
    ensures { IfOk result (λ source. IfSome source (λ source. source.faults ≡ 0)) }
{
    if !has_entry(files, path)? {
        return Ok(None);
    }
    // To open a named pipe would wait for its writer.
    if !fs::metadata(files, path)?.is_file() {
        return Err(io::Error::new(ErrorKind::InvalidInput, "not a regular file"));
    }
    Ok(Some(Reading::new(fs::open(files, path)?)))
}

fn read_tried<R: Read>(inner: &mut R, buf: &mut [u8]) -> Result<usize, Failed>
    ensures bound { ReadsAtMost result buf.new }
    ensures bytes { ReadConsumes (R.remaining inner.old) (R.remaining inner.new) result buf.new }
{
    for _ in 0..TRIES {
        match inner.read(buf) {
            Ok(count) => return Ok(count),
            Err(error) => {
                if error.kind() != ErrorKind::Interrupted {
                    return Err(Failed);
                }
            }
        }
    }
    Err(Failed)
}

impl<R: Read + Drop> Source for Reading<R> {
    ghost left = { λ s. R.remaining s.inner };

    ghost faults = { λ s. s.faults };

    fn read(&mut self, buf: &mut [u8]) -> Result<usize, Failed> {
        match read_tried(&mut self.inner, buf) {
            Ok(count) => Ok(count),
            Err(failed) => {
                self.faults = one_more(self.faults);
                Err(failed)
            }
        }
    }
}

/// A sink over a writer. It counts errors, up to 2^64 - 1. A write that a signal interrupts is tried
/// again, up to 1,000 times in all. A write that takes nothing of a slice counts as a fault. It
/// promises the bytes written if the writer does.
#[derive(Drop)]
pub struct Writing<W: Write + Drop> {
    pub inner: W,
    pub faults: u64,
}

impl<W: Write + Drop> Writing<W> {
    pub fn new(inner: W) -> Writing<W>
        ensures inner { result.inner ≡ inner }
        ensures faults { result.faults ≡ 0 }
    {
        Writing { inner, faults: 0 }
    }
}

fn write_tried<W: Write>(inner: &mut W, bytes: &[u8]) -> Result<usize, Failed>
    ensures bound { WritesAtMost result bytes.now }
    ensures bytes { WriteAppends (W.contents inner.old) (W.contents inner.new) result bytes.now }
{
    for _ in 0..TRIES {
        match inner.write(bytes) {
            Ok(count) => return Ok(count),
            Err(error) => {
                if error.kind() != ErrorKind::Interrupted {
                    return Err(Failed);
                }
            }
        }
    }
    Err(Failed)
}

impl<W: Write + Drop> Sink for Writing<W> {
    ghost written = { λ s. W.contents s.inner };

    ghost faults = { λ s. s.faults };

    fn write(&mut self, bytes: &[u8]) -> Result<usize, Failed> {
        match write_tried(&mut self.inner, bytes) {
            Ok(count) => {
                if count == 0 && !bytes.is_empty() {
                    self.faults = one_more(self.faults);
                }
                Ok(count)
            }
            Err(failed) => {
                self.faults = one_more(self.faults);
                Err(failed)
            }
        }
    }
}

/// A clock over the system's clock. It reads 0 on an error, and counts each reading of 0, up to
/// 2^64 - 1; no clock that is set reads 0.
#[derive(Drop)]
pub struct WallClock<C: time::Clock + Drop> {
    pub clock: C,
    pub faults: u64,
}

impl<C: time::Clock + Drop> WallClock<C> {
    pub fn new(clock: C) -> WallClock<C>
        ensures clock { result.clock ≡ clock }
        ensures faults { result.faults ≡ 0 }
    {
        WallClock { clock, faults: 0 }
    }
}

/// Returns the milliseconds since the start of 1970, or 0 on an error.
fn read_ms<C: time::Clock>(clock: &C) -> u64 {
    match clock.since_1970() {
        Ok(elapsed) => elapsed.as_millis().min(u64::MAX as u128) as u64,
        Err(_) => 0,
    }
}

impl<C: time::Clock + Drop> Clock for WallClock<C> {
    fn now_ms(&mut self) -> u64
        ensures failed { result ≡ 0 → self.new.faults ≡ min (self.old.faults + 1) (2 ^ 64 - 1) }
        ensures read { 0 < result → self.new.faults ≡ self.old.faults }
    {
        let now = read_ms(&self.clock);
        if now == 0 {
            self.faults = one_more(self.faults);
        }
        now
    }
}
