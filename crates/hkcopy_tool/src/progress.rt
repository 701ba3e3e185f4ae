//! How many files a copy has copied, told on a terminal.
use body_stream::Vault;
use hk_base::{Clock, Failed};
use std::io::{self, Write};
use std::rt::{Stderr, Stdout};

/// The least time from one line to the next, in milliseconds.
const PAUSE: u64 = 250;

/// Counts the files of a copy. If `shows`, it writes the number of those that are copied to `errors`, at
/// most four times a second. Each line takes the place of the one before it.
#[derive(Drop)]
pub struct Progress<C: Clock + Drop> {
    errors: Stderr,
    shows: bool,
    clock: C,
    files: u64,
    last: u64,
}

impl<C: Clock + Drop> Progress<C> {
    pub fn new(errors: Stderr, shows: bool, clock: C) -> Progress<C> {
        Progress {
            errors,
            shows,
            clock,
            files: 0,
            last: 0,
        }
    }

    /// Returns whether the last line is old enough for another one. A clock that was set back is not
    /// waited for.
    fn is_due(&mut self) -> bool {
        let now = self.clock.now_ms();
        if now.abs_diff(self.last) < PAUSE {
            return false;
        }
        self.last = now;
        true
    }

    /// Notes that the next file begins.
    fn begin_file(&mut self) {
        if !self.shows {
            return;
        }
        if self.is_due() {
            let files = self.files;
            let _ = eprint!(self.errors; "{files} files copied\r");
        }
        self.files = self.files.saturating_add(1);
    }
}

/// A vault that copies are written to. A copy asks for the size of the body of each file once, before
/// it writes it, and these calls are counted.
#[derive(Drop)]
pub struct CountedVault<V: Vault + Drop, C: Clock + Drop> {
    vault: V,
    progress: Progress<C>,
}

impl<V: Vault + Drop, C: Clock + Drop> CountedVault<V, C> {
    pub fn new(vault: V, progress: Progress<C>) -> CountedVault<V, C> {
        CountedVault { vault, progress }
    }
}

impl<V: Vault + Drop, C: Clock + Drop> Vault for CountedVault<V, C> {
    ghost state = { λ v. V.state v.vault };

    fn size(&mut self, id: u64) -> Result<u64, Failed> {
        self.progress.begin_file();
        self.vault.size(id)
    }

    fn write(&mut self, id: u64, at: u64, bytes: &[u8]) -> Result<(), Failed> {
        self.vault.write(id, at, bytes)
    }

    fn read(&mut self, id: u64, at: u64, buf: &mut [u8]) -> Result<usize, Failed> {
        self.vault.read(id, at, buf)
    }
}

/// Standard output. If `shows`, what `Progress` wrote is removed from the terminal before the first
/// byte.
#[derive(Drop)]
pub struct LastLines {
    out: Stdout,
    errors: Stderr,
    shows: bool,
}

impl LastLines {
    pub fn new(out: Stdout, errors: Stderr, shows: bool) -> LastLines {
        LastLines { out, errors, shows }
    }
}

impl Write for LastLines {
    fn write(&mut self, buf: &[u8]) -> io::Result<usize> {
        if self.shows {
            let _ = eprint!(self.errors; "\x1b[K");
            self.shows = false;
        }
        self.out.write(buf)
    }

    fn flush(&mut self) -> io::Result<()> {
        self.out.flush()
    }
}
