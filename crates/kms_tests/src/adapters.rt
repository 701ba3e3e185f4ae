//! Readers and writers that signals interrupt, and the clock.
ghost use Rattle.std.specs.Prelude.{◌≤◌, IfOk};

use disk_kinds::{Reading, WallClock, Writing, open_source};
use hk_base::{Clock, Failed, Sink, Source};
use std::fs::{self, File};
use std::io::{self, ErrorKind, Read, Write};
use std::process::Abort;
use std::rt::Files;

/// A reader and writer whose calls go by a script: `i` is an interruption, `e` an error, `1` one
/// byte, and anything else none.
#[derive(Drop)]
struct Signals {
    script: &'static [u8],
    at: usize,
}

impl Signals {
    fn new(script: &'static [u8]) -> Signals {
        Signals { script, at: 0 }
    }

    fn next(&mut self) -> io::Result<usize>
        ensures { IfOk result (λ n. n ≤ 1) }
    {
        let step = self.script.get(self.at).copied().unwrap_or(b'0');
        self.at = self.at.saturating_add(1);
        match step {
            b'i' => Err(io::Error::from(ErrorKind::Interrupted)),
            b'e' => Err(io::Error::from(ErrorKind::Other)),
            b'1' => Ok(1),
            _ => Ok(0),
        }
    }
}

impl Read for Signals {
    fn read(&mut self, buf: &mut [u8]) -> io::Result<usize> {
        let count = self.next()?;
        Ok(count.min(buf.len()))
    }
}

impl Write for Signals {
    fn write(&mut self, buf: &[u8]) -> io::Result<usize> {
        let count = self.next()?;
        Ok(count.min(buf.len()))
    }

    fn flush(&mut self) -> io::Result<()> {
        Ok(())
    }
}

type Counted = Result<usize, Failed>;

fn check_read(rt: &impl Abort, source: &mut Reading<Signals>, wanted: Counted, faults: u64) {
    let mut piece = [0u8; 4];
    assert_eq!(rt; source.read(&mut piece), wanted);
    assert_eq!(rt; source.faults, faults);
}

#[test]
fn errors_of_a_reader_are_counted(rt: HostRuntime) {
    let mut source = Reading::new(Signals::new(b"ii1e0"));
    check_read(&rt, &mut source, Ok(1), 0);
    check_read(&rt, &mut source, Err(Failed), 1);
    check_read(&rt, &mut source, Ok(0), 1);
}

fn check_write(
    rt: &impl Abort,
    sink: &mut Writing<Signals>,
    bytes: &[u8],
    wanted: Counted,
    faults: u64,
) {
    assert_eq!(rt; sink.write(bytes), wanted);
    assert_eq!(rt; sink.faults, faults);
}

#[test]
fn errors_of_a_writer_are_counted(rt: HostRuntime) {
    let mut sink = Writing::new(Signals::new(b"i1e00"));
    check_write(&rt, &mut sink, b"ab", Ok(1), 0);
    check_write(&rt, &mut sink, b"b", Err(Failed), 1);
    check_write(&rt, &mut sink, b"b", Ok(0), 2);
    check_write(&rt, &mut sink, b"", Ok(0), 2);
}

fn check_piece<S: Source>(rt: &impl Abort, source: &mut S, wanted: &[u8]) {
    let mut piece = [0u8; 4];
    assert_eq!(rt; source.read(&mut piece), Ok(wanted.len()));
    assert!(rt; piece.starts_with(wanted));
}

fn read_pieces(rt: &(impl Abort + Files<File = File>)) {
    let opened = open_source(rt, "source.txt").expect(rt, "the file");
    let mut source = opened.expect(rt, "the file");
    check_piece(rt, &mut source, b"abcd");
    check_piece(rt, &mut source, b"e");
    check_piece(rt, &mut source, b"");
}

#[test]
fn a_file_is_read_in_pieces(rt: HostRuntime) {
    fs::write(&rt, "source.txt", b"abcde").expect(&rt, "the file");
    read_pieces(&rt);
    fs::remove_file(&rt, "source.txt").expect(&rt, "the file");
    let opened = open_source(&rt, "source.txt").expect(&rt, "no file");
    assert!(rt; opened.is_none());
}

#[test]
fn the_clock_is_past_2020(rt: HostRuntime) {
    let mut clock = WallClock::new(rt);
    assert!(rt; clock.now_ms() > 1_577_836_800_000);
    assert_eq!(rt; clock.faults, 0);
}
