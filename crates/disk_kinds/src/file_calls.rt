//! Calls on a real file, each tried again if a signal interrupts it.
ghost use Rattle.std.specs.Prelude.{◌≡◌, ◌≤◌, ◌<◌, ◌+◌, ◌-◌, ◌^◌, length, drop, IfOk, OnOk};
ghost use Rattle.std.specs.Io.{ReadsAtMost, WritesAtMost};

use crate::pieces::copy_front;
use hk_base::LONGEST_FILE;
use std::fs::File;
use std::io::{self, ErrorKind};
use std::os::unix::fs::FileExt;

/// How many times a call is tried if a signal interrupts it.
const TRIES: u32 = 1000;

/// The most bytes read at a time.
const PIECE: usize = 4096;

fn read_tried(file: &File, buf: &mut [u8], at: u64) -> io::Result<usize>
    ensures { ReadsAtMost result buf.new }
{
    for _ in 0..TRIES {
        match file.read_at(buf, at) {
            Ok(count) => return Ok(count),
            Err(error) => {
                if error.kind() != ErrorKind::Interrupted {
                    return Err(error);
                }
            }
        }
    }
    Err(io::Error::from(ErrorKind::Interrupted))
}

fn write_tried(file: &File, bytes: &[u8], at: u64) -> io::Result<usize>
    ensures { WritesAtMost result bytes.now }
{
    for _ in 0..TRIES {
        match file.write_at(bytes, at) {
            Ok(count) => return Ok(count),
            Err(error) => {
                if error.kind() != ErrorKind::Interrupted {
                    return Err(error);
                }
            }
        }
    }
    Err(io::Error::from(ErrorKind::Interrupted))
}

/// Cuts a file to a length.
pub(crate) fn cut_tried(file: &File, len: u64) -> io::Result<()> {
    for _ in 0..TRIES {
        match file.set_len(len) {
            Ok(()) => return Ok(()),
            Err(error) => {
                if error.kind() != ErrorKind::Interrupted {
                    return Err(error);
                }
            }
        }
    }
    Err(io::Error::from(ErrorKind::Interrupted))
}

/// Syncs the content of a file.
pub(crate) fn sync_tried(file: &File) -> io::Result<()> {
    for _ in 0..TRIES {
        match file.sync_data() {
            Ok(()) => return Ok(()),
            Err(error) => {
                if error.kind() != ErrorKind::Interrupted {
                    return Err(error);
                }
            }
        }
    }
    Err(io::Error::from(ErrorKind::Interrupted))
}

fn too_long() -> io::Error {
    io::Error::new(ErrorKind::FileTooLarge, "more than 2^62 bytes")
}

/// Returns the length of a file. Fails if it is over 2^62 bytes.
pub(crate) fn length_of(file: &File) -> io::Result<u64>
    ensures { IfOk result (λ n. n ≤ 2 ^ 62) }
{
    let len = file.metadata()?.len();
    if len > LONGEST_FILE {
        return Err(too_long());
    }
    Ok(len)
}

/// Reads from an offset until the buffer is full or the file ends. Returns the number of bytes read.
pub(crate) fn read_all(file: &File, buf: &mut [u8], at: u64) -> io::Result<usize>
    ensures count { IfOk result (λ n. n ≤ length buf.new) }
    ensures rest { IfOk result (λ n. drop n buf.new ≡ drop n buf.old) }
{
    let mut done = 0;
    while done < buf.len() {
        let (_, rest) = buf.split_at_mut(done);
        let count = read_piece(file, rest, at.saturating_add(done as u64))?;
        if count == 0 {
            return Ok(done);
        }
        done += count;
    }
    Ok(done)
}

/// Reads up to 4,096 bytes and leaves the rest of the buffer unchanged.
fn read_piece(file: &File, buf: &mut [u8], at: u64) -> io::Result<usize>
    ensures count { IfOk result (λ n. n ≤ length buf.new) }
    ensures rest { IfOk result (λ n. drop n buf.new ≡ drop n buf.old) }
{
    let mut piece = [0u8; PIECE];
    let want = buf.len().min(PIECE);
    let count = read_tried(file, &mut piece[..want], at)?;
    Ok(copy_front(&piece[..count], buf))
}

/// Writes all the bytes at an offset.
fn write_all(file: &File, bytes: &[u8], at: u64) -> io::Result<()> {
    let mut done = 0;
    while done < bytes.len() {
        let count = write_tried(file, &bytes[done..], at.saturating_add(done as u64))?;
        if count == 0 {
            return Err(io::Error::from(ErrorKind::WriteZero));
        }
        done += count;
    }
    Ok(())
}

/// Writes all the bytes at an offset. Writes nothing if the file would be longer than 2^62 bytes.
pub(crate) fn write_within(file: &File, bytes: &[u8], at: u64) -> io::Result<()>
    ensures { OnOk result (at + length bytes.now ≤ 2 ^ 62) }
{
    let size = bytes.len() as u64;
    if at > LONGEST_FILE || size > LONGEST_FILE - at {
        return Err(too_long());
    }
    write_all(file, bytes, at)
}
