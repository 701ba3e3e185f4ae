//! Reading the files of a disk into memory.
ghost use Rattle.std.specs.Prelude.{◌≡◌, ◌-◌, ◌<◌, ◌≤◌, ◌++◌, [], IfErr, IfOk, OnOk, length};
ghost use Rattle.disk_kinds.specs.Plain.{contents};
ghost use Rattle.hk_base.specs.Disk.{Tells};
ghost use Rattle.check_run.specs.Checks.{AreBytesOf};
ghost use Rattle.check_run.specs.Looks.{AppendsPiece, CannotLook, IsWholeCopy, IsFrontOf, OnlyLooks};

use command_io::ReplayEnd;
use disk_kinds::PlainDisk;
use hk_base::{Disk, NoMemory};
use std::alloc::Global;

/// The most bytes that are read at a time.
const PIECE: usize = 4096;

/// How many times a file is read on if it grows.
const ROUNDS: u32 = 1000;

/// Appends bytes to a file in memory that has `at` bytes.
fn append(copy: &mut PlainDisk, file: u8, at: u64, bytes: &[u8]) -> Result<(), NoMemory>
    requires file { file < 2 }
    requires end { length (contents copy.old file) ≡ at }
    ensures file { OnOk result
        (contents copy.new file ≡ contents copy.old file ++ bytes.now) }
    ensures other { contents copy.new (1 - file) ≡ contents copy.old (1 - file) }
{
    match copy.write_at(file, at, bytes) {
        Ok(()) => Ok(()),
        Err(_) => Err(NoMemory),
    }
}

/// Reads up to 4,096 bytes of a file from `at` on, and appends them to a file in memory that has `at`
/// bytes. Returns the number of bytes.
fn copy_piece<D: Disk>(
    disk: &mut D,
    file: u8,
    at: u64,
    copy: &mut PlainDisk,
) -> Result<u64, ReplayEnd>
    requires file { file < 2 }
    requires end { length (contents copy.old file) ≡ at }
    requires place { Tells (D.state disk.old) → at ≤ length ((D.state disk.old).reads file) }
    ensures copied { IfOk result
        (AppendsPiece file at (D.state disk.old) (contents copy.old file) (contents copy.new file)) }
    ensures other { contents copy.new (1 - file) ≡ contents copy.old (1 - file) }
    ensures looks { OnlyLooks (D.state disk.old) (D.state disk.new) }
    ensures ends { IfErr result (CannotLook (D.state disk.old) (D.state disk.new)) }
{
    let mut piece = [0u8; PIECE];
    let count = match disk.read(file, at, &mut piece) {
        Ok(count) => count,
        Err(_) => return Err(ReplayEnd::StoreFault),
    };
    match append(copy, file, at, &piece[..count]) {
        Ok(()) => Ok(count as u64),
        Err(_) => Err(ReplayEnd::NoMemory),
    }
}

/// Reads a file of a disk from `from` on to its end, and appends that to a file in memory that has its first
/// `from` bytes. Returns the number of bytes that are in memory then.
fn copy_more<D: Disk>(
    disk: &mut D,
    file: u8,
    from: u64,
    copy: &mut PlainDisk,
) -> Result<u64, ReplayEnd>
    requires file { file < 2 }
    requires end { length (contents copy.old file) ≡ from }
    requires front { IsFrontOf (D.state disk.old) file from (contents copy.old file) }
    ensures copied { IfOk result
        (λ end. IsWholeCopy (D.state disk.old) file end (contents copy.new file)) }
    ensures other { contents copy.new (1 - file) ≡ contents copy.old (1 - file) }
    ensures looks { OnlyLooks (D.state disk.old) (D.state disk.new) }
    ensures ends { IfErr result (CannotLook (D.state disk.old) (D.state disk.new)) }
{
    let size = match disk.len(file) {
        Ok(size) => size,
        Err(_) => return Err(ReplayEnd::StoreFault),
    };
    let mut at = from;
    'pieces: while at < size {
        match copy_piece(disk, file, at, copy) {
            Err(end) => return Err(end),
            // The file has got shorter.
            Ok(0) => return Ok(at),
            Ok(count) => at += count,
        }
    }
    Ok(at)
}

/// Reads a file of a disk to its end into an empty file in memory. A server may append to the file
/// meanwhile, and then sets a byte that comes before what it appended. So it reads on until the file has
/// not grown.
fn copy_file<D: Disk>(disk: &mut D, file: u8, copy: &mut PlainDisk) -> Result<(), ReplayEnd>
    requires file { file < 2 }
    requires empty { contents copy.old file ≡ [] }
    ensures copied { OnOk result
        (Tells (D.state disk.old) → contents copy.new file ≡ (D.state disk.old).reads file) }
    ensures other { contents copy.new (1 - file) ≡ contents copy.old (1 - file) }
    ensures looks { OnlyLooks (D.state disk.old) (D.state disk.new) }
    ensures ends { IfErr result (CannotLook (D.state disk.old) (D.state disk.new)) }
{
    let mut at = copy_more(disk, file, 0, copy)?;
    'rounds: for _ in 0..ROUNDS {
        let end = copy_more(disk, file, at, copy)?;
        if end == at {
            return Ok(());
        }
        at = end;
    }
    Ok(())
}

/// Reads both files of a disk into an empty disk in memory.
fn copy_both<D: Disk>(disk: &mut D, copy: &mut PlainDisk) -> Result<(), ReplayEnd>
    requires first { contents copy.old 0 ≡ [] }
    requires second { contents copy.old 1 ≡ [] }
    ensures copied { OnOk result (AreBytesOf (D.state disk.old) (contents copy.new)) }
    ensures looks { OnlyLooks (D.state disk.old) (D.state disk.new) }
    ensures ends { IfErr result (CannotLook (D.state disk.old) (D.state disk.new)) }
{
    // A server may run beside it, and writes a version to the key log before a file is under it.
    copy_file(disk, 1, copy)?;
    copy_file(disk, 0, copy)
}

/// Reads both files of a disk into memory. Changes neither.
pub(crate) fn copy_of_logs<D: Disk>(alloc: Global, disk: &mut D) -> Result<PlainDisk, ReplayEnd>
    ensures copied { IfOk result (λ copy. AreBytesOf (D.state disk.old) (contents copy)) }
    ensures looks { OnlyLooks (D.state disk.old) (D.state disk.new) }
    ensures ends { IfErr result (CannotLook (D.state disk.old) (D.state disk.new)) }
{
    let mut copy = PlainDisk::new(alloc);
    match copy_both(disk, &mut copy) {
        Ok(()) => Ok(copy),
        Err(end) => {
            drop(copy);
            Err(end)
        }
    }
}
