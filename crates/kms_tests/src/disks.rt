//! Disks of real files and in memory.
use disk_kinds::{FileDisk, MemDisk, PlainDisk};
use hk_base::{Disk, Failed, LONGEST_FILE};
use std::fs::{self, File};
use std::io::ErrorKind;
use std::process::Abort;
use std::rt::{Files, Stderr};

fn open(
    rt: &(impl Abort + AllocGlobal + Files<File = File>),
    folder: &str,
    errors: Stderr,
) -> FileDisk {
    FileDisk::open(rt, rt.alloc(), folder, errors).expect(rt, "a disk")
}

fn write(rt: &impl Abort, disk: &mut FileDisk, file: u8, at: u64, bytes: &[u8]) {
    if file < 2 {
        assert_eq!(rt; disk.write_at(file, at, bytes), Ok(()));
    }
}

fn check_file(rt: &(impl Abort + AllocGlobal + Files<File = File>), path: &str, bytes: &[u8]) {
    let content = fs::read(rt, path).expect(rt, "a file");
    assert_eq!(rt; content.as_slice(), bytes);
}

fn check_read(rt: &impl Abort, disk: &mut FileDisk) {
    let mut piece = [0u8; 10];
    assert_eq!(rt; disk.read(0, 1, &mut piece), Ok(5));
    assert_eq!(rt; piece.as_slice(), b"bCDef\0\0\0\0\0".as_slice());
}

fn fill(rt: &impl Abort, disk: &mut FileDisk) {
    write(rt, disk, 0, 0, b"abcdef");
    write(rt, disk, 1, 0, b"names");
    write(rt, disk, 0, 2, b"CD");
    assert_eq!(rt; disk.cut(1, 4), Ok(()));
    assert_eq!(rt; disk.sync(0), Ok(()));
    assert_eq!(rt; disk.sync(1), Ok(()));
}

/// A file can't grow past its limit, which counts as a fault.
fn check_limit(rt: &impl Abort, disk: &mut FileDisk) {
    assert_eq!(rt; disk.len(0), Ok(6));
    assert_eq!(rt; disk.faults, 0);
    assert_eq!(rt; disk.write_at(0, LONGEST_FILE, b"a"), Err(Failed));
    assert_eq!(rt; disk.faults, 1);
}

fn fill_and_read(rt: &(impl Abort + AllocGlobal + Files<File = File>), errors: Stderr) {
    let mut disk = open(rt, "disk", errors);
    fill(rt, &mut disk);
    check_read(rt, &mut disk);
}

fn open_again(rt: &(impl Abort + AllocGlobal + Files<File = File>), errors: Stderr) {
    let mut disk = open(rt, "disk", errors);
    check_limit(rt, &mut disk);
}

#[test]
fn real_files_keep_what_is_written(rt: HostRuntime) {
    fs::create_dir(&rt, "disk").expect(&rt, "a folder");
    fill_and_read(&rt, rt.stderr());
    check_file(&rt, "disk/keys.log", b"abCDef");
    check_file(&rt, "disk/names.log", b"name");
    open_again(&rt, rt.stderr());
    fs::remove_dir_all(&rt, "disk").expect(&rt, "a folder");
}

fn is_held(
    rt: &(impl Abort + AllocGlobal + Files<File = File>),
    folder: &str,
    errors: Stderr,
) -> bool {
    match FileDisk::open(rt, rt.alloc(), folder, errors) {
        Ok(_) => false,
        Err(error) => error.kind() == ErrorKind::WouldBlock,
    }
}

/// While a disk lives no other opens its files.
fn check_held(rt: &(impl Abort + AllocGlobal + Files<File = File>), errors: Stderr) {
    let mut disk = open(rt, "held", errors);
    write(rt, &mut disk, 0, 0, b"abc");
    assert!(rt; is_held(rt, "held", errors));
    assert!(rt; is_held(rt, "held", errors));
    assert_eq!(rt; disk.len(0), Ok(3));
}

/// A lock on either file keeps both from being opened.
fn check_held_by(rt: &(impl Abort + AllocGlobal + Files<File = File>), path: &str, errors: Stderr) {
    let file = File::open(rt, path).expect(rt, "a file");
    file.lock().expect(rt, "a lock");
    assert!(rt; is_held(rt, "held", errors));
    file.unlock().expect(rt, "a lock");
    assert!(rt; !is_held(rt, "held", errors));
}

#[test]
fn real_files_are_held(rt: HostRuntime) {
    fs::create_dir(&rt, "held").expect(&rt, "a folder");
    check_held(&rt, rt.stderr());
    check_held_by(&rt, "held/names.log", rt.stderr());
    check_held_by(&rt, "held/keys.log", rt.stderr());
    check_file(&rt, "held/keys.log", b"abc");
    fs::remove_dir_all(&rt, "held").expect(&rt, "a folder");
}

fn append(rt: &impl Abort, disk: &mut PlainDisk, frame: &[u8]) {
    let end = disk.bytes(0).len() as u64;
    assert_eq!(rt; disk.write_at(0, end, frame), Ok(()));
}

/// A file of 1,000,000 bytes is written in place, and not copied by each write.
#[test]
fn a_long_file_is_written_in_place(rt: HostRuntime) {
    let mut disk = PlainDisk::new(rt.alloc());
    for _ in 0..10_000 {
        append(&rt, &mut disk, &[7; 100]);
    }
    assert_eq!(rt; disk.len(0), Ok(1_000_000));
    assert!(rt; disk.bytes(0).iter().all(|byte| *byte == 7));
}

fn mem_disk(rt: &(impl Abort + AllocGlobal), failing: &[u64]) -> MemDisk {
    let none = Vec::new(rt.alloc());
    let failing = failing.to_vec(rt.alloc()).expect(rt, "memory");
    MemDisk::new(rt.alloc(), none, Vec::new(rt.alloc()), failing).expect(rt, "memory")
}

/// The first write fails and writes half of its bytes.
#[test]
fn a_failing_write_in_memory_writes_half(rt: HostRuntime) {
    let mut disk = mem_disk(&rt, &[1]);
    assert_eq!(rt; disk.write_at(1, 0, b"abcd"), Err(Failed));
    assert_eq!(rt; disk.bytes(1), b"ab".as_slice());
    assert_eq!(rt; disk.sync(1), Ok(()));
    assert_eq!(rt; disk.synced(1), b"ab".as_slice());
}
