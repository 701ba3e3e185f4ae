//! A vault over a real folder.
use crate::examples::{body, check_written, file, key, new_sink, source_of};
use body_kinds::FolderVault;
use body_stream::{BodyFault, Vault, put_body, read_body};
use hk_base::Failed;
use std::fs::{self, File};
use std::os::unix::fs::PermissionsExt;
use std::process::Abort;
use std::rt::{Files, Stderr};

/// Puts the example as body 7.
fn fill<R: Abort + AllocGlobal + Files<File = File>>(rt: &R, vault: &mut FolderVault<'_, R>) {
    let mut source = source_of(rt, file().as_slice(), &[]);
    assert_eq!(rt; put_body(&mut source, vault, 7, key(rt)), Ok(64));
    drop(source);
    assert_eq!(rt; vault.size(7), Ok(64));
    assert_eq!(rt; vault.size(8), Ok(0));
}

/// Reads a range of body 7.
fn read_range<R: Abort + AllocGlobal + Files<File = File>>(rt: &R, vault: &mut FolderVault<'_, R>) {
    let mut sink = new_sink(rt, &[]);
    assert_eq!(rt; read_body(vault, &mut sink, 7, key(rt), 13, 22), Ok(22));
    check_written(rt, &sink, 13, 35);
    drop(sink);
}

/// Body 7 is not written over, and only at its end.
fn refuse<R: Abort + AllocGlobal + Files<File = File>>(rt: &R, vault: &mut FolderVault<'_, R>) {
    let mut source = source_of(rt, file().as_slice(), &[]);
    let outcome = put_body(&mut source, vault, 7, None);
    drop(source);
    assert_eq!(rt; outcome, Err(BodyFault::VaultFault));
    assert_eq!(rt; vault.write(7, 65, b"x"), Err(Failed));
}

/// The file has the stored form, only its owner may use it, and no other file was made.
fn check_files(rt: &(impl Abort + AllocGlobal + Files<File = File>)) {
    let bytes = fs::read(rt, "bodies/7").expect(rt, "a file");
    assert_eq!(rt; bytes.as_slice(), body().as_slice());
    drop(bytes);
    let entry = fs::metadata(rt, "bodies/7").expect(rt, "a file");
    assert_eq!(rt; entry.permissions().mode() & 0o777, 0o600);
    assert!(rt; fs::metadata(rt, "bodies/8").is_err());
}

/// Opens the folder, puts the example, and counts no fault.
fn first_run<R: Abort + AllocGlobal + Files<File = File>>(rt: &R, errors: Stderr) {
    let mut vault = FolderVault::open(rt, rt.alloc(), "bodies", errors).expect(rt, "a folder");
    fill(rt, &mut vault);
    assert_eq!(rt; vault.faults, 0);
    drop(vault);
}

/// Opens the folder that is there, reads it, and counts two refused writes.
fn second_run<R: Abort + AllocGlobal + Files<File = File>>(rt: &R, errors: Stderr) {
    let mut vault = FolderVault::open(rt, rt.alloc(), "bodies", errors).expect(rt, "a folder");
    read_range(rt, &mut vault);
    refuse(rt, &mut vault);
    assert_eq!(rt; vault.faults, 2);
    drop(vault);
}

#[test]
fn a_folder_keeps_bodies(rt: HostRuntime) {
    first_run(&rt, rt.stderr());
    check_files(&rt);
    second_run(&rt, rt.stderr());
    check_files(&rt);
    fs::remove_dir_all(&rt, "bodies").expect(&rt, "a folder");
}
