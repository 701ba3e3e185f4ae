//! Ranges of a body that was put.
use crate::examples::{
    check_stored, check_written, file, new_sink, new_vault, put, put_file, read,
};
use body_kinds::MemVault;
use std::process::Abort;

/// Reads a range of body 7, which is the file from `from` to `to`.
fn check_range(
    rt: &(impl Abort + AllocGlobal),
    vault: &mut MemVault,
    from: u64,
    count: u64,
    to: usize,
) {
    let mut sink = new_sink(rt, &[]);
    let outcome = read(rt, vault, &mut sink, from, count);
    assert_eq!(rt; outcome, Ok(sink.as_slice().len() as u64));
    check_written(rt, &sink, (from as usize).min(to), to);
    drop(sink);
}

/// A body of the standard's example is stored as the standard says, and read back from any offset.
#[test]
fn the_example_of_the_standard(rt: HostRuntime) {
    let mut vault = new_vault(&rt, &[]);
    put_file(&rt, &mut vault);
    check_stored(&rt, &vault, 64);
    check_range(&rt, &mut vault, 0, 64, 64);
    check_range(&rt, &mut vault, 13, 22, 35);
    check_range(&rt, &mut vault, 61, u64::MAX, 64);
    check_range(&rt, &mut vault, 64, 1, 64);
    check_range(&rt, &mut vault, u64::MAX, u64::MAX, 64);
    drop(vault);
}

/// A file without a key is stored as it is.
#[test]
fn a_file_without_a_key(rt: HostRuntime) {
    let mut vault = new_vault(&rt, &[]);
    let outcome = put(&rt, &mut vault, file().as_slice(), None, &[]);
    assert_eq!(&rt; outcome, Ok(64));
    assert_eq!(&rt; vault.bytes(7), file().as_slice());
    drop(vault);
}

/// A file without bytes has an empty body.
#[test]
fn a_file_without_bytes(rt: HostRuntime) {
    let mut vault = new_vault(&rt, &[]);
    let outcome = put(&rt, &mut vault, &[], None, &[]);
    assert_eq!(&rt; outcome, Ok(0));
    assert_eq!(&rt; vault.bytes(7).len(), 0);
    drop(vault);
}
