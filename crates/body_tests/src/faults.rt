//! Transfers that a fault ends.
ghost use Rattle.std.specs.Prelude.{◌≡◌, []};
ghost use Rattle.body_kinds.specs.MemVaults.{body_of};

use crate::examples::{
    check_stored, check_written, file, key, new_sink, new_vault, put, put_file, read,
};
use body_kinds::MemVault;
use body_stream::{BodyFault, read_body};
use std::process::Abort;

/// Puts the example, in pieces of 24, 24 and 16 bytes, into a vault that fails at one call.
fn check_put(rt: &(impl Abort + AllocGlobal), call: u64, stored: usize) {
    let mut vault = new_vault(rt, &[call]);
    let outcome = put(rt, &mut vault, file().as_slice(), key(rt), &[]);
    assert_eq!(rt; outcome, Err(BodyFault::VaultFault));
    assert_eq!(rt; vault.faults(), 1);
    check_stored(rt, &vault, stored);
    drop(vault);
}

/// The vault fails at each write of a transfer in turn, also at the last one, which writes nothing.
#[test]
fn a_vault_fails_while_a_body_is_put(rt: HostRuntime) {
    check_put(&rt, 1, 0);
    check_put(&rt, 2, 24);
    check_put(&rt, 3, 48);
    check_put(&rt, 4, 64);
}

#[test]
fn a_source_fails_while_a_body_is_put(rt: HostRuntime) {
    let mut vault = new_vault(&rt, &[]);
    let outcome = put(&rt, &mut vault, file().as_slice(), key(&rt), &[3]);
    assert_eq!(&rt; outcome, Err(BodyFault::ReadFault));
    check_stored(&rt, &vault, 48);
    drop(vault);
}

/// Reads the example from a vault that fails at one call. Four calls put it.
fn check_read(rt: &(impl Abort + AllocGlobal), call: u64) {
    let mut vault = new_vault(rt, &[call]);
    put_file(rt, &mut vault);
    let mut sink = new_sink(rt, &[]);
    let outcome = read(rt, &mut vault, &mut sink, 0, 64);
    assert_eq!(rt; outcome, Err(BodyFault::VaultFault));
    check_written(rt, &sink, 0, 0);
    drop(sink);
    drop(vault);
}

/// The vault fails when it is asked for the size, and when it is read.
#[test]
fn a_vault_fails_while_a_body_is_read(rt: HostRuntime) {
    check_read(&rt, 5);
    check_read(&rt, 6);
}

#[test]
fn a_sink_fails_while_a_body_is_read(rt: HostRuntime) {
    let mut vault = new_vault(&rt, &[]);
    put_file(&rt, &mut vault);
    let mut sink = new_sink(&rt, &[3]);
    let outcome = read(&rt, &mut vault, &mut sink, 20, 30);
    assert_eq!(&rt; outcome, Err(BodyFault::WriteFault));
    check_written(&rt, &sink, 20, 30);
    drop(sink);
    drop(vault);
}

/// Puts a body of 65,600 bytes, which are read in two pieces. To put it takes 2,735 calls, the last of which writes
/// nothing.
fn put_long(rt: &(impl Abort + AllocGlobal), vault: &mut MemVault)
    requires { body_of vault.old 7 ≡ [] }
{
    let bytes = vec![in rt.alloc(); 7u8; 65_600].expect(rt, "memory");
    let outcome = put(rt, vault, bytes.as_slice(), None, &[]);
    assert_eq!(rt; outcome, Ok(65_600));
    assert_eq!(rt; vault.made(), 2735);
    drop(bytes);
}

/// The vault fails at the second piece of a long body. The first one has been written.
#[test]
fn a_long_body_is_read_in_part(rt: HostRuntime) {
    let mut vault = new_vault(&rt, &[2738]);
    put_long(&rt, &mut vault);
    let mut sink = new_sink(&rt, &[]);
    let outcome = read_body(&mut vault, &mut sink, 7, None, 0, 65_600);
    assert_eq!(&rt; outcome, Err(BodyFault::VaultFault));
    assert_eq!(&rt; sink.as_slice().len(), 65_536);
    drop(sink);
    drop(vault);
}
