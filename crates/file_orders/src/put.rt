//! Putting a file with its body.
ghost use Rattle.std.specs.Prelude.{◌≡◌, ◌≢◌, ◌⊎◌, ◌≤◌, ℕ, List, [], Some, IsTrue, false, length, ◌<◌};
ghost use Rattle.hk_base.specs.Faults.{Rose};
ghost use Rattle.body_stream.specs.Transfers.{longest_body};
ghost use Rattle.body_stream.specs.Vaults.{KeepsBodies, TellsBodies};
ghost use Rattle.file_orders.specs.Bodies.{HadBody, Puts, StoresFile};

use crate::ends::{FsEnd, end_of_body};
use crate::events::Events;
use crate::open::{OpenFile, make_file, open_file};
use body_stream::{Vault, put_body};
use hk_base::{Source, Text};
use std::alloc::Global;

/// Checks that a vault has no body with this id. Returns false if it has, or if it failed.
fn has_none<V: Vault>(vault: &mut V, id: u64) -> bool
    ensures keeps { KeepsBodies (V.state vault.old) (V.state vault.new) }
    ensures later { (V.state vault.old).faults ≤ (V.state vault.new).faults }
    ensures none { IsTrue result → TellsBodies (V.state vault.old) →
        (V.state vault.old).bodies id ≡ [] }
    ensures cause { result ≡ false →
        Rose (V.state vault.old).faults (V.state vault.new).faults ⊎
        (TellsBodies (V.state vault.old) → (V.state vault.old).bodies id ≢ []) }
{
    match vault.size(id) {
        Ok(size) => size == 0,
        Err(_) => false,
    }
}

/// Puts the input as the body of a new file.
fn store<S: Source, V: Vault>(input: &mut S, vault: &mut V, file: OpenFile) -> FsEnd
    ensures stores { StoresFile file result (S.left input.old) (S.left input.new)
        (V.state vault.old) (V.state vault.new) }
    ensures input_later { S.faults input.old ≤ S.faults input.new }
    ensures vault_later { (V.state vault.old).faults ≤ (V.state vault.new).faults }
    ensures read { result ≡ FsEnd.ReadFault → Rose (S.faults input.old) (S.faults input.new) }
    ensures long { result ≡ FsEnd.TooLong → (all : List ℕ) → S.left input.old ≡ Some all →
        longest_body < length all }
    ensures own { result ≡ FsEnd.WriteFault → ⊥ }
    ensures vault { result ≡ FsEnd.VaultFault →
        Rose (V.state vault.old).faults (V.state vault.new).faults ⊎
        (TellsBodies (V.state vault.old) → HadBody (V.state vault.old)) }
{
    if !has_none(vault, file.id) {
        return FsEnd::VaultFault;
    }
    match put_body(input, vault, file.id, file.key) {
        Ok(count) => FsEnd::Put { count },
        Err(fault) => end_of_body(fault),
    }
}

/// Makes a file for a user, and puts the input as its body, encrypted in a zone. The vault must have no
/// body for the new file. After any other end than `FsEnd::Put` the file may be there, and its body is a
/// prefix.
pub fn put_file<T: Events, S: Source, V: Vault>(
    alloc: Global,
    events: &mut T,
    user: &Text,
    path: &Text,
    input: &mut S,
    vault: &mut V,
) -> FsEnd
    requires { T.ready events.old }
    ensures puts { Puts T.leads user.now path.now events.old result events.new (S.left input.old)
        (S.left input.new) (V.state vault.old) (V.state vault.new) }
    ensures ready { T.ready events.new }
    ensures read { result ≡ FsEnd.ReadFault → Rose (S.faults input.old) (S.faults input.new) }
    ensures vault { result ≡ FsEnd.VaultFault →
        Rose (V.state vault.old).faults (V.state vault.new).faults ⊎
        (TellsBodies (V.state vault.old) → HadBody (V.state vault.old)) }
    ensures long { result ≡ FsEnd.TooLong → (all : List ℕ) → S.left input.old ≡ Some all →
        longest_body < length all }
    ensures own { result ≡ FsEnd.WriteFault → ⊥ }
{
    match make_file(alloc, events, user, path) {
        Some(why) => return why,
        None => {}
    }
    match open_file(alloc, events, user, path) {
        Ok(file) => store(input, vault, file),
        Err(end) => end,
    }
}
