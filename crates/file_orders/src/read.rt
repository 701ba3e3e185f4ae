//! Reading a range of a file.
ghost use Rattle.std.specs.Prelude.{◌≡◌, ◌≤◌};
ghost use Rattle.hk_base.specs.Faults.{Rose};
ghost use Rattle.file_orders.specs.Bodies.{ReadsRange, Sends};
ghost use Rattle.std.specs.Prelude.{Ok};

use crate::ends::{FsEnd, end_of_body};
use crate::events::Events;
use crate::open::{OpenFile, open_file};
use body_stream::{Vault, read_body};
use hk_base::{Sink, Text};
use std::alloc::Global;

/// Writes a range of a file that was opened. A range past the end is cut.
pub fn send<V: Vault, K: Sink>(
    vault: &mut V,
    out: &mut K,
    file: OpenFile,
    from: u64,
    count: u64,
) -> FsEnd
    ensures sends { Sends from count (Ok file) result (V.state vault.old) (V.state vault.new)
        (K.written out.old) (K.written out.new) }
    ensures out_later { K.faults out.old ≤ K.faults out.new }
    ensures vault_later { (V.state vault.old).faults ≤ (V.state vault.new).faults }
    ensures write { result ≡ FsEnd.WriteFault → Rose (K.faults out.old) (K.faults out.new) }
    ensures vault { result ≡ FsEnd.VaultFault →
        Rose (V.state vault.old).faults (V.state vault.new).faults }
    ensures own { (result ≡ FsEnd.ReadFault → ⊥) × (result ≡ FsEnd.TooLong → ⊥) }
{
    match read_body(vault, out, file.id, file.key, from, count) {
        Ok(count) => FsEnd::Read { count },
        Err(fault) => end_of_body(fault),
    }
}

/// Writes a range of the file at a path for a user, decrypted in a zone. A range past the end is cut.
pub fn read_file<T: Events, V: Vault, K: Sink>(
    alloc: Global,
    events: &mut T,
    user: &Text,
    path: &Text,
    from: u64,
    count: u64,
    vault: &mut V,
    out: &mut K,
) -> FsEnd
    requires { T.ready events.old }
    ensures reads { ReadsRange T.leads user.now path.now from count events.old result events.new
        (V.state vault.old) (V.state vault.new) (K.written out.old) (K.written out.new) }
    ensures ready { T.ready events.new }
    ensures out_later { K.faults out.old ≤ K.faults out.new }
    ensures write { result ≡ FsEnd.WriteFault → Rose (K.faults out.old) (K.faults out.new) }
    ensures vault { result ≡ FsEnd.VaultFault →
        Rose (V.state vault.old).faults (V.state vault.new).faults }
    ensures own { (result ≡ FsEnd.ReadFault → ⊥) × (result ≡ FsEnd.TooLong → ⊥) }
{
    match open_file(alloc, events, user, path) {
        Ok(file) => send(vault, out, file, from, count),
        Err(end) => end,
    }
}
