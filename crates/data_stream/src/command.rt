//! The command line.
ghost use Rattle.std.specs.Prelude.{◌≡◌, ◌⊎◌, ◌<◌, ℕ, List, Err, Some, length, string_bytes};
ghost use Rattle.body_stream.specs.Transfers.{longest_body};
ghost use Rattle.body_stream.specs.Vaults.{TellsBodies};
ghost use Rattle.file_orders.specs.Bodies.{HadBody};
ghost use Rattle.hk_base.specs.Faults.{Rose};
ghost use Rattle.command_io.specs.Ends.{ShowsWith};
ghost use Rattle.hk_runs.specs.Headline.{FromSoundFiles};
ghost use Rattle.clap_lines.specs.Orders.{IsMistake};
ghost use Rattle.fs_command_line.specs.Orders.{FindsHelp, FindsVersion, line_fault};
ghost use Rattle.data_stream.specs.Files.{CarriesOut, ForPut, ForRead, HasItsReason, KeepsAt, PutKeepsByWords, PutsByWords, ReadKeepsByWords, ReadsByWords, RefusesWords, ShowsOwnText, files};
ghost use Rattle.data_stream.specs.Statuses.{NamesPut, OrdersPut};

use crate::put::run_put;
use crate::read::run_read;
use body_stream::Vault;
use command_io::show;
use fs_command_line::{FsOrder, OrderFault, read_order};
use hk_base::{Clock, Disk, Sink, Source, Text, Words};
use std::alloc::Global;

/// Writes a text and drops it. Returns 0, or 8 if the output fails.
fn show_made<K: Sink>(out: &mut K, text: String) -> u8
    ensures shows { ShowsWith (string_bytes text) 0 (K.written out.old) (K.written out.new) result }
    ensures write { result ≡ 8 → Rose (K.faults out.old) (K.faults out.new) }
{
    let status = show(out, text.as_bytes(), 0);
    drop(text);
    status
}
/// Carries out an order, with the contract of `hkfs`.
fn obey<A: Source, S: Source, K: Sink, D: Disk, V: Vault, W: Words, C: Clock>(
    alloc: Global,
    order: Result<FsOrder, OrderFault>,
    acls: &mut A,
    input: &mut S,
    out: &mut K,
    disk: &mut D,
    vault: &mut V,
    rand: &mut W,
    clock: &mut C,
) -> u8
    ensures obeys { CarriesOut D.Disk K.Sink W.Words V.Vault A.Source S.Source
        (files disk.old out.old rand.old vault.old clock.old)
        (files disk.new out.new rand.new vault.new clock.new)
        acls.old acls.new input.old input.new order result }
    ensures kept { FromSoundFiles (D.state disk.old)
        (KeepsAt D.Disk K.Sink W.Words V.Vault A.Source S.Source
        (files disk.old out.old rand.old vault.old clock.old)
        (files disk.new out.new rand.new vault.new clock.new)
        acls.old acls.new input.old input.new order) result }
    ensures own { result ≡ 2 → order ≡ Err OrderFault.Usage }
    ensures read_fault { result ≡ 7 →
        Rose (S.faults input.old) (S.faults input.new) ⊎
        Rose (A.faults acls.old) (A.faults acls.new) }
    ensures write_fault { result ≡ 8 → Rose (K.faults out.old) (K.faults out.new) }
    ensures vault_fault { result ≡ 12 →
        Rose (V.state vault.old).faults (V.state vault.new).faults ⊎
        (TellsBodies (V.state vault.old) → HadBody (V.state vault.old)) }
    ensures long { result ≡ 13 → (all : List ℕ) → S.left input.old ≡ Some all →
        longest_body < length all }
    ensures reason { HasItsReason D.Disk K.Sink W.Words V.Vault A.Source S.Source
        (files disk.old out.old rand.old vault.old clock.old)
        (files disk.new out.new rand.new vault.new clock.new)
        acls.old acls.new input.old input.new (order ≡ Err OrderFault.Usage)
        (OrdersPut order) result }
{
    match order {
        Ok(FsOrder::Put { user, path }) => run_put(
            alloc, &user, &path, acls, input, out, disk, vault, rand, clock,
        ),
        Ok(
            FsOrder::Read {
                user,
                path,
                from,
                count,
            },
        ) => run_read(
            alloc, &user, &path, from, count, acls, out, disk, vault, rand, clock,
        ),
        Ok(FsOrder::Help(text)) => show_made(out, text),
        Ok(FsOrder::Version(text)) => show_made(out, text),
        Err(OrderFault::Usage) => show(out, b"usage refused\n", 2),
        Err(OrderFault::NoMemory) => show(out, b"no memory\n", 6),
    }
}

/// Carries out a command line and returns the exit status.
///
/// `put USER PATH` makes a file for a user, and stores the input as its body, to its end. In an encryption
/// zone the body is encrypted in counter mode under the data encryption key of the file, which is decrypted
/// as the user. It writes `put` and the number of bytes. `read USER PATH FROM COUNT` writes that range of a
/// file, cut at its end. Both use the key log on file 0 of the disk and the edit log on file 1, as `hkms`
/// does, and the properties of `acls`.
///
/// The clauses `put_kept` and `read_kept` say what is kept: the promise of `hkms` on files holds in every
/// world of the run and after every crash, and a body is stored under the draw of its file. What was put is
/// read back by any later run: `bodies_are_read_back`.
///
/// Help and version are printed with status 0, whatever other words there are. A mistake in the words
/// gives status 2 and the line `usage refused`. If allocation fails while the words are read, the status
/// is 6 and the line is `no memory`. All these use the output alone. The clause `reason` has the cause of
/// each status but 0 and 6. The other statuses:
///
/// - 0: the body was stored, or the range was written.
/// - 3: the properties were refused.
/// - 4: a log is damaged.
/// - 5: the disk failed.
/// - 6: allocation failed.
/// - 7: the properties or the input could not be read.
/// - 8: the output failed.
/// - 10: the last opening of a log is used up.
/// - 11: an event was refused, or the path is that of a directory.
/// - 12: the vault failed, or it had a body for the new file.
/// - 13: the input has more than 2^40 bytes.
pub fn hkfs<A: Source, S: Source, K: Sink, D: Disk, V: Vault, W: Words, C: Clock>(
    alloc: Global,
    words: &[Text],
    acls: &mut A,
    input: &mut S,
    out: &mut K,
    disk: &mut D,
    vault: &mut V,
    rand: &mut W,
    clock: &mut C,
) -> u8
    ensures usage { IsMistake (line_fault words.now) →
        RefusesWords K.Sink
        (files disk.old out.old rand.old vault.old clock.old)
        (files disk.new out.new rand.new vault.new clock.new)
        acls.old acls.new input.old input.new result }
    ensures usage_only { result ≡ 2 → IsMistake (line_fault words.now) }
    ensures help { FindsHelp words.now ⊎ FindsVersion words.now →
        ShowsOwnText K.Sink
        (files disk.old out.old rand.old vault.old clock.old)
        (files disk.new out.new rand.new vault.new clock.new)
        acls.old acls.new input.old input.new result }
    ensures put { ForPut words.now
        (PutsByWords D.Disk K.Sink W.Words V.Vault A.Source S.Source
        (files disk.old out.old rand.old vault.old clock.old)
        (files disk.new out.new rand.new vault.new clock.new)
        acls.old acls.new input.old input.new) result }
    ensures put_kept { ForPut words.now
        (PutKeepsByWords D.Disk K.Sink W.Words V.Vault A.Source S.Source
        (files disk.old out.old rand.old vault.old clock.old)
        (files disk.new out.new rand.new vault.new clock.new)
        acls.old acls.new input.old input.new) result }
    ensures read { ForRead words.now
        (ReadsByWords D.Disk K.Sink W.Words V.Vault A.Source S.Source
        (files disk.old out.old rand.old vault.old clock.old)
        (files disk.new out.new rand.new vault.new clock.new)
        acls.old acls.new input.old input.new) result }
    ensures read_kept { ForRead words.now
        (ReadKeepsByWords D.Disk K.Sink W.Words V.Vault A.Source S.Source
        (files disk.old out.old rand.old vault.old clock.old)
        (files disk.new out.new rand.new vault.new clock.new)
        acls.old acls.new input.old input.new) result }
    ensures read_fault { result ≡ 7 →
        Rose (S.faults input.old) (S.faults input.new) ⊎
        Rose (A.faults acls.old) (A.faults acls.new) }
    ensures write_fault { result ≡ 8 → Rose (K.faults out.old) (K.faults out.new) }
    // The vault failed, or it had a body under an id that was new.
    ensures vault_fault { result ≡ 12 →
        Rose (V.state vault.old).faults (V.state vault.new).faults ⊎
        (TellsBodies (V.state vault.old) → HadBody (V.state vault.old)) }
    ensures long { result ≡ 13 → (all : List ℕ) → S.left input.old ≡ Some all →
        longest_body < length all }
    // Every status but 0 and 6 has its cause.
    ensures reason { HasItsReason D.Disk K.Sink W.Words V.Vault A.Source S.Source
        (files disk.old out.old rand.old vault.old clock.old)
        (files disk.new out.new rand.new vault.new clock.new)
        acls.old acls.new input.old input.new (IsMistake (line_fault words.now))
        (NamesPut words.now) result }
{
    let order = read_order(alloc, words);
    obey(alloc, order, acls, input, out, disk, vault, rand, clock)
}
