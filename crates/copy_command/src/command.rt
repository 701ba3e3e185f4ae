//! The command line.
ghost use Rattle.std.specs.Prelude.{◌≡◌, ◌⊎◌, Err, string_bytes};
ghost use Rattle.hk_base.specs.Faults.{Rose};
ghost use Rattle.command_io.specs.Ends.{ShowsWith};
ghost use Rattle.clap_lines.specs.Orders.{IsMistake};
ghost use Rattle.copy_command_line.specs.Orders.{FindsHelp, FindsVersion, line_fault};
ghost use Rattle.raw_copy.specs.Copies.{VaultsFailed};
ghost use Rattle.copy_runs.specs.Runs.{clusters};
ghost use Rattle.copy_command.specs.Orders.{ForCopy, ForRead};
ghost use Rattle.copy_command.specs.Files.{CarriesOut, CopiesByWords, CopyKeepsByWords, Keeps, ReadKeepsByWords, ReadsByWords, RefusesWords, ShowsOwnText};
ghost use Rattle.copy_command.specs.Reasons.{OrderHasReason, OrderReadHasReason, ReadReasonByWords, ReasonByWords};

use body_stream::Vault;
use command_io::show;
use copy_command_line::{CopyOrder, OrderFault, read_order};
use copy_reads::run_read_copy;
use copy_runs::run_copy;
use hk_base::{Clock, Disk, Sink, Source, Text, Words};
use std::alloc::Global;

/// Writes a text and drops it. Returns 0, or 8 if the output fails.
fn show_made<K: Sink>(out: &mut K, text: String) -> u8
    ensures shows { ShowsWith (string_bytes text) 0 (K.written out.old) (K.written out.new) result }
    ensures write { result ≡ 8 → Rose (K.faults out.old) (K.faults out.new) }
{
    let status = show(out, text.as_bytes(), 0);
    drop(text);
    status
}

/// Carries out an order, with the contract of `hkcopy`.
fn obey<A: Source, K: Sink, D: Disk, E: Disk, V: Vault, U: Vault, W: Words, C: Clock>(
    alloc: Global,
    order: Result<CopyOrder, OrderFault>,
    acls: &mut A,
    out: &mut K,
    disk: &mut D,
    backup: &mut E,
    vault: &mut V,
    copies: &mut U,
    rand: &mut W,
    clock: &mut C,
) -> u8
    ensures obeys { CarriesOut D.Disk V.Vault E.Disk U.Vault K.Sink W.Words A.Source
        (clusters disk.old vault.old backup.old copies.old out.old rand.old clock.old)
        (clusters disk.new vault.new backup.new copies.new out.new rand.new clock.new)
        acls.old acls.new order result }
    ensures kept { Keeps D.Disk V.Vault E.Disk U.Vault K.Sink W.Words A.Source
        (clusters disk.old vault.old backup.old copies.old out.old rand.old clock.old)
        (clusters disk.new vault.new backup.new copies.new out.new rand.new clock.new)
        acls.old acls.new order result }
    ensures reason { OrderHasReason D.Disk V.Vault E.Disk U.Vault K.Sink W.Words A.Source
        (clusters disk.old vault.old backup.old copies.old out.old rand.old clock.old)
        (clusters disk.new vault.new backup.new copies.new out.new rand.new clock.new)
        acls.old acls.new order result }
    ensures read_reason { OrderReadHasReason D.Disk V.Vault E.Disk U.Vault K.Sink W.Words A.Source
        (clusters disk.old vault.old backup.old copies.old out.old rand.old clock.old)
        (clusters disk.new vault.new backup.new copies.new out.new rand.new clock.new)
        acls.old acls.new order result }
    ensures own { result ≡ 2 → order ≡ Err OrderFault.Usage }
    ensures store_fault { result ≡ 5 →
        Rose (D.state disk.old).faults (D.state disk.new).faults ⊎
        Rose (E.state backup.old).faults (E.state backup.new).faults }
    ensures read_fault { result ≡ 7 → Rose (A.faults acls.old) (A.faults acls.new) }
    ensures write_fault { result ≡ 8 → Rose (K.faults out.old) (K.faults out.new) }
    ensures vault_fault { result ≡ 12 → VaultsFailed (V.state vault.old) (V.state vault.new)
        (U.state copies.old) (U.state copies.new) }
    ensures long { result ≡ 13 → ⊥ }
{
    match order {
        Ok(CopyOrder::Copy { source, target }) => run_copy(
            alloc, &source, &target, acls, out, disk, backup, vault, copies, rand, clock,
        ),
        Ok(
            CopyOrder::Read {
                user,
                path,
                from,
                count,
            },
        ) => run_read_copy(
            alloc, &user, &path, from, count, acls, out, disk, backup, copies, rand, clock,
        ),
        Ok(CopyOrder::Help(text)) => show_made(out, text),
        Ok(CopyOrder::Version(text)) => show_made(out, text),
        Err(OrderFault::Usage) => show(out, b"usage refused\n", 2),
        Err(OrderFault::NoMemory) => show(out, b"no memory\n", 6),
    }
}

/// Carries out a command line and returns the exit status.
///
/// `copy FROM TO` copies an encryption zone of the first cluster to a path of the second, where nothing may
/// be: its directories, files, marks and encrypted keys, and the stored bytes of its files. FROM is
/// `/.reserved/raw` and the path of the zone, or of a snapshot of it. The first cluster is only read, and no
/// data encryption key is decrypted. It writes `copied` and the numbers of the files and directories.
/// `read USER PATH FROM COUNT` writes that range of a file of the second cluster, cut at its end. A file
/// with an encrypted key is decrypted, under the data encryption key that the first cluster decrypts as the
/// user.
///
/// The first cluster is the key log on file 0 of `disk`, the edit log on its file 1, the bodies of `vault`
/// and the properties of `acls`. The second is the edit log on file 1 of `backup` and the bodies of
/// `copies`.
///
/// The clauses `reason` and `read_reason` say why a copy and a read end with their status, and the clauses
/// `copy_kept` and `read_kept` what is kept: the promise of `hkms` on files holds in every world of the run
/// and after every crash.
///
/// Help and version are printed with status 0, whatever other words there are. A mistake in the words
/// gives status 2 and the line `usage refused`. If allocation fails while the words are read, the status
/// is 6 and the line is `no memory`. All these use the output alone. The other statuses:
///
/// - 0: the zone was copied, or the range was written.
/// - 3: the properties were refused.
/// - 4: a log is damaged; the last line says which, `copies` for that of the second cluster.
/// - 5: a disk failed.
/// - 6: allocation failed.
/// - 7: the properties could not be read.
/// - 8: the output failed.
/// - 10: the last opening of a log is used up.
/// - 11: a call was refused, or the path is that of a directory. What was copied until then stays, each
///   file with its whole body.
/// - 12: a vault failed, or that of the copies had a body for a new file.
pub fn hkcopy<A: Source, K: Sink, D: Disk, E: Disk, V: Vault, U: Vault, W: Words, C: Clock>(
    alloc: Global,
    words: &[Text],
    acls: &mut A,
    out: &mut K,
    disk: &mut D,
    backup: &mut E,
    vault: &mut V,
    copies: &mut U,
    rand: &mut W,
    clock: &mut C,
) -> u8
    ensures usage { IsMistake (line_fault words.now) →
        RefusesWords K.Sink
        (clusters disk.old vault.old backup.old copies.old out.old rand.old clock.old)
        (clusters disk.new vault.new backup.new copies.new out.new rand.new clock.new)
        acls.old acls.new result }
    ensures usage_only { result ≡ 2 → IsMistake (line_fault words.now) }
    ensures help { FindsHelp words.now ⊎ FindsVersion words.now →
        ShowsOwnText K.Sink
        (clusters disk.old vault.old backup.old copies.old out.old rand.old clock.old)
        (clusters disk.new vault.new backup.new copies.new out.new rand.new clock.new)
        acls.old acls.new result }
    ensures copy { ForCopy words.now
        (CopiesByWords D.Disk V.Vault E.Disk U.Vault K.Sink W.Words A.Source
        (clusters disk.old vault.old backup.old copies.old out.old rand.old clock.old)
        (clusters disk.new vault.new backup.new copies.new out.new rand.new clock.new)
        acls.old acls.new) result }
    ensures copy_kept { ForCopy words.now
        (CopyKeepsByWords D.Disk V.Vault E.Disk U.Vault K.Sink W.Words A.Source
        (clusters disk.old vault.old backup.old copies.old out.old rand.old clock.old)
        (clusters disk.new vault.new backup.new copies.new out.new rand.new clock.new)
        acls.old acls.new) result }
    ensures reason { ForCopy words.now
        (ReasonByWords D.Disk V.Vault E.Disk U.Vault K.Sink W.Words A.Source
        (clusters disk.old vault.old backup.old copies.old out.old rand.old clock.old)
        (clusters disk.new vault.new backup.new copies.new out.new rand.new clock.new)
        acls.old acls.new) result }
    ensures read { ForRead words.now
        (ReadsByWords D.Disk V.Vault E.Disk U.Vault K.Sink W.Words A.Source
        (clusters disk.old vault.old backup.old copies.old out.old rand.old clock.old)
        (clusters disk.new vault.new backup.new copies.new out.new rand.new clock.new)
        acls.old acls.new) result }
    ensures read_kept { ForRead words.now
        (ReadKeepsByWords D.Disk V.Vault E.Disk U.Vault K.Sink W.Words A.Source
        (clusters disk.old vault.old backup.old copies.old out.old rand.old clock.old)
        (clusters disk.new vault.new backup.new copies.new out.new rand.new clock.new)
        acls.old acls.new) result }
    ensures read_reason { ForRead words.now
        (ReadReasonByWords D.Disk V.Vault E.Disk U.Vault K.Sink W.Words A.Source
        (clusters disk.old vault.old backup.old copies.old out.old rand.old clock.old)
        (clusters disk.new vault.new backup.new copies.new out.new rand.new clock.new)
        acls.old acls.new) result }
    ensures store_fault { result ≡ 5 →
        Rose (D.state disk.old).faults (D.state disk.new).faults ⊎
        Rose (E.state backup.old).faults (E.state backup.new).faults }
    ensures read_fault { result ≡ 7 → Rose (A.faults acls.old) (A.faults acls.new) }
    ensures write_fault { result ≡ 8 → Rose (K.faults out.old) (K.faults out.new) }
    ensures vault_fault { result ≡ 12 → VaultsFailed (V.state vault.old) (V.state vault.new)
        (U.state copies.old) (U.state copies.new) }
    ensures long { result ≡ 13 → ⊥ }
{
    let order = read_order(alloc, words);
    obey(
        alloc, order, acls, out, disk, backup, vault, copies, rand, clock,
    )
}
