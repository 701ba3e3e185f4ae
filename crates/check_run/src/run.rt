//! A check from its reads to its lines.
ghost use Rattle.std.specs.Prelude.{◌≡◌, ◌≢◌, IfErr, IfOk, MatchResult};
ghost use Rattle.disk_kinds.specs.Plain.{contents};
ghost use Rattle.hk_base.specs.Faults.{Rose};
ghost use Rattle.command_io.specs.Ends.{Reports, ShowsWith};
ghost use Rattle.command_io.specs.declared.ends.ReplayEnd.TheVariants as replay_end;
ghost use Rattle.check_run.specs.Checks.{Checks, IsCheckStatus, IsUnsummed, IsUnsummedNames, SumsUp, SumsUpNames, ended_in_memory};
ghost use Rattle.check_run.specs.Looks.{OnlyLooks};

use crate::looks::copy_of_logs;
use crate::text::check_text;
use command_io::{ReplayEnd, ended_by, report, show};
use disk_kinds::PlainDisk;
use frame_log::StartFault;
use hk_base::{ByteList, Disk, Sink};
use kms_store::Store;
use name_store::NameStore;
use std::alloc::Global;

/// Returns how a command ends if the log of a file in memory cannot be opened. Such a disk fails only if
/// allocation does.
fn ended_in_memory(file: u8, fault: StartFault) -> ReplayEnd
    ensures { result ≡ ended_in_memory file fault }
{
    match fault {
        StartFault::StoreFault => ReplayEnd::NoMemory,
        StartFault::Damaged { at } => ended_by(file, StartFault::Damaged { at }),
        StartFault::NoMemory => ended_by(file, StartFault::NoMemory),
        StartFault::Spent => ended_by(file, StartFault::Spent),
    }
}

/// Opens the edit log of a disk in memory, and returns the lines of what it makes beside these keys.
fn text_beside(alloc: Global, copy: &mut PlainDisk, keys: &Store) -> Result<ByteList, ReplayEnd>
    ensures sums { IfOk result (SumsUpNames keys.now.table.keys (contents copy.old 1)) }
    ensures ends { IfErr result (IsUnsummedNames (contents copy.old 1)) }
{
    match NameStore::start(alloc, copy) {
        Err(fault) => Err(ended_in_memory(1, fault)),
        Ok(names) => {
            let text = check_text(alloc, keys, &names);
            drop(names);
            match text {
                Err(_) => Err(ReplayEnd::NoMemory),
                Ok(text) => Ok(text),
            }
        }
    }
}

/// Opens both logs of a disk in memory, and returns the lines of what they make.
fn text_of(alloc: Global, copy: &mut PlainDisk) -> Result<ByteList, ReplayEnd>
    ensures sums { IfOk result (SumsUp (contents copy.old)) }
    ensures ends { IfErr result (IsUnsummed (contents copy.old)) }
{
    match Store::start(alloc, copy, 0) {
        Err(fault) => Err(ended_in_memory(0, fault)),
        Ok(keys) => {
            let text = text_beside(alloc, copy, &keys);
            drop(keys);
            text
        }
    }
}

/// Writes the lines, or the last line of a cause for which there are none. Returns the status.
fn show_text<K: Sink>(alloc: Global, out: &mut K, text: Result<ByteList, ReplayEnd>) -> u8
    requires { IfErr text (λ end. end ≢ replay_end.WriteFault) }
    ensures shows { MatchResult text
        (λ text. ShowsWith text 0 (K.written out.old) (K.written out.new) result)
        (λ end. Reports end (K.written out.old) (K.written out.new) result) }
    ensures write { result ≡ 8 → Rose (K.faults out.old) (K.faults out.new) }
{
    match text {
        Err(end) => report(alloc, out, end),
        Ok(text) => {
            let status = show(out, text.as_slice(), 0);
            drop(text);
            status
        }
    }
}

/// Checks the logs on the files 0 and 1 of a disk, without changing them. Reads both into memory, opens
/// them there, and writes a line for each lost file, in path order, and a line of numbers. A file is lost if
/// its encrypted key is under a version that no key has. The files of snapshots are not looked at.
///
/// A key that was made anew under the name of one that was deleted has versions of the same names, so a
/// file of the deleted key may not be seen as lost.
///
/// Returns the exit status:
///
/// - 0: the lines are written, whether files are lost or not.
/// - 4: a log is damaged, which a last line tells. The key log is opened first.
/// - 5: the disk failed.
/// - 6: allocation failed.
/// - 8: the output failed.
/// - 10: the last opening of a log is used up.
pub fn run_check<D: Disk, K: Sink>(alloc: Global, disk: &mut D, out: &mut K) -> u8
    ensures checks { Checks (K.written out.old) (K.written out.new) result (D.state disk.old)
        (D.state disk.new) }
    ensures looks { OnlyLooks (D.state disk.old) (D.state disk.new) }
    ensures statuses { IsCheckStatus result }
    ensures store { result ≡ 5 → Rose (D.state disk.old).faults (D.state disk.new).faults }
    ensures write { result ≡ 8 → Rose (K.faults out.old) (K.faults out.new) }
{
    match copy_of_logs(alloc, disk) {
        Err(end) => report(alloc, out, end),
        Ok(copy) => {
            let mut copy = copy;
            let text = text_of(alloc, &mut copy);
            drop(copy);
            show_text(alloc, out, text)
        }
    }
}
