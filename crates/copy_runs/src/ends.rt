//! The last line of a copy.
ghost use Rattle.std.specs.Prelude.{◌≡◌, ◌⊎◌, Err};
ghost use Rattle.hk_base.specs.Faults.{Rose};
ghost use Rattle.copy_runs.specs.Commands.{ClosesCopy};

use copy_ends::{close_counts, close_start};
use data_stream::close;
use file_orders::FsEnd;
use hk_base::Sink;
use raw_copy::CopyFault;
use row_copies::Copied;
use std::alloc::Global;

/// Writes the last line of a copy that failed. Returns its status, or 8 if the output fails.
fn close_fault<K: Sink>(alloc: Global, out: &mut K, fault: CopyFault) -> u8
    ensures closes { ClosesCopy (Err fault) (K.written out.old) (K.written out.new) result }
    ensures write { result ≡ 8 →
        (fault ≡ CopyFault.End FsEnd.WriteFault) ⊎ Rose (K.faults out.old) (K.faults out.new) }
{
    match fault {
        CopyFault::Start(why) => close_start(alloc, out, why),
        CopyFault::End(how) => close(alloc, out, how),
    }
}

/// Writes the last line of a copy. Returns its status, or 8 if the output fails.
pub(crate) fn close_copy<K: Sink>(
    alloc: Global,
    out: &mut K,
    ended: Result<Copied, CopyFault>,
) -> u8
    ensures closes { ClosesCopy ended (K.written out.old) (K.written out.new) result }
    ensures write { result ≡ 8 → (ended ≡ Err (CopyFault.End FsEnd.WriteFault)) ⊎
        Rose (K.faults out.old) (K.faults out.new) }
{
    match ended {
        Ok(counts) => close_counts(alloc, out, counts),
        Err(fault) => close_fault(alloc, out, fault),
    }
}
