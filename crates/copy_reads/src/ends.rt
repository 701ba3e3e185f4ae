//! The last line of a command that could not open the log of the second namesystem.
ghost use Rattle.std.specs.Prelude.{◌≡◌, IfOk, codes, string_bytes};
ghost use Rattle.hk_base.specs.Faults.{Rose};
ghost use Rattle.copy_reads.specs.Commands.{ReportsCopies, copies_line};

use command_io::show;
use frame_log::StartFault;
use hk_base::Sink;
use std::alloc::{AllocError, Global};

/// Makes the line of a damaged log.
fn damaged_line(alloc: Global, at: u64) -> Result<String, AllocError>
    ensures { IfOk result (λ text. string_bytes text ≡ copies_line (StartFault.Damaged at)) }
{
    format!(in alloc; "damaged copies {at}\n")
}

/// Writes the last line for a log of the second namesystem that could not be opened. Returns the status
/// of the fault, or 8 if the output fails.
pub(crate) fn report_copies<K: Sink>(alloc: Global, out: &mut K, fault: StartFault) -> u8
    ensures reports { ReportsCopies fault (K.written out.old) (K.written out.new) result }
    ensures write { result ≡ 8 → Rose (K.faults out.old) (K.faults out.new) }
{
    match fault {
        StartFault::Damaged { at } => match damaged_line(alloc, at) {
            Ok(line) => show(out, line.as_bytes(), 4),
            Err(_) => show(out, b"no memory\n", 6),
        },
        StartFault::StoreFault => show(out, b"store fault\n", 5),
        StartFault::NoMemory => show(out, b"no memory\n", 6),
        StartFault::Spent => show(out, b"openings spent\n", 10),
    }
}
