//! How a command that copies ends: its last line, and its exit status.
ghost use Rattle.std.specs.Prelude.{◌≡◌, IfOk, string_bytes};
ghost use Rattle.hk_base.specs.Faults.{Rose};
ghost use Rattle.copy_ends.specs.Ends.{ShowsLine, copied_line, start_line, start_status};

use command_io::show;
use frame_log::StartFault;
use hk_base::Sink;
use row_copies::Copied;
use std::alloc::{AllocError, Global};

/// Makes the line of a copy.
fn copied_line(alloc: Global, counts: Copied) -> Result<String, AllocError>
    ensures { IfOk result (λ text. string_bytes text ≡ copied_line counts) }
{
    let files = counts.files;
    let directories = counts.directories;
    format!(in alloc; "copied {files} {directories}\n")
}

/// Makes the line of a damaged edit log of copies.
fn damaged_line(alloc: Global, at: u64) -> Result<String, AllocError>
    ensures { IfOk result (λ text. string_bytes text ≡ start_line (StartFault.Damaged at)) }
{
    format!(in alloc; "damaged copies {at}\n")
}

/// Writes the numbers of the files and directories that were copied. Returns 0. Returns 6 if there is no
/// memory for the line, and 8 if the output fails.
pub fn close_counts<K: Sink>(alloc: Global, out: &mut K, counts: Copied) -> u8
    ensures closes { ShowsLine (copied_line counts) 0 (K.written out.old) (K.written out.new)
        result }
    ensures write { result ≡ 8 → Rose (K.faults out.old) (K.faults out.new) }
{
    match copied_line(alloc, counts) {
        Ok(line) => show(out, line.as_bytes(), 0),
        Err(_) => show(out, b"no memory\n", 6),
    }
}

/// Writes why the edit log of the copies could not be opened. Returns the status of that, or 8 if the
/// output fails.
pub fn close_start<K: Sink>(alloc: Global, out: &mut K, fault: StartFault) -> u8
    ensures closes { ShowsLine (start_line fault) (start_status fault) (K.written out.old)
        (K.written out.new) result }
    ensures write { result ≡ 8 → Rose (K.faults out.old) (K.faults out.new) }
{
    match fault {
        StartFault::Damaged { at } => match damaged_line(alloc, at) {
            Ok(line) => show(out, line.as_bytes(), 4),
            Err(_) => show(out, b"no memory\n", 6),
        },
        StartFault::StoreFault => show(out, b"store fault\n", 5),
        StartFault::NoMemory => show(out, b"no memory\n", 6),
        StartFault::Spent => show(out, b"openings spent\n", 10),
    }
}
