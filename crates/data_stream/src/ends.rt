//! How a command ends: its last line, and its exit status.
ghost use Rattle.std.specs.Prelude.{◌≡◌, ◌≢◌, ◌⊎◌, IfOk, MatchResult, codes, string_bytes};
ghost use Rattle.hk_base.specs.Faults.{Rose};
ghost use Rattle.command_io.specs.Ends.{ShowsWith};
ghost use Rattle.data_stream.specs.Ends.{ClosesWith, last_line, status_of};

use command_io::show;
use file_orders::FsEnd;
use hk_base::{ByteList, NoMemory, Sink};
use kms_calls::KmsRefusal;
use name_calls::NameRefusal;
use name_text::refusal_text;
use std::alloc::{AllocError, Global};

/// Makes the line of a refusal of the namesystem.
fn name_refused(alloc: Global, why: NameRefusal) -> Result<String, NoMemory>
    ensures { IfOk result (λ text. string_bytes text ≡ last_line (FsEnd.NameRefused why)) }
{
    let text = refusal_text(alloc, &why)?;
    Ok(format!(in alloc; "refused {text}\n")?)
}

/// Makes the line of a refusal of the key management service.
fn key_refused(alloc: Global, why: KmsRefusal) -> Result<ByteList, NoMemory>
    ensures { IfOk result (λ text. text ≡ last_line (FsEnd.KeyRefused why)) }
{
    let mut line = ByteList::new(alloc);
    line.append(b"refused ")?;
    why.write(&mut line)?;
    line.append(b"\n")?;
    Ok(line)
}

/// Makes the line of a body that was put.
fn put_line(alloc: Global, count: u64) -> Result<String, AllocError>
    ensures { IfOk result (λ text. string_bytes text ≡ last_line (FsEnd.Put count)) }
{
    format!(in alloc; "put {count}\n")
}

/// Writes the last line of an end. Returns its status, or 8 if the output fails.
pub fn close<K: Sink>(alloc: Global, out: &mut K, how: FsEnd) -> u8
    ensures closes { ClosesWith how (K.written out.old) (K.written out.new) result }
    ensures write { result ≡ 8 →
        (how ≡ FsEnd.WriteFault) ⊎ Rose (K.faults out.old) (K.faults out.new) }
    ensures quiet { how ≡ FsEnd.WriteFault → out.new ≡ out.old }
{
    match how {
        FsEnd::Put { count } => match put_line(alloc, count) {
            Ok(line) => show(out, line.as_bytes(), 0),
            Err(_) => show(out, b"no memory\n", 6),
        },
        FsEnd::Read { count: _ } => 0,
        FsEnd::NameRefused(why) => match name_refused(alloc, why) {
            Ok(line) => show(out, line.as_bytes(), 11),
            Err(_) => show(out, b"no memory\n", 6),
        },
        FsEnd::KeyRefused(why) => match key_refused(alloc, why) {
            Ok(line) => show(out, line.as_slice(), 11),
            Err(_) => show(out, b"no memory\n", 6),
        },
        FsEnd::Directory => show(out, b"refused Directory\n", 11),
        FsEnd::StoreFault => show(out, b"store fault\n", 5),
        FsEnd::NoMemory => show(out, b"no memory\n", 6),
        FsEnd::ReadFault => show(out, b"read fault\n", 7),
        FsEnd::WriteFault => 8,
        FsEnd::VaultFault => show(out, b"vault fault\n", 12),
        FsEnd::TooLong => show(out, b"body too long\n", 13),
    }
}
