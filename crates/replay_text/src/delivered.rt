//! What became of a batch, as an answer.
ghost use Rattle.std.specs.Prelude.{◌≡◌, ◌++◌, OnOk, codes};
ghost use Rattle.std.specs.Fmt.{decimal};
ghost use Rattle.replay_text.specs.Transcript.{delivered_text};

use crate::transcript::write_number;
use hk_base::{ByteList, NoMemory};
use name_calls::Delivered;

/// Appends the answer to a delivery or a giving up.
pub(crate) fn write_delivered(delivered: Delivered, out: &mut ByteList) -> Result<(), NoMemory>
    ensures { OnOk result (out.new ≡ out.old ++ delivered_text delivered) }
{
    match delivered {
        Delivered::Applied {
            changed,
            skipped,
            failed,
        } => write_applied(changed, skipped, failed, out),
        Delivered::Ignored { session } => write_ignored(session, out),
    }
}

/// Appends how many files of a batch were changed, skipped and failed.
fn write_applied(
    changed: u32,
    skipped: u32,
    failed: u32,
    out: &mut ByteList,
) -> Result<(), NoMemory>
    ensures { OnOk result
        (out.new ≡
        out.old ++ codes "applied " ++ decimal changed ++ codes " " ++ decimal skipped ++
        codes " " ++ decimal failed) }
{
    out.append(b"applied ")?;
    write_number(changed as u64, out)?;
    out.push(b' ')?;
    write_number(skipped as u64, out)?;
    out.push(b' ')?;
    write_number(failed as u64, out)
}

/// Appends the last session of a zone whose batch is not outstanding.
fn write_ignored(session: u64, out: &mut ByteList) -> Result<(), NoMemory>
    ensures { OnOk result (out.new ≡ out.old ++ codes "ignored " ++ decimal session) }
{
    out.append(b"ignored ")?;
    write_number(session, out)
}
