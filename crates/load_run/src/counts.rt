//! What a load counts, and the line that sums it up.
ghost use Rattle.std.specs.Prelude.{◌≡◌, ◌++◌, codes, IfOk, OnOk};
ghost use Rattle.std.specs.Fmt.{decimal};
ghost use Rattle.load_run.specs.Counts.{load_line, no_counts};

use hk_base::{ByteList, NoMemory};
use itoa::Buffer;
use std::alloc::Global;

/// The counts of a load.
#[derive(Clone, Copy)]
pub struct Counts {
    /// The files that were made.
    pub created: u64,
    /// The files that were deleted.
    pub deleted: u64,
    /// The rolls of keys.
    pub rolled: u64,
    /// The encrypted keys that were generated, without those for files and re-encryptions.
    pub ready: u64,
    /// The snapshots that were taken.
    pub snapshots: u64,
    /// The steps of which an event was refused.
    pub refused: u64,
    /// The files that got another encrypted key in a re-encryption.
    pub reencrypted: u64,
}

/// Returns the counts before the first task.
pub(crate) fn no_counts() -> Counts
    ensures { result ≡ no_counts }
{
    Counts {
        created: 0,
        deleted: 0,
        rolled: 0,
        ready: 0,
        snapshots: 0,
        refused: 0,
        reencrypted: 0,
    }
}

/// Appends a text and a count.
fn append_count(line: &mut ByteList, text: &[u8], count: u64) -> Result<(), NoMemory>
    ensures { OnOk result (line.new ≡ line.old ++ text.now ++ decimal count) }
{
    line.append(text)?;
    let mut digits = Buffer::new();
    line.append(digits.format(count).as_bytes())
}

/// Appends the counts of files and rolls.
fn append_changes(line: &mut ByteList, counts: Counts) -> Result<(), NoMemory>
    ensures { OnOk result
        (line.new ≡
        line.old ++ codes " created=" ++ decimal counts.created ++ codes " deleted=" ++
        decimal counts.deleted ++ codes " rolled=" ++ decimal counts.rolled) }
{
    append_count(line, b" created=", counts.created)?;
    append_count(line, b" deleted=", counts.deleted)?;
    append_count(line, b" rolled=", counts.rolled)
}

/// Appends the other counts.
fn append_others(line: &mut ByteList, counts: Counts) -> Result<(), NoMemory>
    ensures { OnOk result
        (line.new ≡
        line.old ++ codes " ready=" ++ decimal counts.ready ++ codes " snapshots=" ++
        decimal counts.snapshots ++ codes " refused=" ++ decimal counts.refused ++
        codes " reencrypted=" ++ decimal counts.reencrypted) }
{
    append_count(line, b" ready=", counts.ready)?;
    append_count(line, b" snapshots=", counts.snapshots)?;
    append_count(line, b" refused=", counts.refused)?;
    append_count(line, b" reencrypted=", counts.reencrypted)
}

/// Returns the line that sums up a load of `count` steps.
#[tactic(auto, unfolding(crate::specs::Counts::load_line))]
pub(crate) fn load_line(alloc: Global, count: u32, counts: Counts) -> Result<ByteList, NoMemory>
    ensures { IfOk result (λ line. line ≡ load_line count counts) }
{
    let mut line = ByteList::new(alloc);
    append_count(&mut line, b"load events=", count as u64)?;
    append_changes(&mut line, counts)?;
    append_others(&mut line, counts)?;
    line.append(b"\n")?;
    Ok(line)
}
