//! What a check counts, and the line of it.
ghost use Rattle.std.specs.Prelude.{◌≡◌, ◌++◌, codes, IfOk, OnOk};
ghost use Rattle.std.specs.Fmt.{decimal};
ghost use Rattle.check_run.specs.Rows.{no_rows};
ghost use Rattle.check_run.specs.Summary.{counts_line};

use hk_base::{ByteList, NoMemory};
use itoa::Buffer;
use std::alloc::Global;

/// What both logs make, in numbers.
#[derive(Clone, Copy)]
pub struct CheckCounts {
    /// The keys.
    pub keys: u64,
    /// The versions of all keys.
    pub versions: u64,
    /// The directories, with the root.
    pub directories: u64,
    /// The files, in zones and outside.
    pub files: u64,
    /// The encryption zones.
    pub zones: u64,
    /// The snapshots of all directories.
    pub snapshots: u64,
    /// The zones whose re-encryption goes on.
    pub reencryptions: u64,
    /// The files whose encrypted key is under a version that no key has.
    pub lost: u64,
}

/// What is counted of the directories and files.
#[derive(Clone, Copy)]
pub struct RowCounts {
    pub directories: u64,
    pub files: u64,
    pub zones: u64,
    pub snapshots: u64,
    pub reencryptions: u64,
    pub lost: u64,
}

/// Returns the counts before the first row.
pub(crate) fn no_rows() -> RowCounts
    ensures { result ≡ no_rows }
{
    RowCounts {
        directories: 0,
        files: 0,
        zones: 0,
        snapshots: 0,
        reencryptions: 0,
        lost: 0,
    }
}

/// Appends a text and a count.
fn append_count(line: &mut ByteList, text: &[u8], count: u64) -> Result<(), NoMemory>
    ensures { OnOk result (line.new ≡ line.old ++ text.now ++ decimal count) }
{
    line.append(text)?;
    let mut digits = Buffer::new();
    line.append(digits.format(count).as_bytes())
}

/// Appends the counts of keys and versions.
fn append_keys(line: &mut ByteList, counts: CheckCounts) -> Result<(), NoMemory>
    ensures { OnOk result
        (line.new ≡
        line.old ++ codes "check keys=" ++ decimal counts.keys ++ codes " versions=" ++
        decimal counts.versions) }
{
    append_count(line, b"check keys=", counts.keys)?;
    append_count(line, b" versions=", counts.versions)
}

/// Appends the counts of directories, files and zones.
fn append_entries(line: &mut ByteList, counts: CheckCounts) -> Result<(), NoMemory>
    ensures { OnOk result
        (line.new ≡
        line.old ++ codes " directories=" ++ decimal counts.directories ++ codes " files=" ++
        decimal counts.files ++ codes " zones=" ++ decimal counts.zones) }
{
    append_count(line, b" directories=", counts.directories)?;
    append_count(line, b" files=", counts.files)?;
    append_count(line, b" zones=", counts.zones)
}

/// Appends the other counts.
fn append_others(line: &mut ByteList, counts: CheckCounts) -> Result<(), NoMemory>
    ensures { OnOk result
        (line.new ≡
        line.old ++ codes " snapshots=" ++ decimal counts.snapshots ++ codes " reencryptions=" ++
        decimal counts.reencryptions ++ codes " lost=" ++ decimal counts.lost) }
{
    append_count(line, b" snapshots=", counts.snapshots)?;
    append_count(line, b" reencryptions=", counts.reencryptions)?;
    append_count(line, b" lost=", counts.lost)
}

/// Returns the line of the counts.
#[tactic(auto, unfolding(crate::specs::Summary::counts_line))]
pub(crate) fn counts_line(alloc: Global, counts: CheckCounts) -> Result<ByteList, NoMemory>
    ensures { IfOk result (λ line. line ≡ counts_line counts) }
{
    let mut line = ByteList::new(alloc);
    append_keys(&mut line, counts)?;
    append_entries(&mut line, counts)?;
    append_others(&mut line, counts)?;
    line.append(b"\n")?;
    Ok(line)
}
