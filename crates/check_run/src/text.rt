//! The text of a check.
ghost use Rattle.std.specs.Prelude.{◌≡◌, IfOk};
ghost use Rattle.check_run.specs.Summary.{check_counts, check_text};

use crate::counting::count_rows;
use crate::counts::{CheckCounts, counts_line};
use crate::lost::append_lost;
use crate::versions::count_versions;
use hk_base::{ByteList, NoMemory};
use kms_store::Store;
use name_store::NameStore;
use std::alloc::Global;

/// Returns the numbers of what the keys and the names are.
fn counts_of(keys: &Store, names: &NameStore) -> Result<CheckCounts, NoMemory>
    ensures { IfOk result
        (λ counts. counts ≡ check_counts keys.now.table.keys names.now.table) }
{
    let _ = names.tree(); // says that the table keeps its rules
    let versions = count_versions(keys)?;
    let rows = count_rows(keys, names)?;
    Ok(CheckCounts {
        keys: keys.count() as u64,
        versions,
        directories: rows.directories,
        files: rows.files,
        zones: rows.zones,
        snapshots: rows.snapshots,
        reencryptions: rows.reencryptions,
        lost: rows.lost,
    })
}

/// Returns the lines of what the keys and the names are.
pub(crate) fn check_text(
    alloc: Global,
    keys: &Store,
    names: &NameStore,
) -> Result<ByteList, NoMemory>
    ensures { IfOk result (λ text. text ≡ check_text keys.now.table.keys names.now.table) }
{
    let counts = counts_of(keys, names)?;
    let mut text = ByteList::new(alloc);
    append_lost(alloc, keys, names.tree(), &mut text)?;
    let line = counts_line(alloc, counts)?;
    text.append(line.as_slice())?;
    Ok(text)
}
