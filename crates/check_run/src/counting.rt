//! Counting the directories and files.
ghost use Rattle.std.specs.Prelude.{◌≡◌, IfOk, true};
ghost use Rattle.inode_tree.specs.Rows.{is_marked};
ghost use Rattle.check_run.specs.Rows.{one_if_true, row_counts, with_row};

use crate::counts::{RowCounts, no_rows};
use crate::lost::lost_version;
use crate::versions::plus;
use hk_base::NoMemory;
use inode_tree::{Kind, Row};
use kms_store::Store;
use name_store::NameStore;

fn one_if(is: bool) -> u64
    ensures { result ≡ one_if_true is }
{
    if is { 1 } else { 0 }
}

/// Returns whether a row is the directory of a zone.
fn is_marked(row: &Row) -> bool
    ensures { result ≡ is_marked row.now }
{
    match &row.kind {
        Kind::Dir { key } => key.is_some(),
        Kind::File { .. } => false,
    }
}

/// Counts one more row.
fn with_row(
    keys: &Store,
    names: &NameStore,
    row: &Row,
    counts: RowCounts,
) -> Result<RowCounts, NoMemory>
    ensures { IfOk result
        (λ after. after ≡ with_row keys.now.table.keys.rows names.now.table row.now counts) }
{
    let is_dir = row.kind.is_dir();
    let directories = plus(counts.directories, one_if(is_dir))?;
    let files = plus(counts.files, one_if(!is_dir))?;
    let zones = plus(counts.zones, one_if(is_marked(row)))?;
    let snapshots = plus(counts.snapshots, names.snaps().len_of(row.id) as u64)?;
    let goes_on = names.statuses().zone_goes_on(row.id);
    let reencryptions = plus(counts.reencryptions, one_if(goes_on))?;
    let lost = plus(counts.lost, one_if(lost_version(keys, row).is_some()))?;
    Ok(RowCounts {
        directories,
        files,
        zones,
        snapshots,
        reencryptions,
        lost,
    })
}

/// Counts the directories and files.
pub(crate) fn count_rows(keys: &Store, names: &NameStore) -> Result<RowCounts, NoMemory>
    ensures { IfOk result
        (λ counts. counts ≡
        row_counts keys.now.table.keys.rows names.now.table names.now.table.rows) }
{
    let tree = names.tree();
    let mut counts = no_rows();
    for at in 0..tree.rows() {
        let row = tree.row_at_place(at);
        let next = with_row(keys, names, &row, counts)?;
        counts = next;
    }
    Ok(counts)
}
