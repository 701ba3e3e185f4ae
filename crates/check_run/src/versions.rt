//! The versions of keys.
ghost use Rattle.std.specs.Prelude.{◌≡◌, ◌+◌, IfOk};
ghost use Rattle.std.specs.List.{sum_by};
ghost use Rattle.std.specs.Prelude.{length};
ghost use Rattle.check_run.specs.Rows.{versions_named};
ghost use Rattle.check_run.specs.Summary.{has_version};

use hk_base::{KeyName, NoMemory, VersionName};
use kms_store::Store;

/// Returns the sum, or `NoMemory` if it gets too large, which no memory allows.
pub(crate) fn plus(count: u64, more: u64) -> Result<u64, NoMemory>
    ensures { IfOk result (λ sum. sum ≡ count + more) }
{
    count.checked_add(more).ok_or(NoMemory)
}

/// Returns the number of versions of the key with this name.
fn versions_named(keys: &Store, name: &KeyName) -> u64
    ensures { result ≡ versions_named keys.now.table.keys.rows name.now }
{
    match keys.find(name) {
        None => 0,
        Some(row) => row.versions as u64,
    }
}

/// Returns the number of versions of all keys.
pub(crate) fn count_versions(keys: &Store) -> Result<u64, NoMemory>
    ensures { IfOk result
        (λ count. count ≡ sum_by (λ row. length row.materials) keys.now.table.keys.rows) }
{
    let _ = keys.count(); // says that the table keeps its rules
    let names = keys.names()?;
    let mut count = 0;
    for name in names.as_slice() {
        count = plus(count, versions_named(keys, name))?;
    }
    drop(names);
    Ok(count)
}

/// Returns whether a key has the version.
pub(crate) fn has_version(keys: &Store, version: &VersionName) -> bool
    ensures { result ≡ has_version keys.now.table.keys.rows version.now }
{
    match keys.find(&version.key) {
        None => false,
        Some(row) => (version.number as u32) < row.versions,
    }
}
