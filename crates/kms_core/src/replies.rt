//! The metadata of a key.
ghost use Rattle.std.specs.Prelude.{◌≡◌, IfOk, Some};
ghost use Rattle.key_rows.specs.declared.rows.KeyRow.{KeyRow};
ghost use Rattle.kms_store.specs.Store.{ShowsKey};
ghost use Rattle.kms_core.specs.Calls.{meta_of};

use hk_base::NoMemory;
use key_index::IndexRow;
use kms_calls::KeyMeta;
use std::alloc::Global;

/// Returns the metadata of a key.
pub fn meta(alloc: Global, row: &IndexRow) -> Result<KeyMeta, NoMemory>
    ensures { (key : KeyRow) → ShowsKey row.now key →
        IfOk result (λ meta. meta ≡ meta_of key.name (Some key)) }
{
    let description = row.description.copy(alloc)?;
    Ok(KeyMeta {
        name: row.name,
        bits: row.bits,
        description,
        created: row.created,
        versions: row.versions,
    })
}
