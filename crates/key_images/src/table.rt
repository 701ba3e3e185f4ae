//! Decoding the image of a table of keys.
ghost use Rattle.std.specs.Prelude.{◌≡◌, ◌-◌, ◌≤◌, ◌^◌, length, IfOk, IsErrOf};
ghost use Rattle.hk_base.specs.declared.records.RecordFault.TheVariants as fault;
ghost use Rattle.key_rows.specs.Reading.{GivesRecord};
ghost use Rattle.key_images.specs.Images.{IsIndexOfImage, IsNoImage, header_at, may_be_greatest};

use crate::keys::add_keys;
use hk_base::RecordFault;
use key_index::KeyIndex;
use key_rows::fields::{u32_at, u64_at};
use std::alloc::Global;

/// The largest number of keys of a table.
const MOST_KEYS: u32 = 10_000;

/// Decodes the last opening, the greatest birth and the number of keys. Returns them and the bytes after
/// them.
#[tactic(auto, unfolding(crate::specs::Images::header_at))]
fn header_of(bytes: &[u8]) -> Result<(u32, u64, u32, &[u8]), RecordFault>
    ensures { GivesRecord (λ x. (x.0, x.1, x.2, x.3.now)) result (header_at bytes.now) }
{
    let (opening, rest) = u32_at(bytes)?;
    let (greatest, rest) = u64_at(rest)?;
    let (count, rest) = u32_at(rest)?;
    Ok((opening, greatest, count, rest))
}

/// Returns whether a create may have used this birth as the greatest one, if any create used one.
fn may_be_greatest(opening: u32, greatest: u64) -> bool
    ensures { result ≡ may_be_greatest opening greatest }
{
    let of = greatest / (1 << 32);
    greatest == 0 || (of >= 1 && of <= opening as u64)
}

/// Decodes all of the bytes as an image, which ends at the offset `end` of the file. Returns `NoRecord` if
/// they are not the image of any table.
pub(crate) fn index_of(alloc: Global, end: u64, bytes: &[u8]) -> Result<KeyIndex, RecordFault>
    requires end { end ≤ 2 ^ 62 }
    requires place { length bytes.now ≤ end }
    ensures made { IfOk result
        (λ index. IsIndexOfImage bytes.now (end - length bytes.now) index.index) }
    ensures none { IsErrOf result fault.NoRecord → IsNoImage bytes.now }
{
    let (opening, greatest, count, rest) = match header_of(bytes) {
        Err(fault) => return Err(fault),
        Ok(header) => header,
    };
    if count > MOST_KEYS {
        return Err(RecordFault::NoRecord);
    }
    if !may_be_greatest(opening, greatest) {
        return Err(RecordFault::NoRecord);
    }
    let mut index = KeyIndex::since(alloc, opening, greatest);
    match add_keys(alloc, &mut index, greatest, count, end, rest) {
        Err(fault) => return Err(fault),
        Ok(()) => return Ok(index),
    }
}
