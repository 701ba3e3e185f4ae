//! Decoding the keys of an image.
ghost use Rattle.std.specs.Prelude.{◌≡◌, ◌*◌, ◌/◌, ◌≤◌, length};
ghost use Rattle.std.specs.Int.{w16, w32, w64};
ghost use Rattle.key_rows.specs.Reading.{GivesRecord, bytes_at, long_at, name_of, number_at, short_at, text_of};
ghost use Rattle.key_rows.specs.Table.{is_length};
ghost use Rattle.key_images.specs.Rows.{current_in, head_at, row_at};

use hk_base::{Dek, KeyName, RecordFault};
use key_index::IndexRow;
use key_rows::fields::{cut, cut_long, cut_short, name_of, u16_at, u32_at, u64_at};
use kms_calls::Description;
use std::alloc::Global;

/// The fields of a key before its materials.
#[derive(Drop)]
pub(crate) struct KeyHead {
    birth: u64,
    name: KeyName,
    bits: u16,
    description: Description,
    created: u64,
}

/// Decodes all of the bytes as a description.
fn description_of(alloc: Global, bytes: &[u8]) -> Result<Description, RecordFault>
    requires { length bytes.now ≤ 65535 }
    ensures { GivesRecord (λ x. x) result (text_of bytes.now) }
{
    match str::from_utf8(bytes) {
        Err(_) => Err(RecordFault::NoRecord),
        Ok(text) => {
            let description = Description::from_str(alloc, text)?;
            Ok(description)
        }
    }
}

/// Decodes the fields of a key before its materials. Returns them and the bytes after them.
#[tactic(auto, unfolding(crate::specs::Rows::head_at))]
fn head_of(alloc: Global, bytes: &[u8]) -> Result<(KeyHead, &[u8]), RecordFault>
    ensures { GivesRecord (λ x. (x.0, x.1.now)) result (head_at bytes.now) }
{
    let (birth, rest) = u64_at(bytes)?;
    let (name, rest) = cut_short(rest)?;
    let name = name_of(name)?;
    let (bits, rest) = u16_at(rest)?;
    let (text, rest) = cut_long(rest)?;
    let description = description_of(alloc, text)?;
    let (created, rest) = u64_at(rest)?;
    let head = KeyHead {
        birth,
        name,
        bits,
        description,
        created,
    };
    Ok((head, rest))
}

fn is_length(bits: u16) -> bool
    ensures { result ≡ is_length bits }
{
    bits == 128 || bits == 192 || bits == 256
}

/// Returns the last of the materials of a key. Returns `NoRecord` unless there are 1 to 65,535 and the
/// length in bits is one of a key.
fn current_of(bits: u16, versions: u32, materials: &[u8]) -> Result<Dek, RecordFault>
    requires { length materials.now ≡ versions * (bits / 8) }
    ensures { GivesRecord (λ x. x) result (current_in bits versions materials.now) }
{
    let long = is_length(bits);
    if !long || versions == 0 || versions > 65535 {
        return Err(RecordFault::NoRecord);
    }
    let older = (versions as usize - 1) * (bits as usize / 8);
    let (_, current) = materials.split_at(older);
    Ok(Dek::of(current))
}

/// Decodes a key. Returns it without its older materials, the bytes of all its materials, and the bytes
/// after them. Returns `NoRecord` if the bytes do not begin with a key.
#[tactic(auto, unfolding(crate::specs::Rows::row_at))]
pub(crate) fn row_of(alloc: Global, bytes: &[u8]) -> Result<(IndexRow, &[u8], &[u8]), RecordFault>
    ensures { GivesRecord (λ x. (x.0, x.1.now, x.2.now)) result (row_at bytes.now) }
{
    let (head, rest) = head_of(alloc, bytes)?;
    let (versions, rest) = u32_at(rest)?;
    let (materials, rest) = cut(rest, versions as usize * (head.bits as usize / 8))?;
    let current = current_of(head.bits, versions, materials)?;
    let row = IndexRow {
        name: head.name,
        birth: head.birth,
        bits: head.bits,
        current,
        versions,
        description: head.description,
        created: head.created,
    };
    Ok((row, materials, rest))
}
