//! The parts of an image, told piece by piece. They take no memory.
ghost use Rattle.std.specs.Prelude.{◌≡◌, ◌++◌, List, ℕ, length};
ghost use Rattle.std.specs.Int.{w32, w64, to_be_bytes};
ghost use Rattle.key_rows.specs.Image.{key_head};
ghost use Rattle.image_parts.specs.Parts.{KeepsPart};

use image_parts::put;
use key_index::{IndexRow, KeyIndex};

/// Tells the fields of a key before its materials, and the number of the materials. Returns how many
/// bytes were told so far.
pub(crate) fn put_head(buf: &mut [u8], at: u64, seen: u64, row: &IndexRow) -> u64
    ensures length { length buf.new ≡ length buf.old }
    ensures told { (all : List ℕ) → KeepsPart at seen all buf.old →
        KeepsPart at result (all ++ (key_head row.now.birth row.now.name row.now.bits
        row.now.description row.now.created ++ to_be_bytes w32 row.now.versions)) buf.new }
{
    let name = row.name.as_bytes();
    let text = row.description.as_text().as_str();
    let a = put(buf, at, seen, &row.birth.to_be_bytes());
    let b = put(buf, at, a, &[name.len() as u8]);
    let c = put(buf, at, b, name);
    let d = put(buf, at, c, &row.bits.to_be_bytes());
    let e = put(buf, at, d, &(text.len() as u16).to_be_bytes());
    let f = put(buf, at, e, text.as_bytes());
    let g = put(buf, at, f, &row.created.to_be_bytes());
    put(buf, at, g, &row.versions.to_be_bytes())
}

/// Tells what comes before the keys. Returns how many bytes were told.
pub(crate) fn put_top(buf: &mut [u8], at: u64, index: &KeyIndex) -> u64
    ensures length { length buf.new ≡ length buf.old }
    ensures told { KeepsPart at result
        (to_be_bytes w32 index.now.index.opening ++ (to_be_bytes w64 index.now.index.greatest ++
        to_be_bytes w32 (length index.now.index.rows))) buf.new }
{
    let a = put(buf, at, 0, &index.opening().to_be_bytes());
    let b = put(buf, at, a, &index.greatest().to_be_bytes());
    put(buf, at, b, &index.count().to_be_bytes())
}
