//! Placing the materials of an index in an image of it.
ghost use Rattle.std.specs.Prelude.{◌≡◌, ◌+◌, ◌*◌, ◌-◌, ◌/◌, ◌<◌, ◌≤◌, ◌^◌, length};
ghost use Rattle.std.specs.List.{HoldsAt};
ghost use Rattle.key_rows.specs.Image.{key_image};
ghost use Rattle.key_index.specs.Index.{Materials, table_of};
ghost use Rattle.key_index.specs.Sound.{AllSized};
ghost use Rattle.key_index.specs.Walk.{placed_from, with_at};
ghost use Rattle.key_images.specs.Places.{index_at};
ghost use Rattle.key_images.specs.Sizes.{row_len};

use crate::sizes::{LEN_OF_HEAD, row_size};
use key_index::KeyIndex;

/// Places the materials of the key of a number where an image has them that has the key at the offset
/// `place`. Returns the offset after the key.
fn move_row(index: &mut KeyIndex, number: u32, place: u64) -> u64
    requires number { number < length index.old.index.rows }
    requires end { HoldsAt (λ placed. place + row_len placed.row ≤ 2 ^ 62) index.old.index.rows number }
    ensures end { HoldsAt (λ placed. result ≡ place + row_len placed.row) index.old.index.rows number }
    ensures moved { HoldsAt
        (λ placed. index.new.index ≡ with_at index.old.index number
        (placed_from (place + row_len placed.row - placed.row.versions * (placed.row.bits / 8)) placed))
        index.old.index.rows number }
{
    let row = index.row(number);
    let end = place + row_size(row);
    let materials = row.versions as u64 * (row.bits as u64 / 8);
    index.place_row(number, end - materials);
    end
}

/// Places all materials where the image of the table has them, of which the first byte is at the offset
/// `at` of the file. The image must end at most at 2^62. Does not allocate.
pub fn relocate(index: &mut KeyIndex, at: u64)
    requires end { (m : Materials) × AllSized m index.old.index ×
        (at + length (key_image (table_of m index.old.index)) ≤ 2 ^ 62) }
    ensures { (m : Materials) → AllSized m index.old.index →
        index.new.index ≡ index_at at (table_of m index.old.index) }
{
    let _ = index.opening(); // says that the rows are sound
    let mut place = at + LEN_OF_HEAD;
    for number in 0..index.count() {
        let end = move_row(index, number, place);
        place = end;
    }
}
