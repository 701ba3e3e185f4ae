//! How long an image is.
ghost use Rattle.std.specs.Prelude.{◌≡◌, ◌+◌, ◌≤◌, ◌^◌};
ghost use Rattle.key_index.specs.Sound.{IsIndexRow, IsSoundIndex};
ghost use Rattle.key_images.specs.Sizes.{row_len, rows_len};

use key_index::{IndexRow, KeyIndex};

/// The number of bytes before the keys of an image.
pub(crate) const LEN_OF_HEAD: u64 = 16;

/// The number of bytes of a key in an image, besides those of its name, its description and its materials.
const REST_OF_KEY: u64 = 25;

/// Returns the number of bytes of a key in an image.
pub(crate) fn row_size(row: &IndexRow) -> u64
    ensures size { result ≡ row_len row.now }
    ensures small { IsIndexRow row.now → result ≤ 2 ^ 30 }
{
    let name = row.name.as_bytes().len() as u64;
    let description = row.description.as_text().as_str().len() as u64;
    let materials = row.versions as u64 * (row.bits as u64 / 8);
    REST_OF_KEY + name + description + materials
}

/// Returns the number of bytes of the image of an index.
pub(crate) fn image_size(index: &KeyIndex) -> u64
    ensures size { result ≡ 16 + rows_len index.now.index.rows }
    ensures sound { IsSoundIndex index.now.index }
{
    let _ = index.opening(); // says that the rows are sound
    let mut size = LEN_OF_HEAD;
    for number in 0..index.count() {
        let more = row_size(index.row(number));
        size += more;
    }
    size
}
