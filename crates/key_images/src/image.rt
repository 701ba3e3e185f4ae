//! The image of an index of keys.
ghost use Rattle.std.specs.Prelude.{◌≡◌};
ghost use Rattle.key_images.specs.Sources.{AreIn};

use crate::sizes::image_size;
use crate::spelling::put_image;
use frame_log::Image;
use hk_base::{Disk, Failed};
use image_parts::kept;
use key_index::KeyIndex;
use std::marker::Model;

/// The image of the table that an index stands for. The current materials are in the index, and the older
/// ones are read from a range of the file of the key log. Contracts see the index and the range.
#[derive(Drop)]
pub struct KeyImage<'a> {
    index: &'a KeyIndex,
    from: u64,
    count: u64,
}

impl<'a> Model for KeyImage<'a> {
    ghost use Rattle.key_images.specs.Sources.{AreIn, KeySource};

    ghost Value = { KeySource };

    ghost view = { λ a. record { index = a.index.now.index; from = a.from; count = a.count } };

    ghost invariant = { λ a. AreIn a.from a.count a.index.now.index };
}

impl<'a> KeyImage<'a> {
    /// The image of an index, whose materials lie in the range of `count` bytes from the offset `from` of
    /// the file of the key log on.
    pub fn of(index: &'a KeyIndex, from: u64, count: u64) -> KeyImage<'a>
        requires { AreIn from count index.now.index }
        ensures { result ≡ record { index = index.now.index; from = from; count = count } }
    {
        KeyImage { index, from, count }
    }
}

impl<'a> Image for KeyImage<'a> {
    ghost use Rattle.key_rows.specs.Image.{key_image};
    ghost use Rattle.key_images.specs.Sources.{table_in};

    ghost file = { λ _. 0 };

    ghost from = { λ a. a.from };

    ghost count = { λ a. a.count };

    ghost image = { λ a held. key_image (table_in a.from held a.index) };

    fn size(&self) -> u64 {
        image_size(self.index)
    }

    fn part<D: Disk>(&self, disk: &mut D, at: u64, buf: &mut [u8]) -> Result<usize, Failed> {
        let size = image_size(self.index);
        put_image(self.index, disk, at, buf)?;
        Ok(kept(buf, at, size))
    }
}
