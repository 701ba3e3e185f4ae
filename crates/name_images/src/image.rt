//! The image of the table of the namesystem, told part by part. It takes no memory.
ghost use Rattle.std.specs.Prelude.{◌≡◌, ◌-◌, ◌^◌, ◌<◌, ◌≤◌, length, min, take, true};
ghost use Rattle.hk_base.specs.Disk.{piece};
ghost use Rattle.image_parts.specs.Parts.{KeepsPart, count_told};
ghost use Rattle.name_images.specs.Images.{name_image, zones_once};
ghost use Rattle.name_images.specs.Parts.{table_of};

use crate::rows::put_rows;
use crate::snapshots::{put_allowed, put_snapshots};
use crate::statuses::put_statuses;
use image_parts::put;
use inode_tree::Tree;
use snap_store::Snaps;
use std::marker::Model;
use zone_table::Statuses;

/// Tells the image of a table, and returns its length: at most the greatest number of 64 bits. No zone
/// may have two statuses.
fn put_image(
    buf: &mut [u8],
    at: u64,
    opening: u32,
    tree: &Tree,
    snaps: &Snaps,
    statuses: &Statuses,
) -> u64
    requires { zones_once statuses.now.rows ≡ true }
    ensures length { length buf.new ≡ length buf.old }
    ensures told { KeepsPart at result
        (name_image (table_of opening tree.now snaps.now statuses.now)) buf.new }
{
    let opened = put(buf, at, 0, &opening.to_be_bytes());
    let rowed = put_rows(buf, at, opened, tree);
    let allowed = put_allowed(buf, at, rowed, snaps);
    let taken = put_snapshots(buf, at, allowed, snaps);
    put_statuses(buf, at, taken, statuses)
}

/// Returns the lesser one of a length and a number.
fn lesser(len: usize, rest: u64) -> usize
    ensures { result ≡ min len rest }
{
    if (len as u64) < rest {
        len
    } else {
        rest as usize
    }
}

/// The image of a table: its bytes, told part by part. Each part takes the time of a walk over the whole
/// table, and no memory. In contracts its value is the table.
#[derive(Drop)]
pub struct NameImage<'a> {
    opening: u32,
    tree: &'a Tree,
    snaps: &'a Snaps,
    statuses: &'a Statuses,
}

impl<'a> Model for NameImage<'a> {
    ghost use Rattle.std.specs.Prelude.{◌≡◌, true};
    ghost use Rattle.name_store.specs.Table.{NameTable};
    ghost use Rattle.name_images.specs.Images.{zones_once};
    ghost use Rattle.name_images.specs.Parts.{table_of};

    ghost Value = { NameTable };

    ghost view = { λ image.
        table_of image.opening image.tree.now image.snaps.now image.statuses.now };

    ghost invariant = { λ image. zones_once image.statuses.now.rows ≡ true };
}

impl<'a> NameImage<'a> {
    /// Creates the image of a table: the number of the last opening, the rows, the snapshots and the
    /// statuses. No zone may have two statuses.
    pub fn new(
        opening: u32,
        tree: &'a Tree,
        snaps: &'a Snaps,
        statuses: &'a Statuses,
    ) -> NameImage<'a>
        requires { zones_once statuses.now.rows ≡ true }
        ensures { result ≡ table_of opening tree.now snaps.now statuses.now }
    {
        NameImage {
            opening,
            tree,
            snaps,
            statuses,
        }
    }

    /// Returns the length of the image in bytes: at most the greatest number of 64 bits. It does not
    /// allocate.
    pub fn size(&self) -> u64
        ensures { result ≡ count_told (length (name_image self.now)) }
    {
        let mut none = [0u8; 1];
        put_image(
            &mut none,
            0,
            self.opening,
            self.tree,
            self.snaps,
            self.statuses,
        )
    }

    /// Writes the bytes of the image from the offset `at` on into the buffer, as many as there is room
    /// for, and returns their number. The offset must be at most the size, and the image shorter than
    /// 2 to the power of 64. It does not allocate.
    pub fn part(&self, at: u64, buf: &mut [u8]) -> usize
        requires at { at ≤ length (name_image self.now) }
        requires few { length (name_image self.now) < 2 ^ 64 }
        ensures count { result ≡ min (length buf.old) (length (name_image self.now) - at) }
        ensures length { length buf.new ≡ length buf.old }
        ensures bytes { take result buf.new ≡ piece at result (name_image self.now) }
    {
        let size = put_image(buf, at, self.opening, self.tree, self.snaps, self.statuses);
        lesser(buf.len(), size - at)
    }
}
