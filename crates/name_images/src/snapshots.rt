//! The snapshots, told piece by piece. They take no memory.
ghost use Rattle.std.specs.Prelude.{List, ℕ, ◌≡◌, ◌<◌, ◌++◌, length, slice_index_or};
ghost use Rattle.std.specs.Int.{w16, w32, w64, to_be_bytes};
ghost use Rattle.key_rows.specs.Records.{text_field};
ghost use Rattle.edit_ops.specs.Records.{list_field};
ghost use Rattle.name_images.specs.Fields.{ids_field, many_field, snapshot_field};
ghost use Rattle.name_images.specs.Walks.{no_snapshot};
ghost use Rattle.image_parts.specs.Parts.{KeepsPart};

use crate::fields::put_ids;
use crate::nodes::put_frozen_rows;
use hk_base::Text;
use image_parts::put;
use snap_store::Snaps;

/// Tells the two low bytes of a number.
fn put_two(buf: &mut [u8], at: u64, seen: u64, number: usize) -> u64
    ensures length { length buf.new ≡ length buf.old }
    ensures told { (all : List ℕ) → KeepsPart at seen all buf.old →
        KeepsPart at result (all ++ to_be_bytes w16 number) buf.new }
{
    let bytes = (number as u64).to_be_bytes();
    put(buf, at, seen, &bytes[6..])
}

/// Tells the four low bytes of a number.
pub fn put_four(buf: &mut [u8], at: u64, seen: u64, number: usize) -> u64
    ensures length { length buf.new ≡ length buf.old }
    ensures told { (all : List ℕ) → KeepsPart at seen all buf.old →
        KeepsPart at result (all ++ to_be_bytes w32 number) buf.new }
{
    let bytes = (number as u64).to_be_bytes();
    put(buf, at, seen, &bytes[4..])
}

/// Tells a name after its length.
fn put_name(buf: &mut [u8], at: u64, seen: u64, name: &Text) -> u64
    ensures length { length buf.new ≡ length buf.old }
    ensures told { (all : List ℕ) → KeepsPart at seen all buf.old →
        KeepsPart at result (all ++ text_field name.now) buf.new }
{
    let bytes = name.as_str().as_bytes();
    let counted = put_two(buf, at, seen, bytes.len());
    put(buf, at, counted, bytes)
}

/// Tells the snapshot at an index.
fn put_snapshot(buf: &mut [u8], at: u64, seen: u64, snaps: &Snaps, index: usize) -> u64
    requires { index < length snaps.now.table.taken }
    ensures length { length buf.new ≡ length buf.old }
    ensures told { (all : List ℕ) → KeepsPart at seen all buf.old →
        KeepsPart at result
        (all ++ snapshot_field (slice_index_or snaps.now.table.taken index no_snapshot)) buf.new }
{
    // The paths of the rows keep the rule of paths.
    snaps.invariants();
    let snapshot = snaps.nth(index);
    let placed = put(buf, at, seen, &snapshot.dir.to_be_bytes());
    let named = put_name(buf, at, placed, snapshot.name);
    put_frozen_rows(buf, at, named, snapshot.forest, snapshot.root)
}

/// Tells the ids of the directories that may have snapshots, after four bytes with their number.
pub fn put_allowed(buf: &mut [u8], at: u64, seen: u64, snaps: &Snaps) -> u64
    ensures length { length buf.new ≡ length buf.old }
    ensures told { (all : List ℕ) → KeepsPart at seen all buf.old →
        KeepsPart at result (all ++ ids_field snaps.now.table.allowed) buf.new }
{
    let ids = snaps.allowed();
    let counted = put_four(buf, at, seen, ids.len());
    put_ids(buf, at, counted, ids)
}

/// Tells the snapshots in the order of directory and name, one after the other.
fn put_each_snapshot(buf: &mut [u8], at: u64, seen: u64, snaps: &Snaps) -> u64
    ensures length { length buf.new ≡ length buf.old }
    ensures told { (all : List ℕ) → KeepsPart at seen all buf.old →
        KeepsPart at result (all ++ list_field snapshot_field snaps.now.table.taken) buf.new }
{
    let mut told = seen;
    for index in 0..snaps.len() {
        let next = put_snapshot(buf, at, told, snaps, index);
        told = next;
    }
    told
}

/// Tells the snapshots in the order of directory and name, after four bytes with their number.
pub fn put_snapshots(buf: &mut [u8], at: u64, seen: u64, snaps: &Snaps) -> u64
    ensures length { length buf.new ≡ length buf.old }
    ensures told { (all : List ℕ) → KeepsPart at seen all buf.old →
        KeepsPart at result (all ++ many_field snapshot_field snaps.now.table.taken) buf.new }
{
    let counted = put_four(buf, at, seen, snaps.len());
    put_each_snapshot(buf, at, counted, snaps)
}
