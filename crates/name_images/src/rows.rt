//! The rows of a tree, told piece by piece. They take no memory.
ghost use Rattle.std.specs.Prelude.{List, ℕ, ◌≡◌, ◌<◌, ◌≤◌, ◌++◌, length, slice_index_or};
ghost use Rattle.name_calls.specs.Paths.{names_text, path_text};
ghost use Rattle.edit_ops.specs.Records.{list_field, path_field};
ghost use Rattle.frozen_nodes.specs.Copies.{no_entry, path_at};
ghost use Rattle.name_images.specs.Fields.{row_field, rows_field};
ghost use Rattle.image_parts.specs.Parts.{KeepsPart};

use crate::fields::put_kind;
use image_parts::put;
use inode_tree::{Row, Tree};

/// Returns the length of the text of a row's path in bytes, at most 8,000. The path has `depth` names.
fn text_len(tree: &Tree, place: u32, depth: usize) -> usize
    requires place { place < length tree.now.rows }
    requires depth { depth ≡ length (path_at tree.now.rows place) }
    ensures len { result ≡ length (path_text (path_at tree.now.rows place)) }
    ensures short { result ≤ 8000 }
{
    // Each path keeps the rule of lengths.
    let _ = tree.rows();
    if depth == 0 {
        return 1;
    }
    let mut len = 0;
    for k in 0..depth {
        len += 1 + tree.name_at_place(place, k).len();
    }
    len
}

/// Tells the names of a row's path, each after a slash.
fn put_names(buf: &mut [u8], at: u64, seen: u64, tree: &Tree, place: u32, depth: usize) -> u64
    requires place { place < length tree.now.rows }
    requires depth { depth ≡ length (path_at tree.now.rows place) }
    ensures length { length buf.new ≡ length buf.old }
    ensures told { (all : List ℕ) → KeepsPart at seen all buf.old →
        KeepsPart at result (all ++ names_text (path_at tree.now.rows place)) buf.new }
{
    let mut told = seen;
    for k in 0..depth {
        let slashed = put(buf, at, told, b"/");
        let next = put(buf, at, slashed, tree.name_at_place(place, k));
        told = next;
    }
    told
}

/// Tells the text of a row's path.
fn put_text(buf: &mut [u8], at: u64, seen: u64, tree: &Tree, place: u32, depth: usize) -> u64
    requires place { place < length tree.now.rows }
    requires depth { depth ≡ length (path_at tree.now.rows place) }
    ensures length { length buf.new ≡ length buf.old }
    ensures told { (all : List ℕ) → KeepsPart at seen all buf.old →
        KeepsPart at result (all ++ path_text (path_at tree.now.rows place)) buf.new }
{
    if depth == 0 {
        put(buf, at, seen, b"/")
    } else {
        put_names(buf, at, seen, tree, place, depth)
    }
}

/// Tells a row's path after the length of its text.
fn put_path(buf: &mut [u8], at: u64, seen: u64, tree: &Tree, place: u32, depth: usize) -> u64
    requires place { place < length tree.now.rows }
    requires depth { depth ≡ length (path_at tree.now.rows place) }
    ensures length { length buf.new ≡ length buf.old }
    ensures told { (all : List ℕ) → KeepsPart at seen all buf.old →
        KeepsPart at result (all ++ path_field (path_at tree.now.rows place)) buf.new }
{
    let len = text_len(tree, place, depth) as u16;
    let first = put(buf, at, seen, &len.to_be_bytes());
    put_text(buf, at, first, tree, place, depth)
}

/// Tells the row at a place, whose path has `depth` names.
fn put_row(
    buf: &mut [u8],
    at: u64,
    seen: u64,
    tree: &Tree,
    place: u32,
    depth: usize,
    row: &Row,
) -> u64
    requires place { place < length tree.now.rows }
    requires depth { depth ≡ length (path_at tree.now.rows place) }
    requires row { row.now ≡ (slice_index_or tree.now.rows place no_entry).row }
    ensures length { length buf.new ≡ length buf.old }
    ensures told { (all : List ℕ) → KeepsPart at seen all buf.old →
        KeepsPart at result (all ++ row_field (slice_index_or tree.now.rows place no_entry))
        buf.new }
{
    let named = put_path(buf, at, seen, tree, place, depth);
    let numbered = put(buf, at, named, &row.id.to_be_bytes());
    put_kind(buf, at, numbered, &row.kind)
}

/// Tells the first `count` rows of a tree in path order.
fn put_first_rows(buf: &mut [u8], at: u64, seen: u64, tree: &Tree, count: u32) -> u64
    requires { count ≡ length tree.now.rows }
    ensures length { length buf.new ≡ length buf.old }
    ensures told { (all : List ℕ) → KeepsPart at seen all buf.old →
        KeepsPart at result (all ++ list_field row_field tree.now.rows) buf.new }
{
    let mut told = seen;
    let mut piece = 0;
    for place in 0..count {
        let row = tree.placed_row(place, piece);
        let next = put_row(buf, at, told, tree, place, row.depth, row.row);
        told = next;
        piece = row.piece;
    }
    told
}

/// Tells the rows of a tree in path order, after four bytes with their number. Each name of a row's
/// path is sought from the row's node up.
pub fn put_rows(buf: &mut [u8], at: u64, seen: u64, tree: &Tree) -> u64
    ensures length { length buf.new ≡ length buf.old }
    ensures told { (all : List ℕ) → KeepsPart at seen all buf.old →
        KeepsPart at result (all ++ rows_field tree.now.rows) buf.new }
{
    let count = tree.rows();
    let counted = put(buf, at, seen, &count.to_be_bytes());
    put_first_rows(buf, at, counted, tree, count)
}
