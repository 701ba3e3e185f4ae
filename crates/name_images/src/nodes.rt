//! The rows of a snapshot, told node by node. They take no memory.
ghost use Rattle.std.specs.Prelude.{List, ℕ, true, ◌≡◌, ◌+◌, ◌^◌, ◌%◌, ◌<◌, ◌≤◌, ◌++◌, length, take};
ghost use Rattle.std.specs.List.{All, AllByRecursion};
ghost use Rattle.name_calls.specs.Paths.{is_relative, names_text, path_text};
ghost use Rattle.edit_ops.specs.Records.{list_field, path_field};
ghost use Rattle.frozen_nodes.specs.Forest.{node_at, rows_from};
ghost use Rattle.name_images.specs.Fields.{row_field, rows_field};
ghost use Rattle.name_images.specs.Walks.{names_in, rows_led};
ghost use Rattle.image_parts.specs.Parts.{KeepsPart};

use crate::fields::put_kind;
use frozen_nodes::Forest;
use image_parts::put;

/// Returns the length of the text of a path in bytes, at most 8,000. Its names are those of the nodes.
fn text_len(forest: &Forest, path: &[u32]) -> usize
    requires { is_relative (names_in forest.now.nodes path.now) ≡ true }
    ensures len { result ≡ length (path_text (names_in forest.now.nodes path.now)) }
    ensures short { result ≤ 8000 }
{
    if path.is_empty() {
        return 1;
    }
    let mut len = 0;
    for n in path {
        len += 1 + forest.name(*n).len();
    }
    len
}

/// Tells the names of nodes, each after a slash.
fn put_names(buf: &mut [u8], at: u64, seen: u64, forest: &Forest, path: &[u32]) -> u64
    ensures length { length buf.new ≡ length buf.old }
    ensures told { (all : List ℕ) → KeepsPart at seen all buf.old →
        KeepsPart at result (all ++ names_text (names_in forest.now.nodes path.now)) buf.new }
{
    let mut told = seen;
    for n in path {
        let slashed = put(buf, at, told, b"/");
        let next = put(buf, at, slashed, forest.name(*n));
        told = next;
    }
    told
}

/// Tells the text of the path that has the names of the nodes.
fn put_text(buf: &mut [u8], at: u64, seen: u64, forest: &Forest, path: &[u32]) -> u64
    ensures length { length buf.new ≡ length buf.old }
    ensures told { (all : List ℕ) → KeepsPart at seen all buf.old →
        KeepsPart at result (all ++ path_text (names_in forest.now.nodes path.now)) buf.new }
{
    if path.is_empty() {
        put(buf, at, seen, b"/")
    } else {
        put_names(buf, at, seen, forest, path)
    }
}

/// Tells the path that has the names of the nodes, after the length of its text.
fn put_path(buf: &mut [u8], at: u64, seen: u64, forest: &Forest, path: &[u32]) -> u64
    requires { is_relative (names_in forest.now.nodes path.now) ≡ true }
    ensures length { length buf.new ≡ length buf.old }
    ensures told { (all : List ℕ) → KeepsPart at seen all buf.old →
        KeepsPart at result (all ++ path_field (names_in forest.now.nodes path.now)) buf.new }
{
    let len = text_len(forest, path) as u16;
    let first = put(buf, at, seen, &len.to_be_bytes());
    put_text(buf, at, first, forest, path)
}

/// Tells the row of a node, whose path has the names of the nodes in `path`.
fn put_row(buf: &mut [u8], at: u64, seen: u64, forest: &Forest, n: u32, path: &[u32]) -> u64
    requires node { n < length forest.now.nodes }
    requires rule { is_relative (names_in forest.now.nodes path.now) ≡ true }
    ensures length { length buf.new ≡ length buf.old }
    ensures told { (all : List ℕ) → KeepsPart at seen all buf.old →
        KeepsPart at result
        (all ++
        row_field
        (record {
          path = names_in forest.now.nodes path.now;
          row = (node_at forest.now.nodes n).row;
        }))
        buf.new }
{
    let row = forest.row(n);
    let named = put_path(buf, at, seen, forest, path);
    let numbered = put(buf, at, named, &row.id.to_be_bytes());
    put_kind(buf, at, numbered, &row.kind)
}

/// Tells the rows at and below a node, to which the first `depth` nodes of `path` lead. The others
/// are overwritten.
fn put_below(
    buf: &mut [u8],
    at: u64,
    seen: u64,
    forest: &Forest,
    n: u32,
    path: &mut [u32],
    depth: usize,
) -> u64
    requires node { n < length forest.now.nodes }
    requires room { length path.old ≡ 100 }
    requires depth { depth ≤ 100 }
    requires ruled { AllByRecursion (λ e. is_relative e.path ≡ true)
        (rows_led forest.now.nodes (names_in forest.now.nodes (take depth path.old)) n) }
    ensures length { length buf.new ≡ length buf.old }
    ensures room { length path.new ≡ 100 }
    ensures path { take depth path.new ≡ take depth path.old }
    ensures told { (all : List ℕ) → KeepsPart at seen all buf.old →
        KeepsPart at result
        (all ++
        list_field row_field
        (rows_led forest.now.nodes (names_in forest.now.nodes (take depth path.old)) n))
        buf.new }
{
    forest.invariants();
    let mut told = put_row(buf, at, seen, forest, n, &path[..depth]);
    let kids = forest.kids(n);
    for kid in kids {
        path[depth] = *kid;
        let next = put_below(buf, at, told, forest, *kid, path, depth + 1);
        told = next;
    }
    told
}

/// Returns the number of rows at and below a node, modulo 2 to the power of 32.
fn count_rows(forest: &Forest, n: u32) -> u32
    requires { n < length forest.now.nodes }
    ensures { result ≡ length (rows_from forest.now.nodes n) % 2 ^ 32 }
{
    forest.invariants();
    let mut count = 1u32;
    let kids = forest.kids(n);
    for kid in kids {
        let more = count_rows(forest, *kid);
        count = count.wrapping_add(more);
    }
    count
}

/// Tells the rows at and below a node, after four bytes with their number. Their paths, which are
/// relative to the node, must keep the rule of paths.
pub fn put_frozen_rows(buf: &mut [u8], at: u64, seen: u64, forest: &Forest, root: u32) -> u64
    requires node { root < length forest.now.nodes }
    requires ruled { All (λ e. is_relative e.path ≡ true) (rows_from forest.now.nodes root) }
    ensures length { length buf.new ≡ length buf.old }
    ensures told { (all : List ℕ) → KeepsPart at seen all buf.old →
        KeepsPart at result (all ++ rows_field (rows_from forest.now.nodes root)) buf.new }
{
    let count = count_rows(forest, root);
    let counted = put(buf, at, seen, &count.to_be_bytes());
    let mut path = [0u32; 100];
    put_below(buf, at, counted, forest, root, &mut path, 0)
}
