//! Paths of nodes, by climbing from a node to the root.
ghost use Rattle.std.specs.Prelude.{◌≡◌, ◌<◌, ◌≤◌, ◌-◌, ◌||◌, length, take};
ghost use Rattle.inode_tree.specs.Arena.{IsLinked, path_of, cmp_front, name_cmp, rows_of, IsRising, AllWithin, HoldsRank, IsNear, rank, rank_past};
ghost use Rattle.name_calls.specs.Paths.{is_before, is_prefix, path_cmp};
ghost use Rattle.std.specs.Cmp.Lexicographic.{slice_cmp};
ghost use Rattle.std.specs.Ordering.{nat_cmp};

use crate::names::NodeName;
use crate::near::Near;
use crate::nodes::Nodes;
use crate::order::RowOrder;
use crate::rows::Link;
use hk_base::Text;
use name_calls::NPath;
use std::cmp::Ordering;

/// Returns the number of names in the node's path.
pub fn depth(nodes: &Nodes, n: u32) -> usize
    requires linked { IsLinked nodes.now.items }
    requires live { n < length nodes.now.items }
    ensures { result ≡ length (path_of nodes.now.items n) }
{
    let mut m = n;
    let mut d = 0usize;
    'climb: while m != 0 {
        m = nodes.link(m).parent;
        d += 1;
    }
    d
}

/// How a node's path compares with a path as far as both go, and the number of names in the node's
/// path.
#[derive(Clone, Copy)]
struct Met {
    found: Ordering,
    depth: usize,
}

/// Compares the node's path with the first `upto` names of a path, as far as both go: the names
/// from the root or a near node on, up to the first that differs.
fn meet(nodes: &Nodes, n: u32, path: &NPath, upto: usize, near: Near) -> Met
    requires linked { IsLinked nodes.now.items }
    requires live { n < length nodes.now.items }
    requires upto { upto ≤ length path.now }
    requires near { IsNear nodes.now.items path.now near }
    ensures found { result.found ≡ cmp_front (path_of nodes.now.items n) (take upto path.now) }
    ensures depth { result.depth ≡ length (path_of nodes.now.items n) }
{
    if n == 0 {
        return Met {
            found: Ordering::Equal,
            depth: 0,
        };
    }
    if n == near.node {
        return Met {
            found: Ordering::Equal,
            depth: near.depth,
        };
    }
    if n == near.above {
        return Met {
            found: Ordering::Equal,
            depth: near.depth.saturating_sub(1),
        };
    }
    let link = nodes.link(n);
    let above = meet(nodes, link.parent, path, upto, near);
    let depth = above.depth + 1;
    match above.found {
        Ordering::Less => Met {
            found: Ordering::Less,
            depth,
        },
        Ordering::Equal => Met {
            found: compare_at(link, above.depth, path, upto),
            depth,
        },
        Ordering::Greater => Met {
            found: Ordering::Greater,
            depth,
        },
    }
}

fn compare_names(name: &NodeName, other: &Text) -> Ordering
    ensures { result ≡ slice_cmp nat_cmp name.now other.now }
{
    name.as_bytes().cmp(other.as_str().as_bytes())
}

/// Compares a node's name with the `k`-th of the first `upto` names of a path. They are equal if
/// there is no `k`-th name.
fn compare_at(link: &Link, k: usize, path: &NPath, upto: usize) -> Ordering
    requires { upto ≤ length path.now }
    ensures { result ≡ name_cmp link.now.name (take upto path.now) k }
{
    if k < upto {
        compare_names(&link.name, path.name(k))
    } else {
        Ordering::Equal
    }
}

pub fn compare(nodes: &Nodes, n: u32, path: &NPath, upto: usize, near: Near) -> Ordering
    requires linked { IsLinked nodes.now.items }
    requires live { n < length nodes.now.items }
    requires upto { upto ≤ length path.now }
    requires near { IsNear nodes.now.items path.now near }
    ensures { result ≡ path_cmp (path_of nodes.now.items n) (take upto path.now) }
{
    let met = meet(nodes, n, path, upto, near);
    match met.found {
        Ordering::Less => Ordering::Less,
        Ordering::Equal => met.depth.cmp(&upto),
        Ordering::Greater => Ordering::Greater,
    }
}

/// The places from `low` up to `high`.
#[derive(Clone, Copy)]
struct Span {
    low: usize,
    high: usize,
}

/// Narrows a span that holds the rank of a path, by a look at the row at `at` if that lies in the
/// span. The row is found at once if it lies in the piece `c` of the order.
fn narrow(
    nodes: &Nodes,
    order: &RowOrder,
    path: &NPath,
    upto: usize,
    near: Near,
    span: Span,
    c: usize,
    at: usize,
) -> Span
    requires linked { IsLinked nodes.now.items }
    requires within { AllWithin (length nodes.now.items) order.now.items }
    requires upto { upto ≤ length path.now }
    requires near { IsNear nodes.now.items path.now near }
    requires rising { IsRising (rows_of nodes.now.items order.now.items) }
    requires around { HoldsRank nodes.now.items order.now.items (take upto path.now) span.low
        span.high }
    ensures around { HoldsRank nodes.now.items order.now.items (take upto path.now) result.low
        result.high }
    ensures smaller { span.low ≤ at → at < span.high →
        result.high - result.low < span.high - span.low }
{
    if at < span.low {
        return span;
    }
    if span.high <= at {
        return span;
    }
    match compare(nodes, order.get_near(c, at), path, upto, near) {
        Ordering::Less => Span {
            low: at + 1,
            high: span.high,
        },
        Ordering::Equal => Span {
            low: span.low,
            high: at,
        },
        Ordering::Greater => Span {
            low: span.low,
            high: at,
        },
    }
}

/// Returns the number of pieces to search for a place in a span: none if only one place is left.
fn pieces_for(order: &RowOrder, span: Span) -> usize {
    if span.low < span.high {
        return order.pieces();
    }
    0
}

/// Returns how many rows come before the path formed by the first `upto` names of `path`. Tries the places
/// after `last` first.
pub fn place_from(
    nodes: &Nodes,
    order: &RowOrder,
    last: usize,
    path: &NPath,
    upto: usize,
    near: Near,
) -> usize
    requires linked { IsLinked nodes.now.items }
    requires within { AllWithin (length nodes.now.items) order.now.items }
    requires upto { upto ≤ length path.now }
    requires near { IsNear nodes.now.items path.now near }
    requires rising { IsRising (rows_of nodes.now.items order.now.items) }
    ensures { result ≡ rank (rows_of nodes.now.items order.now.items) (take upto path.now) }
{
    let all = Span {
        low: 0,
        high: order.len(),
    };
    let after = narrow(nodes, order, path, upto, near, all, order.pieces(), last);
    let mut span = narrow(
        nodes,
        order,
        path,
        upto,
        near,
        after,
        order.pieces(),
        after.low,
    );
    let mut c = 0usize;
    let mut end = pieces_for(order, span);
    'pieces: while end - c > 1 {
        let middle = c + (end - c) / 2;
        let start = order.start(middle);
        let next = narrow(nodes, order, path, upto, near, span, middle, start);
        span = next;
        if start < next.low {
            c = middle;
        } else {
            end = middle;
        }
    }
    'halve: while span.low < span.high {
        let middle = span.low + (span.high - span.low) / 2;
        let next = narrow(nodes, order, path, upto, near, span, c, middle);
        span = next;
    }
    span.low
}

/// Returns whether the node's path comes before the path, is the path or lies below it.
fn before_or_below(nodes: &Nodes, n: u32, path: &NPath) -> bool
    requires linked { IsLinked nodes.now.items }
    requires live { n < length nodes.now.items }
    ensures { result ≡
        (is_before (path_of nodes.now.items n) path.now ||
        is_prefix path.now (path_of nodes.now.items n)) }
{
    let met = meet(nodes, n, path, path.len(), Near::root());
    match met.found {
        Ordering::Less => true,
        Ordering::Equal => true,
        Ordering::Greater => false,
    }
}

/// Returns a place to look at in a search from `low` up to `high`: in the middle, but at most `width` places
/// on.
fn place_between(low: usize, high: usize, width: usize) -> usize
    requires { low < high }
    ensures from { low ≤ result }
    ensures to { result < high }
{
    let half = (high - low) / 2;
    if width < half {
        return low + width;
    }
    low + half
}

/// Returns how many rows come before the path, are at the path or lie below it. The search takes long steps
/// only if there are many more of them than `from`.
pub fn past(nodes: &Nodes, order: &RowOrder, path: &NPath, from: usize) -> usize
    requires linked { IsLinked nodes.now.items }
    requires within { AllWithin (length nodes.now.items) order.now.items }
    requires rising { IsRising (rows_of nodes.now.items order.now.items) }
    requires from { from ≤ rank_past (rows_of nodes.now.items order.now.items) path.now }
    ensures { result ≡ rank_past (rows_of nodes.now.items order.now.items) path.now }
{
    let mut low = from;
    let mut high = order.len();
    let mut width = 0usize;
    'halve: while low < high {
        let middle = place_between(low, high, width);
        if before_or_below(nodes, order.get(middle), path) {
            width = (middle - low).saturating_mul(2).saturating_add(1);
            low = middle + 1;
        } else {
            high = middle;
        }
    }
    low
}

/// Returns whether the node's path is the path or lies below it.
pub fn below(nodes: &Nodes, n: u32, path: &NPath) -> bool
    requires linked { IsLinked nodes.now.items }
    requires live { n < length nodes.now.items }
    ensures { result ≡ is_prefix path.now (path_of nodes.now.items n) }
{
    let met = meet(nodes, n, path, path.len(), Near::root());
    match met.found {
        Ordering::Less => false,
        Ordering::Equal => path.len() <= met.depth,
        Ordering::Greater => false,
    }
}

/// Returns whether the node's path is the path or lies above it.
pub fn above(nodes: &Nodes, n: u32, path: &NPath) -> bool
    requires linked { IsLinked nodes.now.items }
    requires live { n < length nodes.now.items }
    ensures { result ≡ is_prefix (path_of nodes.now.items n) path.now }
{
    let met = meet(nodes, n, path, path.len(), Near::root());
    match met.found {
        Ordering::Less => false,
        Ordering::Equal => met.depth <= path.len(),
        Ordering::Greater => false,
    }
}
