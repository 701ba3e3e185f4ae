//! The swap of two runs of numbers that lie next to each other.
ghost use Rattle.std.specs.Prelude.{ℕ, ◌≡◌, ◌<◌, ◌≤◌, ◌+◌, ◌++◌, [], length, vec_capacity, vec_len};
ghost use Rattle.inode_tree.specs.Listed.{AreEmpty, IsCutAt, flat, starts_of, turned};

use super::{Piece, RowOrder, locate, part, renumber, take_empty};

impl RowOrder {
    /// Swaps the numbers from index `a` up to `b` with those from `b` up to `c`, in reserved
    /// memory. Moves whole pieces, so the time depends on the number of pieces.
    pub fn swap_runs(&mut self, a: usize, b: usize, c: usize)
        requires runs { (a ≤ b) × (b ≤ c) × (c ≤ length self.old.items) }
        requires room { 0 < self.old.spare }
        requires count { length self.old.items ≤ 1000000 }
        ensures { self.new.items ≡ turned a b c self.old.items }
    {
        swap(&mut self.pieces, &mut self.starts, &mut self.extra, a, b, c);
    }
}

/// Makes a piece begin at index `i`, in reserved memory. Returns the index of that piece: the number
/// of pieces if `i` is the number of numbers.
fn cut(pieces: &mut Vec<Piece>, starts: &mut Vec<u32>, extra: &mut Vec<Piece>, i: usize) -> usize
    requires starts { starts.old.items ≡ starts_of 0 pieces.old.items }
    requires empty { AreEmpty extra.old.items }
    requires within { i ≤ length (flat pieces.old.items) }
    requires room { (vec_len pieces.old < vec_capacity pieces.old) ×
        (vec_len starts.old < vec_capacity starts.old) × (0 < length extra.old.items) }
    requires count { length (flat pieces.old.items) ≤ 1000000 }
    ensures starts { starts.new.items ≡ starts_of 0 pieces.new.items }
    ensures empty { AreEmpty extra.new.items }
    ensures flat { flat pieces.new.items ≡ flat pieces.old.items }
    ensures cut { IsCutAt pieces.new.items result i }
    ensures kept { (k j : ℕ) → IsCutAt pieces.old.items k j → j ≤ i → IsCutAt pieces.new.items k j }
    ensures room { (vec_len pieces.new ≤ vec_len pieces.old + 1) ×
        (vec_capacity pieces.new ≡ vec_capacity pieces.old) ×
        (vec_len starts.new ≤ vec_len starts.old + 1) ×
        (vec_capacity starts.new ≡ vec_capacity starts.old) ×
        (length extra.old.items ≤ length extra.new.items + 1) }
{
    if i == 0 {
        return 0;
    }
    let c = locate(starts, i);
    let k = i - starts[c] as usize;
    if k == 0 {
        return c;
    }
    if k == pieces[c].len() {
        return c + 1;
    }
    part(pieces, starts, c, k, take_empty(extra));
    c + 1
}

fn rotate(pieces: &mut [Piece], a: usize, b: usize, c: usize)
    requires { (a ≤ b) × (b ≤ c) × (c ≤ length pieces.old) }
    ensures { pieces.new ≡ turned a b c pieces.old }
{
    pieces[a..c].rotate_left(b - a);
}

/// Swaps the pieces from index `a` up to `b` with those from `b` up to `c`, and renumbers.
fn turn(pieces: &mut Vec<Piece>, starts: &mut Vec<u32>, a: usize, b: usize, c: usize)
    requires starts { starts.old.items ≡ starts_of 0 pieces.old.items }
    requires runs { (a ≤ b) × (b ≤ c) × (c ≤ length pieces.old.items) }
    requires count { length (flat pieces.old.items) ≤ 1000000 }
    ensures starts { starts.new.items ≡ starts_of 0 pieces.new.items }
    ensures pieces { pieces.new.items ≡ turned a b c pieces.old.items }
{
    if a == c {
        return;
    }
    rotate(pieces.as_mut_slice(), a, b, c);
    renumber(pieces, starts, a);
}

/// Joins the `c`-th piece with the next one, if they fit into one.
fn join(pieces: &mut Vec<Piece>, starts: &mut Vec<u32>, c: usize)
    requires { starts.old.items ≡ starts_of 0 pieces.old.items }
    ensures starts { starts.new.items ≡ starts_of 0 pieces.new.items }
    ensures flat { flat pieces.new.items ≡ flat pieces.old.items }
{
    if pieces.len().saturating_sub(c) < 2 {
        return;
    }
    if pieces[c].len() + pieces[c + 1].len() > 1024 {
        return;
    }
    let next = pieces.remove(c + 1);
    pieces[c].append(&next);
    let _ = starts.remove(c + 1);
}

/// Joins the pieces around the place where the `c`-th piece begins, as far as they fit into one.
fn mend(pieces: &mut Vec<Piece>, starts: &mut Vec<u32>, c: usize)
    requires { starts.old.items ≡ starts_of 0 pieces.old.items }
    ensures starts { starts.new.items ≡ starts_of 0 pieces.new.items }
    ensures flat { flat pieces.new.items ≡ flat pieces.old.items }
{
    join(pieces, starts, c);
    join(pieces, starts, c.saturating_sub(1));
    join(pieces, starts, c.saturating_sub(2));
}

/// Swaps the numbers from index `a` up to `b` with those from `b` up to `c`, in reserved memory.
fn swap(
    pieces: &mut Vec<Piece>,
    starts: &mut Vec<u32>,
    extra: &mut Vec<Piece>,
    a: usize,
    b: usize,
    c: usize,
)
    requires starts { starts.old.items ≡ starts_of 0 pieces.old.items }
    requires empty { AreEmpty extra.old.items }
    requires runs { (a ≤ b) × (b ≤ c) × (c ≤ length (flat pieces.old.items)) }
    requires room { (vec_len pieces.old + 3 ≤ vec_capacity pieces.old) ×
        (vec_len starts.old + 3 ≤ vec_capacity starts.old) × (3 ≤ length extra.old.items) }
    requires count { length (flat pieces.old.items) ≤ 1000000 }
    ensures starts { starts.new.items ≡ starts_of 0 pieces.new.items }
    ensures empty { AreEmpty extra.new.items }
    ensures flat { flat pieces.new.items ≡ turned a b c (flat pieces.old.items) }
{
    // with an empty run there is nothing to swap
    if a == b {
        return;
    }
    if b == c {
        return;
    }
    let first = cut(pieces, starts, extra, a);
    let middle = cut(pieces, starts, extra, b);
    let last = cut(pieces, starts, extra, c);
    turn(pieces, starts, first, middle, last);
    mend(pieces, starts, last);
    mend(pieces, starts, first + (last - middle));
    mend(pieces, starts, first);
}
