//! A list of numbers, stored in pieces of bounded length.
ghost use Rattle.std.specs.Prelude.{ℕ, true, false, ◌≡◌, ◌<◌, ◌≤◌, ◌+◌, ◌++◌, ◌∷◌, [], length, take, drop, slice_index_or, OnOk, OnErr, IfOk, IsOk, vec_capacity, vec_len};
ghost use Rattle.std.specs.List.{insert, remove};
ghost use Rattle.inode_tree.specs.Listed.{AreEmpty, FitsAt, HoldsPlace, flat, parted, raised, starts_of};

mod runs;

use hk_base::NoMemory;
use std::alloc::Global;
use std::marker::Model;

/// Up to 1,024 numbers, in memory that is allocated when the piece is made.
#[derive(Drop)]
pub struct Piece {
    numbers: Vec<u32>,
}

impl Model for Piece {
    ghost use Rattle.std.specs.Prelude.{List, ℕ, ◌≤◌, length};
    ghost use Rattle.std.specs.Vec.{vec_len, vec_capacity};

    ghost Value = { List ℕ };

    ghost view = { λ s. s.numbers.items };

    ghost invariant = { λ s. (1024 ≤ vec_capacity s.numbers) × (length s.numbers.items ≤ 1024) };
}

impl Piece {
    fn new(alloc: Global) -> Result<Piece, NoMemory>
        ensures { IfOk result (λ p. p ≡ []) }
    {
        let numbers = Vec::with_capacity(alloc, 1024)?;
        Ok(Piece { numbers })
    }

    fn len(&self) -> usize
        ensures len { result ≡ length self.now }
        ensures most { result ≤ 1024 }
    {
        self.numbers.len()
    }

    fn get(&self, i: usize) -> u32
        requires { i < length self.now }
        ensures { result ≡ slice_index_or self.now i 0 }
    {
        self.numbers[i]
    }

    fn insert(&mut self, i: usize, n: u32)
        requires at { i ≤ length self.old }
        requires room { length self.old < 1024 }
        ensures { self.new ≡ insert self.old i n }
    {
        let _ = self.numbers.insert(i, n);
    }

    fn remove(&mut self, i: usize)
        requires { i < length self.old }
        ensures { self.new ≡ remove self.old i }
    {
        let _ = self.numbers.remove(i);
    }

    /// Appends the numbers of another piece. The piece must have room for them.
    fn append(&mut self, other: &Piece)
        requires { length self.old + length other.now ≤ 1024 }
        ensures { self.new ≡ self.old ++ other.now }
    {
        let _ = self.numbers.extend_from_slice(other.numbers.as_slice());
    }

    /// Moves the numbers from index `i` on into an empty piece.
    fn split(&mut self, i: usize, other: &mut Piece)
        requires at { i ≤ length self.old }
        requires empty { other.old ≡ [] }
        ensures left { self.new ≡ take i self.old }
        ensures right { other.new ≡ drop i self.old }
    {
        copy(&self.numbers.as_slice()[i..], &mut other.numbers);
        self.numbers.truncate(i);
    }
}

fn copy(from: &[u32], into: &mut Vec<u32>)
    requires empty { into.old.items ≡ [] }
    requires room { length from.now ≤ vec_capacity into.old }
    ensures items { into.new.items ≡ from.now }
    ensures room { vec_capacity into.new ≡ vec_capacity into.old }
{
    for n in from {
        into.push_reserved(*n);
    }
}

/// The nodes of all rows, by number, in path order. It is kept in pieces, so that a row is put in or
/// taken out without moving all that come after it.
#[derive(Drop)]
pub struct RowOrder {
    alloc: Global,
    pieces: Vec<Piece>,
    starts: Vec<u32>,
    /// Empty pieces: one insertion takes up to one, one swap of runs up to three.
    extra: Vec<Piece>,
}

impl Model for RowOrder {
    ghost use Rattle.std.specs.Prelude.{◌≡◌, ◌+◌, ◌&&◌, nat_le, length, if◌then◌else◌};
    ghost use Rattle.std.specs.Vec.{vec_len, vec_capacity};
    ghost use Rattle.inode_tree.specs.Listed.{AreEmpty, Listed, flat, starts_of};

    ghost Value = { Listed };

    ghost view = { λ s.
        record {
          items = flat s.pieces.items;
          spare = if nat_le (vec_len s.pieces + 3) (vec_capacity s.pieces) &&
              nat_le (vec_len s.starts + 3) (vec_capacity s.starts) && nat_le 3 (length s.extra.items)
              then 1 else 0;
        } };

    ghost invariant = { λ s. (s.starts.items ≡ starts_of 0 s.pieces.items) ×
        AreEmpty s.extra.items };
}

/// Returns the index of the last piece that begins at or before the `i`-th number.
fn locate(starts: &Vec<u32>, i: usize) -> usize
    requires some { 0 < length starts.now.items }
    requires first { slice_index_or starts.now.items 0 0 ≡ 0 }
    ensures within { result < length starts.now.items }
    ensures from { slice_index_or starts.now.items result 0 ≤ i }
    ensures to { result + 1 < length starts.now.items →
        i < slice_index_or starts.now.items (result + 1) 0 }
{
    let mut low = 0usize;
    let mut high = starts.len();
    'halve: while high - low > 1 {
        let middle = low + (high - low) / 2;
        if starts[middle] as usize <= i {
            low = middle;
        } else {
            high = middle;
        }
    }
    low
}

fn count(pieces: &Vec<Piece>, starts: &Vec<u32>) -> usize
    requires starts { starts.now.items ≡ starts_of 0 pieces.now.items }
    ensures { result ≡ length (flat pieces.now.items) }
{
    let len = pieces.len();
    if len == 0 {
        return 0;
    }
    starts[len - 1] as usize + pieces[len - 1].len()
}

fn at(pieces: &Vec<Piece>, starts: &Vec<u32>, i: usize) -> u32
    requires starts { starts.now.items ≡ starts_of 0 pieces.now.items }
    requires within { i < length (flat pieces.now.items) }
    ensures { result ≡ slice_index_or (flat pieces.now.items) i 0 }
{
    let c = locate(starts, i);
    pieces[c].get(i - starts[c] as usize)
}

/// Returns the `i`-th number, from the `c`-th piece if it is there.
fn near(pieces: &Vec<Piece>, starts: &Vec<u32>, c: usize, i: usize) -> u32
    requires starts { starts.now.items ≡ starts_of 0 pieces.now.items }
    requires within { i < length (flat pieces.now.items) }
    ensures { result ≡ slice_index_or (flat pieces.now.items) i 0 }
{
    if c < pieces.len() {
        let start = starts[c] as usize;
        if start <= i {
            if i - start < pieces[c].len() {
                return pieces[c].get(i - start);
            }
        }
    }
    at(pieces, starts, i)
}

/// Rewrites the starts of the pieces after the `c`-th one.
fn renumber(pieces: &Vec<Piece>, starts: &mut Vec<u32>, c: usize)
    requires c { c < length pieces.now.items }
    requires starts { take (c + 1) starts.old.items ≡ take (c + 1) (starts_of 0 pieces.now.items) }
    requires length { length starts.old.items ≡ length pieces.now.items }
    requires count { length (flat pieces.now.items) ≤ 1000000 }
    ensures starts { starts.new.items ≡ starts_of 0 pieces.now.items }
    ensures room { vec_capacity starts.new ≡ vec_capacity starts.old }
{
    let mut j = c;
    let mut from = starts[c] as usize;
    'write: while j + 1 < pieces.len() {
        from += pieces[j].len();
        j += 1;
        starts[j] = from as u32;
    }
}

/// Adds one to the starts after the `c`-th one.
fn raise(starts: &mut [u32], c: usize)
    requires c { c < length starts.old }
    requires few { (k : ℕ) → k < length starts.old → slice_index_or starts.old k 0 ≤ 1000000 }
    ensures { starts.new ≡ raised c starts.old }
{
    let mut j = c + 1;
    'raise: while j < starts.len() {
        starts[j] += 1;
        j += 1;
    }
}

/// Inserts `n` at index `i`, into the `c`-th piece, which must have room.
fn put_in(pieces: &mut Vec<Piece>, starts: &mut Vec<u32>, c: usize, i: usize, n: u32)
    requires starts { starts.old.items ≡ starts_of 0 pieces.old.items }
    requires fits { FitsAt starts.old.items pieces.old.items c i }
    requires count { length (flat pieces.old.items) < 1000000 }
    ensures starts { starts.new.items ≡ starts_of 0 pieces.new.items }
    ensures flat { flat pieces.new.items ≡ insert (flat pieces.old.items) i n }
{
    let k = i - starts[c] as usize;
    pieces[c].insert(k, n);
    raise(starts.as_mut_slice(), c);
}

fn slip_piece(pieces: &mut Vec<Piece>, i: usize, piece: Piece)
    requires at { i ≤ length pieces.old.items }
    requires room { vec_len pieces.old < vec_capacity pieces.old }
    ensures items { pieces.new.items ≡ insert pieces.old.items i piece }
    ensures room { vec_capacity pieces.new ≡ vec_capacity pieces.old }
{
    let _ = pieces.insert(i, piece);
}

fn slip_start(starts: &mut Vec<u32>, i: usize, start: u32)
    requires at { i ≤ length starts.old.items }
    requires room { vec_len starts.old < vec_capacity starts.old }
    ensures items { starts.new.items ≡ insert starts.old.items i start }
    ensures room { vec_capacity starts.new ≡ vec_capacity starts.old }
{
    let _ = starts.insert(i, start);
}

/// Splits the `c`-th piece in two after its first `k` numbers.
fn part(pieces: &mut Vec<Piece>, starts: &mut Vec<u32>, c: usize, k: usize, empty: Piece)
    requires starts { starts.old.items ≡ starts_of 0 pieces.old.items }
    requires c { c < length pieces.old.items }
    requires k { k ≤ length (slice_index_or pieces.old.items c []) }
    requires empty { empty ≡ [] }
    requires count { length (flat pieces.old.items) ≤ 1000000 }
    requires room { (vec_len pieces.old < vec_capacity pieces.old) ×
        (vec_len starts.old < vec_capacity starts.old) }
    ensures starts { starts.new.items ≡ starts_of 0 pieces.new.items }
    ensures parted { pieces.new.items ≡ parted pieces.old.items c k }
    ensures room { (vec_len pieces.new ≤ vec_len pieces.old + 1) ×
        (vec_capacity pieces.new ≡ vec_capacity pieces.old) ×
        (vec_len starts.new ≤ vec_len starts.old + 1) ×
        (vec_capacity starts.new ≡ vec_capacity starts.old) }
{
    let mut other = empty;
    pieces[c].split(k, &mut other);
    slip_piece(pieces, c + 1, other);
    slip_start(starts, c + 1, 0);
    renumber(pieces, starts, c);
}

impl RowOrder {
    pub fn new(alloc: Global) -> RowOrder
        ensures { result.items ≡ [] }
    {
        RowOrder {
            alloc,
            pieces: Vec::new(alloc),
            starts: Vec::new(alloc),
            extra: Vec::new(alloc),
        }
    }

    pub fn len(&self) -> usize
        ensures { result ≡ length self.now.items }
    {
        count(&self.pieces, &self.starts)
    }

    pub fn get(&self, i: usize) -> u32
        requires { i < length self.now.items }
        ensures { result ≡ slice_index_or self.now.items i 0 }
    {
        at(&self.pieces, &self.starts, i)
    }

    /// Returns the `i`-th number. It is found at once if it lies in the `c`-th piece.
    pub fn get_near(&self, c: usize, i: usize) -> u32
        requires { i < length self.now.items }
        ensures { result ≡ slice_index_or self.now.items i 0 }
    {
        near(&self.pieces, &self.starts, c, i)
    }

    /// Returns the next piece after the `c`-th one if it begins at or before the `i`-th number, else `c`.
    pub fn piece_near(&self, c: usize, i: usize) -> usize {
        if c < self.starts.len() {
            if c + 1 < self.starts.len() {
                if self.starts[c + 1] as usize <= i {
                    return c + 1;
                }
            }
        }
        c
    }

    /// Returns the number of pieces.
    pub fn pieces(&self) -> usize {
        self.pieces.len()
    }

    /// Returns the index of the first number of the `c`-th piece, or 0 if there is no such piece.
    pub fn start(&self, c: usize) -> usize {
        if c < self.starts.len() {
            return self.starts[c] as usize;
        }
        0
    }

    /// Reserves memory for one more number, or for one swap of runs. Returns `NoMemory` if allocation fails; the numbers are
    /// then unchanged.
    pub fn reserve(&mut self) -> Result<(), NoMemory>
        ensures same { self.new.items ≡ self.old.items }
        ensures ok { OnOk result (0 < self.new.spare) }
        ensures had { 0 < self.old.spare → IsOk result }
    {
        self.pieces.reserve(3)?;
        self.starts.reserve(3)?;
        more(self.alloc, &mut self.extra)?;
        Ok(())
    }

    pub fn insert(&mut self, i: usize, n: u32)
        requires within { i ≤ length self.old.items }
        requires room { 0 < self.old.spare }
        requires count { length self.old.items < 1000000 }
        ensures { self.new.items ≡ insert self.old.items i n }
    {
        put(&mut self.pieces, &mut self.starts, &mut self.extra, i, n);
    }

    /// Removes the number at index `i`. It does not allocate.
    pub fn remove(&mut self, i: usize)
        requires within { i < length self.old.items }
        requires count { length self.old.items ≤ 1000000 }
        ensures { self.new.items ≡ remove self.old.items i }
    {
        take_out(&mut self.pieces, &mut self.starts, i);
    }
}

/// Makes empty pieces until there are three.
fn more(alloc: Global, extra: &mut Vec<Piece>) -> Result<(), NoMemory>
    requires { AreEmpty extra.old.items }
    ensures empty { AreEmpty extra.new.items }
    ensures ok { OnOk result (3 ≤ length extra.new.items) }
    ensures had { 3 ≤ length extra.old.items → IsOk result }
{
    'more: while extra.len() < 3 {
        let piece = Piece::new(alloc)?;
        extra.push(piece)?;
    }
    Ok(())
}

/// Takes one of the empty pieces.
fn take_empty(extra: &mut Vec<Piece>) -> Piece
    requires empty { AreEmpty extra.old.items }
    requires some { 0 < length extra.old.items }
    ensures piece { result ≡ [] }
    ensures empty { AreEmpty extra.new.items }
    ensures fewer { length extra.new.items + 1 ≡ length extra.old.items }
{
    match extra.pop() {
        Some(piece) => piece,
        None => unreachable!(),
    }
}

/// Inserts `n` at index `i`, in reserved memory.
fn put(pieces: &mut Vec<Piece>, starts: &mut Vec<u32>, extra: &mut Vec<Piece>, i: usize, n: u32)
    requires starts { starts.old.items ≡ starts_of 0 pieces.old.items }
    requires empty { AreEmpty extra.old.items }
    requires within { i ≤ length (flat pieces.old.items) }
    requires room { (vec_len pieces.old < vec_capacity pieces.old) ×
        (vec_len starts.old < vec_capacity starts.old) × (0 < length extra.old.items) }
    requires count { length (flat pieces.old.items) < 1000000 }
    ensures starts { starts.new.items ≡ starts_of 0 pieces.new.items }
    ensures empty { AreEmpty extra.new.items }
    ensures flat { flat pieces.new.items ≡ insert (flat pieces.old.items) i n }
{
    if begins_piece(pieces, starts, i) {
        append(pieces, starts, extra, n);
        return;
    }
    let c = locate(starts, i);
    if pieces[c].len() < 1024 {
        put_in(pieces, starts, c, i, n);
        return;
    }
    part(pieces, starts, c, 512, take_empty(extra));
    if i <= starts[c + 1] as usize {
        put_in(pieces, starts, c, i, n);
    } else {
        put_in(pieces, starts, c + 1, i, n);
    }
}

/// Returns whether a number at index `i` comes after all others and begins a piece: if the last piece is
/// full. So pieces that are filled in order are full.
fn begins_piece(pieces: &Vec<Piece>, starts: &Vec<u32>, i: usize) -> bool
    requires starts { starts.now.items ≡ starts_of 0 pieces.now.items }
    requires within { i ≤ length (flat pieces.now.items) }
    ensures end { result ≡ true → i ≡ length (flat pieces.now.items) }
    ensures some { result ≡ false → 0 < length pieces.now.items }
{
    let len = pieces.len();
    if len == 0 {
        return true;
    }
    if pieces[len - 1].len() < 1024 {
        return false;
    }
    i == count(pieces, starts)
}

/// Appends a number in a piece of its own, in reserved memory.
fn append(pieces: &mut Vec<Piece>, starts: &mut Vec<u32>, extra: &mut Vec<Piece>, n: u32)
    requires starts { starts.old.items ≡ starts_of 0 pieces.old.items }
    requires empty { AreEmpty extra.old.items }
    requires count { length (flat pieces.old.items) < 1000000 }
    requires room { (vec_len pieces.old < vec_capacity pieces.old) ×
        (vec_len starts.old < vec_capacity starts.old) × (0 < length extra.old.items) }
    ensures starts { starts.new.items ≡ starts_of 0 pieces.new.items }
    ensures flat { flat pieces.new.items ≡ flat pieces.old.items ++ n ∷ [] }
    ensures empty { AreEmpty extra.new.items }
{
    let start = count(pieces, starts);
    let mut piece = take_empty(extra);
    piece.insert(0, n);
    pieces.push_reserved(piece);
    starts.push_reserved(start as u32);
}

/// Removes the number at index `i` from the `c`-th piece, which holds it.
fn take_from(pieces: &mut Vec<Piece>, starts: &mut Vec<u32>, c: usize, i: usize)
    requires starts { starts.old.items ≡ starts_of 0 pieces.old.items }
    requires holds { HoldsPlace starts.old.items pieces.old.items c i }
    requires count { length (flat pieces.old.items) ≤ 1000000 }
    ensures starts { starts.new.items ≡ starts_of 0 pieces.new.items }
    ensures length { length pieces.new.items ≡ length pieces.old.items }
    ensures flat { flat pieces.new.items ≡ remove (flat pieces.old.items) i }
{
    let k = i - starts[c] as usize;
    pieces[c].remove(k);
    renumber(pieces, starts, c);
}

/// Drops the `c`-th piece, which must be empty.
fn drop_piece(pieces: &mut Vec<Piece>, starts: &mut Vec<u32>, c: usize)
    requires starts { starts.old.items ≡ starts_of 0 pieces.old.items }
    requires c { c < length pieces.old.items }
    requires empty { slice_index_or pieces.old.items c [] ≡ [] }
    ensures starts { starts.new.items ≡ starts_of 0 pieces.new.items }
    ensures flat { flat pieces.new.items ≡ flat pieces.old.items }
{
    let _ = pieces.remove(c);
    let _ = starts.remove(c);
}

/// Removes the number at index `i`, and its piece if that was its last number.
fn take_out(pieces: &mut Vec<Piece>, starts: &mut Vec<u32>, i: usize)
    requires starts { starts.old.items ≡ starts_of 0 pieces.old.items }
    requires within { i < length (flat pieces.old.items) }
    requires count { length (flat pieces.old.items) ≤ 1000000 }
    ensures starts { starts.new.items ≡ starts_of 0 pieces.new.items }
    ensures flat { flat pieces.new.items ≡ remove (flat pieces.old.items) i }
{
    let c = locate(starts, i);
    take_from(pieces, starts, c, i);
    if pieces[c].len() == 0 {
        drop_piece(pieces, starts, c);
    }
}
