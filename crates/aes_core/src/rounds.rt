//! The rounds of the cipher, on a state of four columns.
ghost use Rattle.std.specs.Prelude.{◌≡◌, ◌+◌, ◌-◌, ◌*◌, ◌≤◌, ◌<◌, ℕ, List, [], ◌∷◌, length, map, slice_index};
ghost use Rattle.std.specs.List.{range_with_len};
ghost use Rattle.aes_core.specs.Field.{s_box};
ghost use Rattle.aes_core.specs.Aes.{add_round_key, encrypted, IsKeySize, mix_columns, shift_rows, state_after, sub_bytes, with_last, xor_word};
ghost use Rattle.aes_core.specs.Words.{byte_of, state_bytes, times_0, times_1, times_2, times_3, word_bytes};

use crate::round_tables::{
    full_column, last_0, last_1, last_2, last_3, product_0, product_1, product_2, product_3,
};
use crate::words::{block_of, byte_0, byte_1, byte_2, byte_3, word_of};

type Columns = [u32; 4];

/// Expands to a round. By ShiftRows a column takes its byte in row r from the column r places to its
/// right. Each column takes its word of the round key.
macro_rules! round {
    ($column:ident, $words:expr, $round:expr, $columns:expr) => {{
        let [a, b, c, d] = $columns;
        let first = 4 * $round;
        [
            $column(a, b, c, d, &$words[first]),
            $column(b, c, d, a, &$words[first + 1]),
            $column(c, d, a, b, &$words[first + 2]),
            $column(d, a, b, c, &$words[first + 3]),
        ]
    }};
}

/// Returns a column of the state after the last round, which has no MixColumns.
#[inline(always)]
fn last_column(a: u32, b: u32, c: u32, d: u32, key: &[u8; 4]) -> u32
    ensures { word_bytes result ≡
        xor_word
        (s_box (byte_of a 0) ∷ s_box (byte_of b 1) ∷ s_box (byte_of c 2) ∷ s_box (byte_of d 3) ∷ [])
        key.now }
{
    last_0(byte_0(a)) ^ last_1(byte_1(b)) ^ last_2(byte_2(c)) ^ last_3(byte_3(d)) ^ word_of(key)
}

#[inline(always)]
fn first_columns(words: &[[u8; 4]], block: &[u8; 16]) -> Columns
    requires { 4 ≤ length words.now }
    ensures { state_bytes result ≡ add_round_key words.now 0 block.now }
{
    let b = *block;
    [
        word_of(&[b[0], b[1], b[2], b[3]]) ^ word_of(&words[0]),
        word_of(&[b[4], b[5], b[6], b[7]]) ^ word_of(&words[1]),
        word_of(&[b[8], b[9], b[10], b[11]]) ^ word_of(&words[2]),
        word_of(&[b[12], b[13], b[14], b[15]]) ^ word_of(&words[3]),
    ]
}

#[inline(always)]
fn full_round(words: &[[u8; 4]], round: usize, columns: Columns) -> Columns
    requires { 4 * round + 4 ≤ length words.now }
    ensures { state_bytes result ≡
        add_round_key words.now round (mix_columns (shift_rows (sub_bytes (state_bytes columns)))) }
{
    round!(full_column, words, round, columns)
}

#[inline(always)]
fn last_round(words: &[[u8; 4]], round: usize, columns: Columns) -> Columns
    requires { 4 * round + 4 ≤ length words.now }
    ensures { state_bytes result ≡
        add_round_key words.now round (shift_rows (sub_bytes (state_bytes columns))) }
{
    round!(last_column, words, round, columns)
}

/// Adds to the columns after a full round what the bytes of column 0 before the round add to them.
/// To add it twice is to take it away.
#[inline(always)]
fn plus_column_0(columns: Columns, a: u32) -> Columns
    ensures column_0 { word_bytes (slice_index result 0) ≡
        xor_word (word_bytes (slice_index columns 0)) (times_0 (s_box (byte_of a 0))) }
    ensures column_1 { word_bytes (slice_index result 1) ≡
        xor_word (word_bytes (slice_index columns 1)) (times_3 (s_box (byte_of a 3))) }
    ensures column_2 { word_bytes (slice_index result 2) ≡
        xor_word (word_bytes (slice_index columns 2)) (times_2 (s_box (byte_of a 2))) }
    ensures column_3 { word_bytes (slice_index result 3) ≡
        xor_word (word_bytes (slice_index columns 3)) (times_1 (s_box (byte_of a 1))) }
{
    let [p, q, r, s] = columns;
    [
        p ^ product_0(byte_0(a)),
        q ^ product_3(byte_3(a)),
        r ^ product_2(byte_2(a)),
        s ^ product_1(byte_1(a)),
    ]
}

/// Does the rounds from `from` on and returns the block.
#[inline(always)]
fn finished<const NK: usize, const W: usize>(
    words: &[[u8; 4]; W],
    from: usize,
    columns: Columns,
) -> [u8; 16]
    requires size { IsKeySize NK W }
    requires from { (1 ≤ from) × (from ≤ NK + 6) }
    ensures { (block : List ℕ) → state_bytes columns ≡ state_after words.now block (from - 1)
        → result ≡ encrypted words.now (NK + 6) block }
{
    let mut columns = columns;
    for round in from..NK + 6 {
        let next = full_round(words, round, columns);
        columns = next;
    }
    block_of(last_round(words, NK + 6, columns))
}

/// Encrypts a block with the words of an expanded key, in `NK + 6` rounds.
#[inline(always)]
pub(crate) fn encrypted<const NK: usize, const W: usize>(
    words: &[[u8; 4]; W],
    block: &[u8; 16],
) -> [u8; 16]
    requires { IsKeySize NK W }
    ensures { result ≡ encrypted words.now (NK + 6) block.now }
{
    finished::<NK, W>(words, 1, first_columns(words, block))
}

/// Encrypts eight blocks: this one, and those that differ from it in the last byte, which is counted
/// up. After the first round they differ in column 0 alone, so that most of two rounds is done once.
#[inline(always)]
pub(crate) fn eight_encrypted<const NK: usize, const W: usize>(
    words: &[[u8; 4]; W],
    block: &[u8; 16],
    blocks: &mut [[u8; 16]; 8],
)
    requires size { IsKeySize NK W }
    requires last { slice_index block.now 15 + 7 < 256 }
    ensures { blocks.new ≡
        map (λ i. encrypted words.now (NK + 6) (with_last block.now (slice_index block.now 15 + i)))
        (range_with_len 0 8) }
{
    let columns = first_columns(words, block);
    let first = full_round(words, 1, columns);
    let second = full_round(words, 2, first);
    let column_sum = first[0] ^ product_3(byte_3(columns[3]));
    let sums = plus_column_0(second, first[0]);
    for i in 0..8usize {
        let last = block[15] + i as u8;
        let column = column_sum ^ product_3(last ^ words[3][3]);
        let start = plus_column_0(sums, column);
        let made = finished::<NK, W>(words, 3, start);
        blocks[i] = made;
    }
}
