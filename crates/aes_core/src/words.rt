//! A column of the state as one number. Its bytes, the lowest first, are those of rows 0 to 3.
ghost use Rattle.std.specs.Prelude.{◌≡◌, slice_index};
ghost use Rattle.aes_core.specs.Aes.{word};
ghost use Rattle.aes_core.specs.Words.{byte_of, state_bytes, word_bytes};

/// Returns the byte in row 0 of a column.
#[inline(always)]
pub(crate) fn byte_0(column: u32) -> u8
    ensures { result ≡ byte_of column 0 }
{
    (column & 0xff) as u8
}

/// Returns the byte in row 1 of a column.
#[inline(always)]
pub(crate) fn byte_1(column: u32) -> u8
    ensures { result ≡ byte_of column 1 }
{
    ((column >> 8) & 0xff) as u8
}

/// Returns the byte in row 2 of a column.
#[inline(always)]
pub(crate) fn byte_2(column: u32) -> u8
    ensures { result ≡ byte_of column 2 }
{
    ((column >> 16) & 0xff) as u8
}

/// Returns the byte in row 3 of a column.
#[inline(always)]
pub(crate) fn byte_3(column: u32) -> u8
    ensures { result ≡ byte_of column 3 }
{
    (column >> 24) as u8
}

/// Returns the column of four bytes.
#[inline(always)]
pub(crate) fn word_of(bytes: &[u8; 4]) -> u32
    ensures { word_bytes result ≡ word (λ r. slice_index bytes.now r) }
{
    u32::from_le_bytes(*bytes)
}

/// Returns the block of four columns.
#[inline(always)]
#[tactic(auto, unfolding(crate::specs::Words::byte_of))]
pub(crate) fn block_of(columns: [u32; 4]) -> [u8; 16]
    ensures { result ≡ state_bytes columns }
{
    let [a, b, c, d] = columns;
    let [a0, a1, a2, a3] = a.to_le_bytes();
    let [b0, b1, b2, b3] = b.to_le_bytes();
    let [c0, c1, c2, c3] = c.to_le_bytes();
    let [d0, d1, d2, d3] = d.to_le_bytes();
    [
        a0, a1, a2, a3, b0, b1, b2, b3, c0, c1, c2, c3, d0, d1, d2, d3,
    ]
}
