//! The key stream, block by block.
ghost use Rattle.std.specs.Prelude.{◌≡◌, ◌+◌, ◌^◌, ◌<◌};
ghost use Rattle.std.specs.Int.{w128, to_be_bytes};
ghost use Rattle.aes_core.specs.AnyAes.{key_of};
ghost use Rattle.aes_ctr.specs.Ctr.{counter_block, eight_stream_blocks, stream_block};

use aes_core::AnyAes;

/// Returns the bytes of a number, the highest first.
#[inline(always)]
#[tactic(auto, using(crate::proofs::Counters::swapped_bytes, crate::proofs::Counters::halves))]
fn be_bytes(n: u128) -> [u8; 16]
    ensures { result ≡ to_be_bytes w128 n }
{
    // Each half compiles to one write. The other ways to write the number, as u128's own to_be_bytes,
    // compile to a shift and more for each byte.
    let [a0, a1, a2, a3, a4, a5, a6, a7] = ((n >> 64) as u64).swap_bytes().to_le_bytes();
    let [b0, b1, b2, b3, b4, b5, b6, b7] = ((n % (1 << 64)) as u64).swap_bytes().to_le_bytes();
    [
        a0, a1, a2, a3, a4, a5, a6, a7, b0, b1, b2, b3, b4, b5, b6, b7,
    ]
}

/// Returns the counter block `j` blocks after the first.
#[inline(always)]
#[tactic(auto, unfolding(crate::specs::Ctr::counter_block))]
fn counter_block(counter: [u8; 16], j: u64) -> [u8; 16]
    ensures { result ≡ counter_block counter j }
{
    let first = u128::from_be_bytes(counter);
    be_bytes(first.wrapping_add(j as u128))
}

/// Returns the block of the key stream `j` blocks after the first.
#[inline(always)]
pub(crate) fn stream_block(key: &AnyAes, counter: [u8; 16], j: u64) -> [u8; 16]
    ensures { result ≡ stream_block (key_of key.now) counter j }
{
    key.encrypt_block(&counter_block(counter, j))
}

/// Makes eight blocks of the key stream, from block `j` on.
#[inline(always)]
pub(crate) fn eight_stream_blocks(
    key: &AnyAes,
    counter: [u8; 16],
    j: u64,
    blocks: &mut [[u8; 16]; 8],
)
    requires { j + 7 < 2 ^ 64 }
    ensures { blocks.new ≡ eight_stream_blocks (key_of key.now) counter j }
{
    // The blocks are written where they are to be. A value that is returned from two places is
    // compiled to a move or more for each byte.
    let block = counter_block(counter, j);
    if block[15] < 249 {
        key.encrypt_eight(&block, blocks);
        return;
    }
    *blocks = [
        stream_block(key, counter, j),
        stream_block(key, counter, j + 1),
        stream_block(key, counter, j + 2),
        stream_block(key, counter, j + 3),
        stream_block(key, counter, j + 4),
        stream_block(key, counter, j + 5),
        stream_block(key, counter, j + 6),
        stream_block(key, counter, j + 7),
    ];
}
