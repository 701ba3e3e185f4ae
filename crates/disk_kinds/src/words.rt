//! Words from a list, and random words from a seed.
ghost use Rattle.std.specs.Prelude.{◌≡◌, ◌+◌, ◌*◌, ◌<◌, ◌≤◌, ◌%◌, ◌^◌, ℕ, length, slice_index};
ghost use Rattle.rand_core.specs.Steps.{u32_at};
ghost use Rattle.rand_chacha.specs.ChaCha.{ChaCha, of_seed, word_at};

use hk_base::Words;
use rand_chacha::ChaCha20Rng;
use rand_core::SeedableRng;
use rand_core::utils::NextWord;
use std::marker::Model;

/// The words of a list, then zeros without end.
#[derive(Drop)]
pub struct ListWords {
    words: Vec<u32>,
    at: usize,
}

impl Model for ListWords {
    ghost use Rattle.std.specs.Prelude.{◌≤◌, ℕ, List, drop, vec_len};

    ghost Value = { List ℕ };

    ghost view = { λ w. drop w.at w.words.items };

    ghost invariant = { λ w. w.at ≤ vec_len w.words };
}

impl ListWords {
    pub fn new(words: Vec<u32>) -> ListWords
        ensures { result ≡ words.items }
    {
        ListWords { words, at: 0 }
    }
}

impl Words for ListWords {
    ghost to_come = { λ w k. slice_index w k };

    fn word(&mut self) -> u32 {
        if self.at == self.words.len() {
            return 0;
        }
        let word = self.words[self.at];
        self.at += 1;
        word
    }
}

/// The words of the ChaCha generator with 20 rounds: the key stream of the cipher ChaCha20 whose key
/// is the seed, with a 64-bit counter from 0 and a nonce of 64 zero bits. Each word is four bytes of
/// the stream, least significant byte first.
#[derive(Drop)]
pub struct ChaWords {
    generator: ChaCha20Rng,
}

impl Model for ChaWords {
    ghost use Rattle.std.specs.Prelude.{◌<◌, ◌^◌};
    ghost use Rattle.rand_chacha.specs.ChaCha.{ChaCha};

    ghost Value = { ChaCha };

    ghost view = { λ w. w.generator };

    ghost invariant = { λ w. w.generator.word_pos < 2 ^ 68 };
}

impl ChaWords {
    /// Creates the generator from a seed of 32 bytes.
    pub fn from_seed(seed: [u8; 32]) -> ChaWords
        ensures { result ≡ of_seed seed }
    {
        ChaWords {
            generator: ChaCha20Rng::from_seed(seed),
        }
    }

    /// Creates the generator from a seed given as eight words, each four bytes with the least significant
    /// byte first.
    pub fn from_words(words: [u32; 8]) -> ChaWords
        ensures { result ≡ record { key = words; stream = 0; word_pos = 0 } }
    {
        let mut seed = [0u8; 32];
        for i in 0..8 {
            put_word(&mut seed, i, words[i]);
        }
        ChaWords::from_seed(seed)
    }
}

/// Writes the four bytes of a word, least significant byte first, as word `i` of the seed.
fn put_word(seed: &mut [u8], i: usize, word: u32)
    requires { 4 * i + 4 ≤ length seed.old }
    ensures word { u32_at seed.new i ≡ word }
    ensures before { (j : ℕ) → j < i → u32_at seed.new j ≡ u32_at seed.old j }
{
    let (_, rest) = seed.split_at_mut(4 * i);
    let (place, _) = rest.split_at_mut(4);
    place.copy_from_slice(&word.to_le_bytes());
}

impl Words for ChaWords {
    ghost to_come = { λ w k. word_at 10 w.key w.stream ((w.word_pos + k) % 2 ^ 68) };

    fn word(&mut self) -> u32 {
        self.generator.next_word()
    }
}
