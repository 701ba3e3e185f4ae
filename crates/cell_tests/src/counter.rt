//! A service that counts.
use hist_cell::Core;

/// A count. A call adds to it, and is answered by the count before.
#[derive(Drop)]
pub struct Counter {
    pub count: u64,
}

impl Core for Counter {
    ghost use Rattle.std.specs.Prelude.{◌≡◌, ◌+◌, ◌%◌, ◌^◌, ⊤};

    type Call = u64;

    type Reply = u64;

    ghost step = { λ s q r t. (r ≡ s.count) × (t.count ≡ (s.count + q) % 2 ^ 64) };

    ghost acts = { λ s q r t. (r ≡ s.count) × (t.count ≡ (s.count + q) % 2 ^ 64) };

    ghost allows = { λ _ _. ⊤ };

    ghost can = { λ _ _. ⊤ };

    ghost alone = { λ _. ⊤ };

    ghost sound = { λ _. ⊤ };

    fn act(&mut self, call: u64) -> u64 {
        let before = self.count;
        self.count = before.wrapping_add(call);
        before
    }

    ghost grows = { λ es fs q p a. tt };

    ghost fits = { λ s es q sound legal a. tt };

    ghost plain = { λ s t q r can alone acted. acted };
}
