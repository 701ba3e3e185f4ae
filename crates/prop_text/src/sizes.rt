//! The sizes of queues, batches and the cache.

use std::marker::Model;

/// Sizes that the properties may set, each within its range.
#[derive(Clone, Copy, Debug, PartialEq, Eq)]
pub struct Sizes {
    /// The number of ready keys in a full queue, 1 to 10,000. The default is 500.
    pub queue: u16,
    /// The number of ready keys at which a queue is low, 1 to 10,000. The default is 150.
    pub watermark: u16,
    /// The number of files in a batch of a re-encryption, 1 to 1,000. The default is 1,000.
    pub batch: u16,
    /// The number of cached materials, 1 to 65,535. The default is 1,000.
    pub cache: u16,
}

impl Model for Sizes {
    ghost use Rattle.std.specs.Prelude.{◌≤◌};
    ghost use Rattle.prop_text.specs.SizeValues.{SizeValues};

    ghost Value = { SizeValues };

    ghost view = { λ s.
        record { queue = s.queue; watermark = s.watermark; batch = s.batch; cache = s.cache } };

    ghost invariant = { λ s. (1 ≤ s.queue) × (s.queue ≤ 10000) × (1 ≤ s.watermark) ×
        (s.watermark ≤ 10000) × (1 ≤ s.batch) × (s.batch ≤ 1000) × (1 ≤ s.cache) };

    ghost inverse = { λ s.
        record { queue = s.queue; watermark = s.watermark; batch = s.batch; cache = s.cache } };
}
