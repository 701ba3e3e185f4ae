//! The number of files in a batch.
use std::marker::Model;

/// The number of files in a batch of a re-encryption: 1 to 1,000.
#[derive(Drop)]
pub struct BatchSize {
    files: u16,
}

impl Model for BatchSize {
    ghost use Rattle.std.specs.Prelude.{◌≤◌, ℕ};

    ghost Value = { ℕ };

    ghost view = { λ size. size.files };

    ghost invariant = { λ size. (1 ≤ size.files) × (size.files ≤ 1000) };
}

impl BatchSize {
    ghost use Rattle.std.specs.Prelude.{◌≡◌, ◌≤◌};

    /// Makes the size of batches of `files` files.
    pub fn of(files: u16) -> BatchSize
        requires some { 1 ≤ files }
        requires most { files ≤ 1000 }
        ensures { result ≡ files }
    {
        BatchSize { files }
    }

    /// Returns the number of files.
    pub fn files(&self) -> u16
        ensures files { result ≡ self.now }
        ensures some { 1 ≤ self.now }
        ensures most { self.now ≤ 1000 }
    {
        self.files
    }
}
