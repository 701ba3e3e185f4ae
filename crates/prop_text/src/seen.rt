//! Sets of names.
ghost use Rattle.std.specs.Prelude.{◌≡◌, ℕ, List, [], ◌||◌, not, IfOk, OnErr, OnOk};
ghost use Rattle.std.specs.Str.{bytes_eq};
ghost use Rattle.prop_text.specs.Properties.{is_among};

use hk_base::NoMemory;
use std::alloc::Global;
use std::collections::BTreeSet;
use std::marker::Model;

/// A set of names. Contracts see a list in some order.
#[derive(Drop)]
pub struct NameSet {
    alloc: Global,
    names: BTreeSet<Vec<u8>>,
}

impl Model for NameSet {
    ghost use Rattle.std.specs.Prelude.{ℕ, List, map};

    ghost Value = { List (List ℕ) };

    ghost view = { λ s. map (λ name. name.items) s.names.keys };
}

impl NameSet {
    /// Creates an empty set. Does not allocate.
    pub fn new(alloc: Global) -> NameSet
        ensures { result ≡ [] }
    {
        NameSet {
            alloc,
            names: BTreeSet::new(alloc),
        }
    }

    /// Adds a name and returns whether it is new. Returns `NoMemory` if allocation fails; the set is then
    /// unchanged. Takes time logarithmic in the number of names.
    pub fn add(&mut self, name: &[u8]) -> Result<bool, NoMemory>
        ensures new { IfOk result (λ new. new ≡ not (is_among name.now self.old)) }
        ensures added { OnOk result
            ((other : List ℕ) →
            is_among other self.new ≡ (bytes_eq other name.now || is_among other self.old)) }
        ensures kept { OnErr result (self.new ≡ self.old) }
    {
        let name = Vec::from_slice(self.alloc, name)?;
        let new = self.names.insert(name)?;
        Ok(new)
    }

    /// Returns whether the set has the name. Takes time logarithmic in the number of names.
    pub fn has(&self, name: &[u8]) -> bool
        ensures { result ≡ is_among name.now self.now }
    {
        self.names.contains(name)
    }
}
