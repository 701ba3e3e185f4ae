//! The ids that the operations of a log used.
use crate::runs::Runs;
use edit_ops::EditOp;
use hk_base::NoMemory;
use std::alloc::Global;
use std::collections::HashSet;

/// The ids that no operation may use again. Ids that come in rising order, as they mostly do in a log,
/// are kept as runs: one for each gap among them. An id that comes after a greater one, and not right
/// after one that was used, is a stray. So an id takes no time that grows with the log in rising order,
/// that of a search among the runs in any other, and 16 bytes at most in the runs.
#[derive(Drop)]
pub(crate) struct UsedIds {
    runs: Runs,
    strays: HashSet<u64>,
}

impl UsedIds {
    ghost use Rattle.std.specs.Prelude.{◌≡◌, ◌∷◌, [], ℕ, ◌||◌, false, not, OnOk};
    ghost use Rattle.std.specs.List.{list_any};
    ghost use Rattle.name_store.specs.Table.{is_among, uses};
    ghost use Rattle.name_store.specs.Used.{is_used};

    /// Creates the empty set of ids. Does not allocate.
    pub(crate) fn new(alloc: Global) -> UsedIds
        ensures { (id : ℕ) → is_used result id ≡ false }
    {
        UsedIds {
            runs: Runs::new(alloc),
            strays: HashSet::new(alloc),
        }
    }

    /// Returns whether no id of the operation was used before.
    pub(crate) fn is_fresh(&self, op: &EditOp) -> bool
        ensures { result ≡ not (list_any (is_used self.now) (uses op.now)) }
    {
        match op {
            EditOp::Mkdir { id, .. } => !self.has(*id),
            EditOp::File { id, .. } => !self.has(*id),
            EditOp::Submit { session, .. } => !self.has(*session),
            _ => true,
        }
    }

    fn has(&self, id: u64) -> bool
        ensures { result ≡ is_used self.now id }
    {
        let in_runs = self.runs.has(id);
        in_runs || self.strays.contains(&id)
    }

    /// Adds the ids of the operation, none of which was used before.
    pub(crate) fn add(&mut self, op: &EditOp) -> Result<(), NoMemory>
        requires { list_any (is_used self.old) (uses op.now) ≡ false }
        ensures { OnOk result
            ((id : ℕ) → is_used self.new id ≡ (is_among (uses op.now) id || is_used self.old id)) }
    {
        match op {
            EditOp::Mkdir { id, .. } => self.add_one(*id),
            EditOp::File { id, .. } => self.add_one(*id),
            EditOp::Submit { session, .. } => self.add_one(*session),
            _ => Ok(()),
        }
    }

    fn add_one(&mut self, one: u64) -> Result<(), NoMemory>
        requires { is_used self.old one ≡ false }
        ensures { OnOk result
            ((id : ℕ) → is_used self.new id ≡ (is_among (one ∷ []) id || is_used self.old id)) }
    {
        let in_runs = self.runs.add(one)?;
        if in_runs {
            return Ok(());
        }
        self.strays.insert(one)?;
        Ok(())
    }
}
