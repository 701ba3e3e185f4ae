//! Ids as runs of numbers.
ghost use Rattle.std.specs.Prelude.{◌≡◌, ◌+◌, ◌<◌, ◌≤◌, ◌||◌, ◌==◌, ℕ, false, true, nat_le, length, slice_index_or, OnOk, OnErr};
ghost use Rattle.std.specs.List.Sorted.{IsPartitionPoint};
ghost use Rattle.name_store.specs.Runs.{AreRunsRising, is_in_runs};

use hk_base::NoMemory;
use std::alloc::Global;
use std::marker::Model;

/// The ids from `first` to `last`.
#[derive(Clone, Copy)]
pub(crate) struct Run {
    pub(crate) first: u64,
    pub(crate) last: u64,
}

/// Runs of ids in rising order.
#[derive(Drop)]
pub(crate) struct Runs {
    list: Vec<Run>,
}

impl Model for Runs {
    ghost use Rattle.std.specs.Prelude.{List};
    ghost use Rattle.name_store.specs.declared.runs.Run.{Run};
    ghost use Rattle.name_store.specs.Runs.{AreRunsRising};

    ghost Value = { List Run };

    ghost view = { λ a. a.list.items };

    ghost invariant = { λ a. AreRunsRising a.list.items };
}

impl Runs {
    ghost use Rattle.std.specs.Prelude.{◌≡◌, ◌&&◌, ◌||◌, ◌==◌, ℕ, false, IfOk};
    ghost use Rattle.name_store.specs.Runs.{is_in_runs};

    /// Creates the list of no runs. Does not allocate.
    pub(crate) fn new(alloc: Global) -> Runs
        ensures { (id : ℕ) → is_in_runs result id ≡ false }
    {
        Runs {
            list: Vec::new(alloc),
        }
    }

    /// Returns whether a run has the id.
    pub(crate) fn has(&self, id: u64) -> bool
        ensures { result ≡ is_in_runs self.now id }
    {
        has(&self.list, id)
    }

    /// Adds an id that no run has if it is right after a run or after all of them. Returns whether it
    /// did.
    pub(crate) fn add(&mut self, id: u64) -> Result<bool, NoMemory>
        requires { is_in_runs self.old id ≡ false }
        ensures { IfOk result
            (λ added. (x : ℕ) →
            is_in_runs self.new x ≡ ((added && (id == x)) || is_in_runs self.old x)) }
    {
        let place = place(&self.list, id);
        if is_next(&self.list, place, id) {
            extend(&mut self.list, place - 1, id);
            return Ok(true);
        }
        if place < self.list.len() {
            return Ok(false);
        }
        append(&mut self.list, id)?;
        Ok(true)
    }
}

/// Returns whether a run has the id.
fn has(runs: &Vec<Run>, id: u64) -> bool
    requires { AreRunsRising runs.now.items }
    ensures { result ≡ is_in_runs runs.now.items id }
{
    let place = place(runs, id);
    if place == 0 {
        return false;
    }
    id <= runs[place - 1].last
}

/// Returns how many runs begin at the id or before it. Tries the last run first.
fn place(runs: &Vec<Run>, id: u64) -> usize
    requires { AreRunsRising runs.now.items }
    ensures most { result ≤ length runs.now.items }
    ensures parted { IsPartitionPoint (λ run. nat_le run.first id ≡ true)
        (λ run. nat_le run.first id ≡ false) runs.now.items result }
{
    match runs.last() {
        None => 0,
        Some(run) => {
            if run.first <= id {
                runs.len()
            } else {
                search(runs, id)
            }
        }
    }
}

fn search(runs: &Vec<Run>, id: u64) -> usize
    requires { AreRunsRising runs.now.items }
    ensures most { result ≤ length runs.now.items }
    ensures parted { IsPartitionPoint (λ run. nat_le run.first id ≡ true)
        (λ run. nat_le run.first id ≡ false) runs.now.items result }
{
    runs.as_slice().partition_point(|run| run.first <= id)
}

/// Returns whether the id is right after the run before the place.
fn is_next(runs: &Vec<Run>, place: usize, id: u64) -> bool
    requires { place ≤ length runs.now.items }
    ensures within { result ≡ true → 0 < place }
    ensures next { result ≡ true → (k : ℕ) (d : Run) → place ≡ k + 1 →
        (slice_index_or runs.now.items k d).last + 1 ≡ id }
{
    if place == 0 {
        return false;
    }
    let last = runs[place - 1].last;
    last < id && id - last == 1
}

/// Adds the id at the end of the run at an index.
fn extend(runs: &mut Vec<Run>, at: usize, id: u64)
    requires rising { AreRunsRising runs.old.items }
    requires within { at < length runs.old.items }
    requires begun { IsPartitionPoint (λ run. nat_le run.first id ≡ true)
        (λ run. nat_le run.first id ≡ false) runs.old.items (at + 1) }
    requires next { (d : Run) → (slice_index_or runs.old.items at d).last + 1 ≡ id }
    ensures rising { AreRunsRising runs.new.items }
    ensures ids { (x : ℕ) →
        is_in_runs runs.new.items x ≡ ((id == x) || is_in_runs runs.old.items x) }
{
    runs[at].last = id;
}

/// Adds a run of the id alone, which is after all runs.
fn append(runs: &mut Vec<Run>, id: u64) -> Result<(), NoMemory>
    requires rising { AreRunsRising runs.old.items }
    requires free { is_in_runs runs.old.items id ≡ false }
    requires begun { IsPartitionPoint (λ run. nat_le run.first id ≡ true)
        (λ run. nat_le run.first id ≡ false) runs.old.items (length runs.old.items) }
    ensures rising { AreRunsRising runs.new.items }
    ensures ids { OnOk result
        ((x : ℕ) → is_in_runs runs.new.items x ≡ ((id == x) || is_in_runs runs.old.items x)) }
{
    runs.push(Run {
        first: id,
        last: id,
    })?;
    Ok(())
}
