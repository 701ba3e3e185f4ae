//! The places of the materials of a key: runs of places at equal distances.
ghost use Rattle.std.specs.Prelude.{◌≡◌, ℕ, ◌∷◌, [], ◌++◌, ◌+◌, ◌*◌, ◌<◌, ◌^◌, length, slice_get, IfSome, OnOk, OnErr, IfOk, IsOk, IsSome, IsTrue};
ghost use Rattle.std.specs.Bool.{OnTrue, OnFalse};
ghost use Rattle.std.specs.Vec.{vec_capacity};
ghost use Rattle.std.specs.List.{concat};
ghost use Rattle.key_index.specs.Runs.{AreRuns, GoesOn, IsSecond, run_places};

use hk_base::NoMemory;
use std::alloc::Global;
use std::marker::Model;

/// One or more places at equal distances: `count` of them from `first`, each `step` above the one before.
/// Contracts see the list of these places.
#[derive(Drop)]
pub(crate) struct PlaceRun {
    first: u64,
    step: u32,
    count: u32,
}

impl Model for PlaceRun {
    ghost use Rattle.std.specs.Prelude.{ℕ, List, ◌+◌, ◌-◌, ◌*◌, ◌<◌, ◌^◌};
    ghost use Rattle.key_index.specs.Runs.{run_places};

    ghost Value = { List ℕ };

    ghost view = { λ a. run_places a.first a.step a.count };

    ghost invariant = { λ a. (0 < a.count) × (a.first + a.step * (a.count - 1) < 2 ^ 64) };
}

/// Returns how far `to` is above `from`, or `None` if it is below, or 2^32 or more above.
fn distance(from: u64, to: u64) -> Option<u32>
    ensures step { IfSome result (λ step. to ≡ from + step) }
    ensures near { (step : ℕ) → to ≡ from + step → step < 2 ^ 32 → IsSome result }
{
    if to < from {
        return None;
    }
    match u32::try_from(to - from) {
        Err(_) => None,
        Ok(step) => Some(step),
    }
}

/// Returns the distance at which a run of `count` places, one or more, goes on at a place, or `None` if it
/// doesn't. A run of one place goes on at any distance below 2^32.
fn step_to(first: u64, step: u32, count: u32, place: u64) -> Option<u32>
    requires { 0 < count }
    ensures place { IfSome result (λ next. place ≡ first + next * count) }
    ensures same { IfSome result (λ next. run_places first next count ≡ run_places first step count) }
    ensures next { place ≡ first + step * count → IsSome result }
    ensures second { (next : ℕ) → count ≡ 1 → place ≡ first + next → next < 2 ^ 32 → IsSome result }
{
    if count == 1 {
        return distance(first, place);
    }
    match first.checked_add(step as u64 * count as u64) {
        None => None,
        Some(next) => {
            if next == place {
                return Some(step);
            }
            None
        }
    }
}

impl PlaceRun {
    fn new(place: u64) -> PlaceRun
        ensures { result ≡ place ∷ [] }
    {
        PlaceRun {
            first: place,
            step: 0,
            count: 1,
        }
    }

    /// Returns the number of places, which is not 0.
    fn len(&self) -> u32
        ensures count { result ≡ length self.now }
        ensures some { 0 < length self.now }
    {
        self.count
    }

    /// Returns a place by its number, from 0.
    fn get(&self, number: u32) -> Option<u64>
        ensures { result ≡ slice_get self.now number }
    {
        if number < self.count {
            return Some(self.first + self.step as u64 * number as u64);
        }
        None
    }

    /// Appends a place if the run goes on at it, and returns whether it does.
    fn try_push(&mut self, place: u64) -> bool
        ensures pushed { OnTrue result (self.new ≡ self.old ++ place ∷ []) }
        ensures same { OnFalse result (self.new ≡ self.old) }
        ensures next { GoesOn self.old place → IsTrue result }
        ensures second { IsSecond self.old place → IsTrue result }
    {
        let count = self.count;
        if count == u32::MAX {
            return false;
        }
        match step_to(self.first, self.step, count, place) {
            None => false,
            Some(step) => {
                self.step = step;
                self.count = count + 1;
                true
            }
        }
    }
}

/// Appends a place to the last run if that goes on at it, and returns whether it does.
fn try_push_to_last(runs: &mut Vec<PlaceRun>, place: u64) -> bool
    requires { AreRuns runs.old.items }
    ensures runs { AreRuns runs.new.items }
    ensures pushed { OnTrue result (concat runs.new.items ≡ concat runs.old.items ++ place ∷ []) }
    ensures same { OnFalse result (runs.new.items ≡ runs.old.items) }
    ensures next { GoesOn (concat runs.old.items) place → IsTrue result }
{
    let count = runs.len();
    if count == 0 {
        return false;
    }
    let last = &mut runs[count - 1];
    last.try_push(place)
}

/// Appends a run, in place or, if there is no capacity left, in a given buffer. Returns `Ok` if the buffer
/// has capacity for all runs.
fn push_run(runs: &mut Vec<PlaceRun>, buffer: Vec<PlaceRun>, run: PlaceRun) -> Result<(), NoMemory>
    requires empty { buffer.items ≡ [] }
    ensures ok { OnOk result (runs.new.items ≡ runs.old.items ++ run ∷ []) }
    ensures err { OnErr result (runs.new.items ≡ runs.old.items) }
    ensures room { length runs.old.items < vec_capacity buffer → IsOk result }
{
    if runs.len() < runs.capacity() || buffer.capacity() <= runs.len() {
        runs.push(run)?;
        return Ok(());
    }
    let mut moved = buffer;
    moved.append(runs)?;
    moved.push_reserved(run);
    *runs = moved;
    Ok(())
}

/// The offsets of the materials of a key in the file of the key log, one for each version, from version
/// 0. Contracts see a list. Places at equal distances, as rolls of equal size leave, share a run.
#[derive(Drop)]
pub(crate) struct PlaceList {
    runs: Vec<PlaceRun>,
}

impl Model for PlaceList {
    ghost use Rattle.std.specs.Prelude.{ℕ, List};
    ghost use Rattle.std.specs.List.{concat};
    ghost use Rattle.key_index.specs.Runs.{AreRuns};

    ghost Value = { List ℕ };

    ghost view = { λ a. concat a.runs.items };

    ghost invariant = { λ a. AreRuns a.runs.items };
}

impl PlaceList {
    /// Creates a list of these places.
    pub(crate) fn of(alloc: Global, places: &[u64]) -> Result<PlaceList, NoMemory>
        ensures { IfOk result (λ list. list ≡ places.now) }
    {
        let mut list = PlaceList {
            runs: Vec::new(alloc),
        };
        for place in places {
            list.push_in(Vec::new(alloc), *place)?;
        }
        Ok(list)
    }

    /// Creates a list with the place of version 0 in a given buffer. Returns `Ok` if the buffer has
    /// capacity for it.
    pub(crate) fn in_buffer(buffer: Vec<PlaceRun>, first: u64) -> Result<PlaceList, NoMemory>
        requires empty { buffer.items ≡ [] }
        ensures made { IfOk result (λ places. places ≡ first ∷ []) }
        ensures room { 0 < vec_capacity buffer → IsOk result }
    {
        let mut runs = buffer;
        runs.push(PlaceRun::new(first))?;
        Ok(PlaceList { runs })
    }

    /// Appends the place of the next version, in place or, if there is no capacity left, in a given
    /// buffer. Returns `Ok` if the buffer has capacity for all versions.
    pub(crate) fn push_in(&mut self, buffer: Vec<PlaceRun>, place: u64) -> Result<(), NoMemory>
        requires empty { buffer.items ≡ [] }
        ensures ok { OnOk result (self.new ≡ self.old ++ place ∷ []) }
        ensures err { OnErr result (self.new ≡ self.old) }
        ensures room { length self.old < vec_capacity buffer → IsOk result }
        // A place as far from the last one as that is from the one before it takes no memory.
        ensures next { GoesOn self.old place → IsOk result }
    {
        if try_push_to_last(&mut self.runs, place) {
            return Ok(());
        }
        push_run(&mut self.runs, buffer, PlaceRun::new(place))?;
        Ok(())
    }

    /// Places all versions again: `count` of them from `first` on, each `step` above the one before. Does
    /// not allocate.
    pub(crate) fn set_run(&mut self, first: u64, step: u16, count: u32)
        requires some { 0 < count }
        requires placed { 0 < length self.old }
        requires end { first + step * count < 2 ^ 64 }
        ensures { self.new ≡ run_places first step count }
    {
        let run = PlaceRun {
            first,
            step: step as u32,
            count,
        };
        self.runs.truncate(1);
        self.runs[0] = run;
    }

    /// Returns the place of a version, or `None` if the key has no version of this number.
    pub(crate) fn get(&self, number: u16) -> Option<u64>
        ensures { result ≡ slice_get self.now number }
    {
        let mut left = number as u32;
        for run in &self.runs {
            match run.get(left) {
                Some(place) => return Some(place),
                None => left -= run.len(),
            }
        }
        None
    }
}
