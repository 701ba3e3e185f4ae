//! The low queues, in the order in which they should be filled.
ghost use Rattle.std.specs.Prelude.{◌≡◌, ◌<◌, ◌≤◌, [], List, length, slice_get, true, false, vec_capacity, OnOk};
ghost use Rattle.std.specs.List.Sorted.{IsPartitionPoint};
ghost use Rattle.eek_queues.specs.Order.{AreInPlaceOrder, StandsInOrder, is_before, with_place};

use hk_base::NoMemory;
use std::alloc::Global;

/// The place of a queue in the order: how many ready keys it has, and the birth of its key.
#[derive(Clone, Copy)]
pub struct QueuePlace {
    pub count: u16,
    pub birth: u64,
}

impl QueuePlace {
    pub fn is_before(&self, other: &QueuePlace) -> bool
        ensures { result ≡ is_before self.now other.now }
    {
        if self.count == other.count {
            self.birth < other.birth
        } else {
            self.count < other.count
        }
    }
}

/// The places of the low queues. A queue is low if it has fewer ready keys than `limit`.
#[derive(Drop)]
pub struct FillOrder {
    pub limit: u16,
    pub places: Vec<QueuePlace>,
}

impl FillOrder {
    /// Creates an order without places. It does not allocate.
    pub fn new(alloc: Global, limit: u16) -> FillOrder
        ensures limit { result.limit ≡ limit }
        ensures places { result.places.items ≡ [] }
    {
        FillOrder {
            limit,
            places: Vec::new(alloc),
        }
    }

    /// Makes room for `queues` places in all.
    pub fn reserve(&mut self, queues: usize) -> Result<(), NoMemory>
        requires { length self.old.places.items ≤ queues }
        ensures room { OnOk result (queues ≤ vec_capacity self.new.places) }
        ensures more { vec_capacity self.old.places ≤ vec_capacity self.new.places }
        ensures places { self.new.places.items ≡ self.old.places.items }
        ensures limit { self.new.limit ≡ self.old.limit }
    {
        let held = self.places.len();
        self.places.reserve(queues - held)?;
        Ok(())
    }

    /// Returns the first place, or `None` if no queue is low.
    pub fn first(&self) -> Option<QueuePlace>
        ensures { result ≡ slice_get self.now.places.items 0 }
    {
        self.places.first().copied()
    }

    /// Adds a queue at its place in the order if it is low. It does not allocate.
    pub fn enter(&mut self, place: QueuePlace)
        requires order { AreInPlaceOrder self.old.places.items }
        requires room { length self.old.places.items < vec_capacity self.old.places }
        ensures places { self.new.places.items ≡
            with_place self.old.limit place self.old.places.items }
        ensures limit { self.new.limit ≡ self.old.limit }
        ensures room { vec_capacity self.old.places ≤ vec_capacity self.new.places }
    {
        if place.count < self.limit {
            let at = place_in(&self.places, place);
            let _ = self.places.insert(at, place);
        }
    }

    /// Removes a queue from its place in the order if it is low. It does not allocate.
    pub fn leave(&mut self, place: QueuePlace)
        requires { StandsInOrder self.old.limit place self.old.places.items
            (vec_capacity self.old.places) }
        ensures places { (others : List QueuePlace) →
            self.old.places.items ≡ with_place self.old.limit place others →
            self.new.places.items ≡ others }
        ensures limit { self.new.limit ≡ self.old.limit }
        ensures room { vec_capacity self.old.places ≤ vec_capacity self.new.places }
    {
        if place.count < self.limit {
            let at = place_in(&self.places, place);
            let _ = self.places.remove(at);
        }
    }

    /// Moves a queue from its place to another. It does not allocate.
    pub fn follow(&mut self, from: QueuePlace, to: QueuePlace)
        requires { StandsInOrder self.old.limit from self.old.places.items (vec_capacity self.old.places) }
        ensures places { (others : List QueuePlace) →
            self.old.places.items ≡ with_place self.old.limit from others →
            self.new.places.items ≡ with_place self.old.limit to others }
        ensures limit { self.new.limit ≡ self.old.limit }
        ensures room { vec_capacity self.old.places ≤ vec_capacity self.new.places }
    {
        self.leave(from);
        self.enter(to);
    }
}

/// Returns how many places are before a place.
fn place_in(places: &Vec<QueuePlace>, place: QueuePlace) -> usize
    requires { AreInPlaceOrder places.now.items }
    ensures most { result ≤ length places.now.items }
    ensures parted { IsPartitionPoint (λ p. is_before p place ≡ true)
        (λ p. is_before p place ≡ false) places.now.items result }
{
    places.as_slice().partition_point(|p| p.is_before(&place))
}
