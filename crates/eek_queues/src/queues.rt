//! The queues of ready keys.
ghost use Rattle.std.specs.Prelude.{◌≡◌, ◌-◌, ◌↔◌, ◌∷◌, ◌++◌, ◌≤◌, [], true, false, length, drop, slice_get, All, IsNone, IfNone, IfSome, IsErr, IfErr, OnOk, OnErr};
ghost use Rattle.std.specs.Option.{option_map};
ghost use Rattle.eek_queues.specs.Queues.{IsLowest, dropped, has_queue, limit, lowest, put_queue, ready_in, set_ready};

use crate::order::{FillOrder, QueuePlace};
use crate::rings::{Ring, find, place_of_birth};
use circular_buffer::HeapCircularBuffer;
use hk_base::{Edek, NoMemory};
use std::alloc::Global;
use std::marker::Model;

/// Queues of encrypted keys that are ready to be handed out, at most one for each birth of a key. In
/// contracts their value is the size of a queue, the watermark, and the queues as a list ordered by
/// birth. Each queue is the list of its ready keys, the oldest first.
///
/// A queue is low if it has fewer ready keys than both the watermark and the size. Only `make`
/// allocates.
#[derive(Drop)]
pub struct Queues {
    alloc: Global,
    size: u16,
    watermark: u16,
    rings: Vec<Ring>,
    order: FillOrder,
}

impl Model for Queues {
    ghost use Rattle.std.specs.Prelude.{◌≡◌, min, vec_capacity};
    ghost use Rattle.eek_queues.specs.Queues.{AllQueues};
    ghost use Rattle.eek_queues.specs.Kept.{AreQueuesKept, queues_of};

    ghost Value = { AllQueues };

    ghost view = { λ a.
        record { size = a.size; watermark = a.watermark; queues = queues_of a.rings.items } };

    ghost invariant = { λ a.
        AreQueuesKept a.size a.order.limit a.rings.items a.order.places.items
        (vec_capacity a.order.places) × (a.order.limit ≡ min a.watermark a.size) };
}

impl Queues {
    /// Creates an empty set of queues. Each queue will have room for `size` ready keys, and be low
    /// below `watermark`.
    pub fn new(alloc: Global, size: u16, watermark: u16) -> Queues
        ensures { result ≡ record { size = size; watermark = watermark; queues = [] } }
    {
        Queues {
            alloc,
            size,
            watermark,
            rings: Vec::new(alloc),
            order: FillOrder::new(alloc, watermark.min(size)),
        }
    }

    /// Returns the number of ready keys that a queue can hold.
    pub fn size(&self) -> u16
        ensures { result ≡ self.now.size }
    {
        self.size
    }

    /// Returns the watermark.
    pub fn watermark(&self) -> u16
        ensures { result ≡ self.now.watermark }
    {
        self.watermark
    }

    /// Returns whether the key with this birth has a queue.
    pub fn has(&self, birth: u64) -> bool
        ensures { result ≡ has_queue self.now.queues birth }
    {
        find(&self.rings, birth).is_some()
    }

    /// Returns how many ready keys the key with this birth has: 0 if it has no queue.
    pub fn length(&self, birth: u64) -> u16
        ensures length { result ≡ length (ready_in self.now.queues birth) }
        ensures within { result ≤ self.now.size }
    {
        // no ring holds more than `size` keys, so the cast below loses nothing
        let _size = self.size;
        match find(&self.rings, birth) {
            Some(at) => self.rings[at].ready.len() as u16,
            None => 0,
        }
    }

    /// Returns how many more ready keys the queue of a birth can hold.
    pub fn room(&self, birth: u64) -> u16
        ensures { result ≡ self.now.size - length (ready_in self.now.queues birth) }
    {
        self.size - self.length(birth)
    }

    /// Returns the ready key of a birth at this position, counted from the oldest. Returns `None` if
    /// it has fewer ready keys.
    pub fn get(&self, birth: u64, position: usize) -> Option<Edek>
        ensures { result ≡ slice_get (ready_in self.now.queues birth) position }
    {
        match find(&self.rings, birth) {
            Some(at) => self.rings[at].ready.get(position).copied(),
            None => None,
        }
    }

    /// Makes an empty queue for a key that has none. Returns `NoMemory` if allocation fails; the
    /// queues are then unchanged.
    pub fn make(&mut self, birth: u64) -> Result<(), NoMemory>
        requires { has_queue self.old.queues birth ≡ false }
        ensures ok { OnOk result
            (self.new ≡
            record self.old {
              queues = put_queue (record { birth = birth; ready = [] })
                  self.old.queues;
            }) }
        ensures err { OnErr result (self.new ≡ self.old) }
    {
        self.order.reserve(self.rings.len() + 1)?;
        let ready = HeapCircularBuffer::with_capacity(self.alloc, self.size as usize)?;
        let at = place_of_birth(&self.rings, birth);
        self.rings.insert(at, Ring { birth, ready })?;
        self.order.enter(QueuePlace { count: 0, birth });
        Ok(())
    }

    /// Takes the oldest ready key of a birth. Returns `None` if its queue is empty or it has none.
    pub fn take(&mut self, birth: u64) -> Option<Edek>
        ensures value { result ≡ slice_get (ready_in self.old.queues birth) 0 }
        ensures none { IsNone result ↔ (ready_in self.old.queues birth ≡ []) }
        ensures queues { self.new ≡
            record self.old {
              queues = set_ready self.old.queues birth
                  (drop 1 (ready_in self.old.queues birth));
            } }
    {
        let at = find(&self.rings, birth)?;
        let ring = &mut self.rings[at];
        let count = ring.ready.len() as u16;
        match ring.ready.pop_front() {
            Some(ready) => {
                let from = QueuePlace { count, birth };
                let to = QueuePlace {
                    count: count - 1,
                    birth,
                };
                self.order.follow(from, to);
                Some(ready)
            }
            None => None,
        }
    }

    /// Removes the `count` oldest ready keys of a birth, or all of them if it has fewer.
    pub fn remove(&mut self, birth: u64, count: usize)
        ensures { self.new ≡
            record self.old {
              queues = set_ready self.old.queues birth
                  (drop count (ready_in self.old.queues birth));
            } }
    {
        if let Some(at) = find(&self.rings, birth) {
            let ring = &mut self.rings[at];
            let held = ring.ready.len();
            let left = held.saturating_sub(count);
            let from = QueuePlace {
                count: held as u16,
                birth,
            };
            let to = QueuePlace {
                count: left as u16,
                birth,
            };
            ring.ready.truncate_front(left);
            self.order.follow(from, to);
        }
    }

    /// Appends a ready key to the queue of a birth, which must have a queue. If the queue is full,
    /// returns the key and leaves the queue unchanged.
    pub fn put(&mut self, birth: u64, ready: Edek) -> Result<(), Edek>
        requires { has_queue self.old.queues birth ≡ true }
        ensures full { IsErr result ↔ (length (ready_in self.old.queues birth) ≡ self.old.size) }
        ensures ok { OnOk result
            (self.new ≡
            record self.old {
              queues = set_ready self.old.queues birth
                  (ready_in self.old.queues birth ++ ready ∷ []);
            }) }
        ensures err { IfErr result (λ back. (back ≡ ready) × (self.new ≡ self.old)) }
    {
        let at = find(&self.rings, birth).unwrap();
        let ring = &mut self.rings[at];
        let count = ring.ready.len() as u16;
        match ring.ready.try_push_back(ready) {
            Ok(()) => {
                let from = QueuePlace { count, birth };
                let to = QueuePlace {
                    count: count + 1,
                    birth,
                };
                self.order.follow(from, to);
                Ok(())
            }
            Err(back) => Err(back),
        }
    }

    /// Empties the queue of a birth, which keeps its queue. Does nothing if it has none.
    pub fn drain(&mut self, birth: u64)
        ensures { self.new ≡ record self.old { queues = set_ready self.old.queues birth [] } }
    {
        if let Some(at) = find(&self.rings, birth) {
            let ring = &mut self.rings[at];
            let from = QueuePlace {
                count: ring.ready.len() as u16,
                birth,
            };
            let emptied = QueuePlace { count: 0, birth };
            ring.ready.clear();
            self.order.follow(from, emptied);
        }
    }

    /// Drops the queue of a birth with its ready keys. Does nothing if it has none.
    pub fn drop_queue(&mut self, birth: u64)
        ensures { self.new ≡ record self.old { queues = dropped self.old.queues birth } }
    {
        if let Some(at) = find(&self.rings, birth) {
            let ring = self.rings.remove(at);
            let place = QueuePlace {
                count: ring.ready.len() as u16,
                birth,
            };
            self.order.leave(place);
        }
    }

    /// Returns the birth of the low queue with the fewest ready keys, the least birth among equals.
    /// Returns `None` if no queue is low.
    pub fn low(&self) -> Option<u64>
        ensures value { result ≡
            option_map (λ q. q.birth) (lowest (limit self.now) self.now.queues) }
        ensures none { IsNone result ↔ All (λ q. limit self.now ≤ length q.ready) self.now.queues }
        ensures lowest { IfSome result (IsLowest (limit self.now) self.now.queues) }
    {
        match self.order.first() {
            Some(place) => Some(place.birth),
            None => None,
        }
    }
}
