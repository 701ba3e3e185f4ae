//! Places for connections.
use std::sync::{Condvar, Mutex, Wait};
use std::time::Duration;

/// How long the acceptor waits for a place before it looks again, in milliseconds.
const MOMENT: u64 = 50;

/// The places for connections. As many connections are served at a time as there are places.
#[derive(Drop)]
pub struct Places {
    count: u16,
    free: Mutex<u16>,
    given_back: Condvar,
}

impl Places {
    /// Makes this number of places. All of them are free.
    pub fn new(count: u16) -> Places {
        Places {
            count,
            free: Mutex::new(count),
            given_back: Condvar::new(),
        }
    }

    /// Returns the number of places.
    pub fn count(&self) -> u16 {
        self.count
    }

    /// Takes a place, and returns whether one was free.
    pub fn take<R: Wait>(&self, rt: &R) -> bool {
        let mut free = self.free.lock(rt);
        if *free == 0 {
            return false;
        }
        *free -= 1;
        true
    }

    /// Gives a place back.
    pub fn give_back<R: Wait>(&self, rt: &R) {
        self.put(rt);
        self.given_back.notify_one();
    }

    fn put<R: Wait>(&self, rt: &R) {
        let mut free = self.free.lock(rt);
        *free = free.saturating_add(1);
    }

    /// Returns a number that changes whenever a place is given back.
    pub fn changes(&self) -> u64 {
        self.given_back.notifications()
    }

    /// Waits for a moment, or until `changes` no longer returns `seen`.
    pub fn wait<R: Wait>(&self, rt: &R, seen: u64) {
        self.given_back
            .sleep(rt, seen, Duration::from_millis(MOMENT));
    }
}
