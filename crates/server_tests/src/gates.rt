//! A gate, and random words, that hold a thread until others have come to a certain point.
use hk_base::{Gate, Point, Words};
use std::sync::Wait;
use std::sync::atomic::{AtomicU32, Ordering};
use std::time::Duration;
use std::{thread, time};

/// How often a wait looks again, a millisecond later each time.
const LOOKS: u32 = 20_000;

/// What threads come to.
#[derive(Clone, Copy, PartialEq, Eq)]
pub enum Moment {
    /// A call was answered, and its response is not written yet.
    Reply,
    /// A filler is about to seal keys.
    Seal,
    /// The updater is about to deliver what came of a batch.
    Delivery,
    /// The key management service draws a random word.
    Draw,
}

/// Holds the thread that comes to a moment as the one of this number, counted from 1, until threads came
/// to another moment so often.
#[derive(Clone, Copy)]
pub struct Hold {
    pub at: Moment,
    pub number: u32,
    pub until: Moment,
    pub times: u32,
}

/// Counts how often threads came to each moment, and holds some of them.
#[derive(Drop)]
pub struct Tally<C: time::Clock + Drop> {
    clock: C,
    holds: &'static [Hold],
    replies: AtomicU32,
    seals: AtomicU32,
    deliveries: AtomicU32,
    draws: AtomicU32,
    /// How many threads were held, and came free in time.
    in_time: AtomicU32,
}

impl<C: time::Clock + Drop> Tally<C> {
    pub fn new(clock: C, holds: &'static [Hold]) -> Tally<C> {
        Tally {
            clock,
            holds,
            replies: AtomicU32::new(0),
            seals: AtomicU32::new(0),
            deliveries: AtomicU32::new(0),
            draws: AtomicU32::new(0),
            in_time: AtomicU32::new(0),
        }
    }

    fn counter(&self, moment: Moment) -> &AtomicU32 {
        match moment {
            Moment::Reply => &self.replies,
            Moment::Seal => &self.seals,
            Moment::Delivery => &self.deliveries,
            Moment::Draw => &self.draws,
        }
    }

    /// Counts that a thread came to a moment. Returns the count.
    fn count(&self, moment: Moment) -> u32 {
        self.counter(moment)
            .fetch_add(1, Ordering::SeqCst)
            .wrapping_add(1)
    }

    /// Waits until threads came to a moment so often, but not forever.
    fn wait(&self, moment: Moment, times: u32) {
        for _ in 0..LOOKS {
            if self.counter(moment).load(Ordering::SeqCst) >= times {
                self.in_time.fetch_add(1, Ordering::SeqCst);
                return;
            }
            thread::sleep(&self.clock, Duration::from_millis(1));
        }
    }

    /// Counts that a thread came to a moment, and holds it if it is one to be held.
    fn come(&self, moment: Moment) {
        let number = self.count(moment);
        for hold in self.holds {
            if hold.at == moment && hold.number == number {
                self.wait(hold.until, hold.times);
            }
        }
    }

    /// Returns how many threads were held and came free in time.
    pub fn in_time(&self) -> u32 {
        self.in_time.load(Ordering::SeqCst)
    }
}

/// A gate that holds threads.
#[derive(Drop)]
pub struct HeldGate<'a, C: time::Clock + Drop> {
    pub tally: &'a Tally<C>,
}

impl<'a, C: time::Clock + Drop> Gate for HeldGate<'a, C> {
    fn pass<R: Wait>(&self, _rt: &R, point: Point) {
        match point {
            Point::BeforeReply => self.tally.come(Moment::Reply),
            Point::BeforeSeal => self.tally.come(Moment::Seal),
            Point::BeforeDeliver => self.tally.come(Moment::Delivery),
            Point::BeforeServe => {}
        }
    }
}

/// Random words that hold whoever draws them.
#[derive(Drop)]
pub struct HeldWords<'a, C: time::Clock + Drop, W: Words> {
    pub tally: &'a Tally<C>,
    pub words: W,
}

impl<'a, C: time::Clock + Drop, W: Words> Words for HeldWords<'a, C, W> {
    ghost to_come = { λ w k. W.to_come w.words k };

    fn word(&mut self) -> u32 {
        self.tally.come(Moment::Draw);
        self.words.word()
    }
}
