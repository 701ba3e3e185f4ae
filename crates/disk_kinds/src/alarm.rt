//! A flag that any thread may raise.
use std::sync::atomic::{AtomicBool, Ordering};

/// A flag that any thread may raise, and that stays raised. Whoever shares it reacts when they next
/// look at it.
#[derive(Drop)]
pub struct Alarm {
    raised: AtomicBool,
}

impl Alarm {
    /// Creates an alarm that is not raised.
    pub fn new() -> Alarm {
        Alarm {
            raised: AtomicBool::new(false),
        }
    }

    /// Raises the alarm.
    pub fn raise(&self) {
        self.raised.store(true, Ordering::SeqCst);
    }

    /// Returns whether the alarm was raised.
    pub fn is_raised(&self) -> bool {
        self.raised.load(Ordering::SeqCst)
    }
}
