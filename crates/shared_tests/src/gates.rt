//! Gates: one that is always open, and one at which something changes before a delivery.
use crate::callers::Caller;
use hk_base::{Gate, Point};
use std::process::Abort;
use std::sync::{Mutex, Wait};
use turns::Turns;

/// A gate that does nothing.
pub struct OpenGate;

impl Gate for OpenGate {
    fn pass<R: Wait>(&self, _rt: &R, _point: Point) {}
}

/// What happens between the call for a batch and its delivery.
#[derive(Clone, Copy)]
pub enum Change {
    /// The key gets its next version.
    RollKey,
    /// The re-encryption of the zone is cancelled and submitted again.
    SubmitAgain,
    /// The file `/z/c` is deleted.
    DeleteFile,
}

/// A gate at which a caller makes a change before the first delivery.
pub struct ChangingGate<'a, S: Turns, R> {
    caller: Mutex<Option<Caller<'a, S, R>>>,
    change: Change,
}

impl<'a, S: Turns, R> ChangingGate<'a, S, R> {
    pub fn new(caller: Caller<'a, S, R>, change: Change) -> ChangingGate<'a, S, R> {
        ChangingGate {
            caller: Mutex::new(Some(caller)),
            change,
        }
    }
}

impl<'a, S: Turns, R> Drop for ChangingGate<'a, S, R> {
    fn drop(self) {
        let ChangingGate { caller, change: _ } = self;
        drop(caller);
    }
}

fn make<S: Turns, R: Wait + Abort + AllocGlobal>(mut caller: Caller<S, R>, change: Change) {
    match change {
        Change::RollKey => {
            caller.roll_key();
        }
        Change::SubmitAgain => {
            caller.cancel();
            caller.submit();
        }
        Change::DeleteFile => caller.delete_file("/z/c"),
    }
    drop(caller);
}

impl<S: Turns, R: Wait + Abort + AllocGlobal> Gate for ChangingGate<'_, S, R> {
    fn pass<Q: Wait>(&self, rt: &Q, point: Point) {
        if matches!(point, Point::BeforeDeliver) {
            let caller = self.caller.lock(rt).take();
            if let Some(caller) = caller {
                make(caller, self.change);
            }
        }
    }
}
