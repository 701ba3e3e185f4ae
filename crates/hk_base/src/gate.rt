//! Points at which a test may hold a worker.
use std::sync::Wait;

/// What a worker is about to do when it passes a gate.
#[derive(Clone, Copy)]
pub enum Point {
    /// A filler seals the keys of a ticket.
    BeforeSeal,
    /// A batch worker has a batch re-encrypted.
    BeforeServe,
    /// The updater delivers what became of a batch.
    BeforeDeliver,
    /// A connection's worker writes a response.
    BeforeReply,
}

/// What workers pass between their calls, outside every lock. A server takes one that never waits; a
/// test takes one that holds a worker until another has come to a certain point. Passing cannot fail,
/// it may wait, and nothing else follows from it.
pub trait Gate {
    /// Passes the gate at a point.
    fn pass<R: Wait>(&self, rt: &R, point: Point);
}
