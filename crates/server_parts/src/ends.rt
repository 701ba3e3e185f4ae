//! The two ends of a connection, which can be closed while their owner still has them, and a handle on
//! it for others.
ghost use Rattle.std.specs.Prelude.{◌≡◌};

use hk_base::{Sink, Source};

/// The input of a connection.
pub trait CloseInput: Source {
    /// Closes the input. Nothing is read from it afterwards. It may first wait for the peer, up to a
    /// bound of its own, so that the peer gets what was written.
    fn close_input(&mut self)
        ensures left { Self.left self.new ≡ Self.left self.old }
        ensures faults { Self.faults self.new ≡ Self.faults self.old };
}

/// The output of a connection.
pub trait CloseOutput: Sink {
    /// Closes the output: the peer finds the end after what was written. Nothing is written to it
    /// afterwards.
    fn close_output(&mut self)
        ensures written { Self.written self.new ≡ Self.written self.old }
        ensures faults { Self.faults self.new ≡ Self.faults self.old };
}

/// A handle on a connection, for those who do not serve it. Contracts say nothing about what it does
/// to the connection.
pub trait HangUp {
    /// Ends the connection: its input ends where it would wait for a request. A request that is being
    /// read or answered is answered first. So is one of which bytes had come before the call.
    fn hang_up(&self);

    /// Returns since when the connection has waited for a request, in milliseconds of a clock that all
    /// connections of a door share. Returns `None` while a request is read or answered, and after the
    /// connection ended.
    fn waits_since(&self) -> Option<u64>;

    /// Returns whether both ends of the connection were closed.
    fn has_ended(&self) -> bool;
}
