//! A door: connections come in here, and are left here when they have ended.
ghost use Rattle.std.specs.Prelude.{◌≡◌, ◌≤◌, ◌<◌, ℕ, IfOk, IfSome, Ok, None, OnErr, OnOk};
ghost use Rattle.hk_base.specs.Faults.{HasCause};
ghost use Rattle.server_parts.specs.Doors.{DoorState, with_accepted, with_closed, with_left, with_port};

use crate::ends::{CloseInput, CloseOutput, HangUp};
use hk_base::{Ended, Failed};

/// A connection that came in.
#[derive(Drop)]
pub struct Accepted<I, O, H> {
    pub input: I,
    pub out: O,
    /// A handle on the connection, for those who do not serve it.
    pub handle: H,
}

/// Where connections come in, and where each is left when it has ended.
///
/// A connection is a source and a sink, which may move to a thread of their own. Whoever serves it
/// closes both once no more of its requests will be answered, the output first. The door counts the
/// connections that it accepted and those that were left. It may promise which ones these were; a
/// door over a network does not. It is closed once an accept has returned `None`.
pub trait Door {
    /// The input of a connection.
    type In: CloseInput + Send + Drop;
    /// The output of a connection.
    type Out: CloseOutput + Send + Drop;
    /// A handle on a connection.
    type Handle: HangUp + Send + Drop;

    /// The connections so far, as proofs see them.
    ghost state: { Self → DoorState Self.In Self.Out };

    /// The number of faults so far.
    ghost faults: { Self → ℕ };

    /// Starts to listen on a port.
    fn open(&mut self, port: u16) -> Result<(), Failed>
        ensures opened { OnOk result (state self.new ≡ with_port (state self.old) port) }
        ensures same { OnErr result (state self.new ≡ state self.old) }
        ensures cause { HasCause (faults self.old) (faults self.new) result };

    /// Waits for the next connection. Neither of its ends has counted a fault yet. Returns `None` if the
    /// door takes no more connections.
    fn accept(&mut self) -> Result<Option<Accepted<Self::In, Self::Out, Self::Handle>>, Failed>
        ensures some { IfOk result
            (λ next.
            IfSome next
            (λ came. state self.new ≡ with_accepted (state self.old) (came.input, came.out))) }
        ensures closed { result ≡ Ok None → state self.new ≡ with_closed (state self.old) }
        ensures none { OnErr result (state self.new ≡ state self.old) }
        ensures fresh { IfOk result
            (λ next.
            IfSome next
            (λ came. (Self.In.faults came.input ≡ 0) × (Self.Out.faults came.out ≡ 0))) }
        ensures cause { HasCause (faults self.old) (faults self.new) result };

    /// Takes back both ends of a connection and how it ended. This cannot fail.
    fn leave(&mut self, input: Self::In, out: Self::Out, ended: Ended)
        requires { (state self.old).left < (state self.old).accepted }
        ensures gone { state self.new ≡
            with_left (state self.old) (record { input = input; out = out; ended = ended }) }
        ensures faults { faults self.new ≡ faults self.old };

    /// No more connections were left than accepted.
    ghost no_more_left: { (door : Self) → (state door).left ≤ (state door).accepted };
}
