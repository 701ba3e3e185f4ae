//! Laws of whole commands: given what is in their grammars, over an outside that does not fail, they
//! do all that they are asked, unless there is no memory. The functions do nothing: their contracts
//! are the laws. They follow from clauses of `hkms`, for any values before a call and after it.
#![tactic(auto)]

ghost use Rattle.command_laws.specs.Laws.{CompletesPipe, CompletesReplay, CompletesServe};

mod given;

pub use given::Given;
use hk_base::{Clock, Disk, Sink, Source, Words};
use server_parts::{Door, Yard};

/// What `hkms` says of a replay in its clauses `replay`, `read`, `write`, `store` and `door` makes it
/// complete. If the properties, the lines and both logs are good, no count of faults rises, and no
/// restart finds the last opening of its log used, then all lines are played and the status is 0; or
/// the status is 6.
pub fn replays_are_complete<A: Source, S: Source, K: Sink, D: Disk, W: Words, C: Clock, P: Door>(
    before: &Given<D, A, S, K, W, C, P>,
    after: &Given<D, A, S, K, W, C, P>,
    status: u8,
)
    ensures { CompletesReplay D.Disk A.Source S.Source K.Sink W.Words P.Door
        before.now after.now status }
{}

/// The same of a connection, by the clause `pipe`: if the properties, the requests and both logs are
/// good, and no count of faults rises, all requests are answered and the status is 0, or the status
/// is 6. Good requests end with their input, or with one that closes the connection.
pub fn connections_are_complete<
    A: Source,
    S: Source,
    K: Sink,
    D: Disk,
    W: Words,
    C: Clock,
    P: Door,
>(before: &Given<D, A, S, K, W, C, P>, after: &Given<D, A, S, K, W, C, P>, status: u8)
    ensures { CompletesPipe D.Disk A.Source S.Source K.Sink W.Words P.Door
        before.now after.now status }
{}

/// The same of a server that returns, by the clause `serve`: if the properties and both logs of the yard
/// are good, and no count of faults rises, the status is 0, and all connections were served, unless the
/// door is closed; or the status is 6. If the door is closed, the connections may be those that came
/// before it took no more.
pub fn servers_are_complete<
    A: Source,
    S: Source,
    K: Sink,
    D: Disk,
    Y: Yard,
    W: Words,
    C: Clock,
    P: Door,
>(
    before: &Given<D, A, S, K, W, C, P>,
    after: &Given<D, A, S, K, W, C, P>,
    yard: &Y,
    yard_after: &Y,
    port: u16,
    conns: u32,
    status: u8,
)
    ensures { CompletesServe D.Disk A.Source S.Source K.Sink W.Words P.Door
        Y.Yard Y.Own.Disk P.In.Source P.Out.Sink
        before.now yard.now after.now yard_after.now port conns status }
{}
