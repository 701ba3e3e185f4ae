//! Calls of the service in its cell.
ghost use Rattle.std.specs.Prelude.{◌≡◌};
ghost use Rattle.hist_cell.specs.History.{Closes};
ghost use Rattle.eek_seal.specs.declared.deposit.Deposit.{Deposit as AnAnswer};
ghost use Rattle.eek_seal.specs.declared.tickets.Ticket.{Ticket as ATicket};
ghost use Rattle.kms_calls.specs.declared.calls.KmsReply.{KmsReply as AReply};
ghost use Rattle.std.specs.Prelude.{Option as AnOption};
ghost use Rattle.kms_cell.specs.Entries.{Makes};
ghost use Rattle.kms_cell.specs.Steps.{KmsSteps};
ghost use Rattle.kms_cell.specs.Tickets.{HasTicket, IsSealedWith, KmsAllows};
ghost use Rattle.kms_cell.specs.Views.{KmsView, RunsOn};

use crate::acts::{KmsAct, KmsActed};
use crate::side::KmsSide;
use eek_seal::Sealed;
use hist_cell::{Cell, Naming, Pass};
use hk_base::{Clock, Disk, Text, Words};
use kms_calls::{KmsCall, KmsReply};
use kms_core::{Deposit, Kms, Ticket};
use std::sync::Wait;

/// The cell of the key management service.
pub type KmsCell<D, W, C, N> = Cell<KmsSide<D, W, C>, N>;

/// A pass of that cell.
pub type KmsPass<D, W, C, N> = Pass<KmsSide<D, W, C>, N>;

fn reply_in(acted: KmsActed) -> KmsReply
    requires { (reply : AReply) × (acted ≡ KmsActed.Call reply) }
    ensures { acted ≡ KmsActed.Call result }
{
    match acted {
        KmsActed::Call(reply) => reply,
        _ => unreachable!(),
    }
}

fn ticket_in(acted: KmsActed) -> Option<Ticket>
    requires { (ticket : AnOption ATicket) × (acted ≡ KmsActed.Ticket ticket) }
    ensures { acted ≡ KmsActed.Ticket result }
{
    match acted {
        KmsActed::Ticket(ticket) => ticket,
        _ => unreachable!(),
    }
}

fn answer_in(acted: KmsActed) -> Deposit
    requires { (answer : AnAnswer) × (acted ≡ KmsActed.Deposit answer) }
    ensures { acted ≡ KmsActed.Deposit result }
{
    match acted {
        KmsActed::Deposit(answer) => answer,
        _ => unreachable!(),
    }
}

/// Makes a call of a user. It may wait for the lock.
pub fn call_keys<D: Disk, W: Words, C: Clock, N: Naming, R: Wait>(
    rt: &R,
    cell: &KmsCell<D, W, C, N>,
    pass: &mut KmsPass<D, W, C, N>,
    user: Text,
    call: KmsCall,
) -> KmsReply
    ensures { Makes D.state W.to_come pass.old (KmsAct.Call user call) (KmsActed.Call result)
        pass.new }
{
    let acted = cell.act(rt, pass, KmsAct::Call { user, call });
    reply_in(acted)
}

/// Takes a ticket for a low queue of ready keys. Returns `None` if no queue is low. It may wait for
/// the lock.
pub fn take_ticket<D: Disk, W: Words, C: Clock, N: Naming, R: Wait>(
    rt: &R,
    cell: &KmsCell<D, W, C, N>,
    pass: &mut KmsPass<D, W, C, N>,
) -> Option<Ticket>
    ensures { Makes D.state W.to_come pass.old KmsAct.Ticket (KmsActed.Ticket result) pass.new }
{
    let acted = cell.act(rt, pass, KmsAct::Ticket);
    ticket_in(acted)
}

/// Puts a ready key into the queue of its key. The pass must have seen the ticket with which it was
/// sealed. It may wait for the lock.
pub fn deposit_key<D: Disk, W: Words, C: Clock, N: Naming, R: Wait>(
    rt: &R,
    cell: &KmsCell<D, W, C, N>,
    pass: &mut KmsPass<D, W, C, N>,
    sealed: Sealed,
) -> Deposit
    requires seen { (ticket : ATicket) × HasTicket ticket pass.old.seen ×
        IsSealedWith ticket sealed }
    ensures { Makes D.state W.to_come pass.old (KmsAct.Deposit sealed) (KmsActed.Deposit result)
        pass.new }
{
    let acted = cell.act(rt, pass, KmsAct::Deposit { sealed });
    answer_in(acted)
}

/// Ends the cell and returns the service and its disk, after the whole history. Other passes may have
/// been dropped.
pub fn close_keys<D: Disk, W: Words + Drop, C: Clock + Drop, N: Naming>(
    cell: KmsCell<D, W, C, N>,
    pass: KmsPass<D, W, C, N>,
) -> (Kms, D)
    ensures closes { (last : KmsView D W) ×
        Closes (KmsSteps D.state W.to_come) KmsAllows pass last × (result.0 ≡ last.kms) ×
        (result.1 ≡ last.disk) }
    ensures runs { RunsOn (D.state result.1) result.0 }
{
    let side = cell.close(pass);
    side.into_parts()
}
