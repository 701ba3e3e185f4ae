//! Filling the queues of ready keys.
ghost use Rattle.kms_cell.specs.Fills.{FillsKeys, FillsTurn};
ghost use Rattle.kms_cell.specs.Tickets.{HasTicket};

use crate::calls::{KmsCell, KmsPass, deposit_key, take_ticket};
use hist_cell::Naming;
use hk_base::{Clock, Disk, Gate, Point, Words};
use kms_core::{Deposit, Ticket, draw_sealed};
use std::sync::Wait;

/// How a turn of a filler ended.
#[derive(Clone, Copy, Debug, PartialEq, Eq)]
pub enum FillTurn {
    /// The queue kept `kept` keys: as many as it wanted, or it was full before.
    Filled {
        kept: u16,
    },
    /// No queue was low.
    NothingLow,
    /// The opening, the birth or the version of the ticket was no longer current at a deposit. These
    /// are the current ones. The birth and the number are 0 if there is no key with the name.
    Stale {
        opening: u32,
        birth: u64,
        number: u16,
    },
}

/// Fills a low queue, if there is one: takes a ticket, passes the gate, and then deposits as many
/// keys as the ticket wants. It ends early at a key that is not kept. Each key is of a draw of its
/// own from `words`, and is sealed outside the lock. It may wait for the gate and the lock.
pub fn fill_turn<D: Disk, W: Words, C: Clock, N: Naming, R: Wait, V: Words, G: Gate>(
    rt: &R,
    cell: &KmsCell<D, W, C, N>,
    pass: &mut KmsPass<D, W, C, N>,
    words: &mut V,
    gate: &G,
) -> FillTurn
    ensures { FillsTurn D.state W.to_come (V.to_come words.old) (V.to_come words.new) pass.old
        result pass.new }
{
    let Some(ticket) = take_ticket(rt, cell, pass) else {
        return FillTurn::NothingLow;
    };
    gate.pass(rt, Point::BeforeSeal);
    fill_keys(rt, cell, pass, words, &ticket)
}

/// Deposits as many keys as a ticket wants, or up to the first that is not kept. The pass must have
/// seen the ticket.
pub fn fill_keys<D: Disk, W: Words, C: Clock, N: Naming, R: Wait, V: Words>(
    rt: &R,
    cell: &KmsCell<D, W, C, N>,
    pass: &mut KmsPass<D, W, C, N>,
    words: &mut V,
    ticket: &Ticket,
) -> FillTurn
    requires seen { HasTicket ticket.now pass.old.seen }
    ensures { FillsKeys D.state W.to_come ticket.now (V.to_come words.old) (V.to_come words.new)
        pass.old result pass.new }
{
    // The history that the pass has seen is legal.
    let _ = pass.count();
    for kept in 0..ticket.wanted {
        let sealed = draw_sealed(words, ticket);
        match deposit_key(rt, cell, pass, sealed) {
            Deposit::Kept => {}
            Deposit::Full => return FillTurn::Filled { kept },
            Deposit::Stale {
                opening,
                birth,
                number,
            } => {
                return FillTurn::Stale {
                    opening,
                    birth,
                    number,
                };
            }
        }
    }
    FillTurn::Filled {
        kept: ticket.wanted,
    }
}
