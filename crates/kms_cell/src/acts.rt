//! The calls of the cell, and their replies.
use eek_seal::Sealed;
use hk_base::Text;
use kms_calls::{KmsCall, KmsReply};
use kms_core::{Deposit, Ticket};

/// A call of the key management service in a cell.
#[derive(Drop)]
pub enum KmsAct {
    /// Makes a call of a user.
    Call { user: Text, call: KmsCall },
    /// Asks for a ticket for a low queue of ready keys.
    Ticket,
    /// Puts a ready key into the queue of its key. A ticket with which it was sealed must have been
    /// seen.
    Deposit { sealed: Sealed },
}

/// The reply to a call: each is answered by a reply of its own kind.
#[derive(Drop)]
pub enum KmsActed {
    Call(KmsReply),
    /// `None` if no queue is low.
    Ticket(Option<Ticket>),
    Deposit(Deposit),
}
