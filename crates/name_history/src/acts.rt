//! The calls of the cell, and their replies.
use hk_base::Text;
use name_calls::{Answered, Ask, AskNote, Delivered, NPath, NameCall, NameRefusal, NameReply};
use name_core::Walked;
use reenc_update::BatchReply;

/// A call of the namesystem in a cell.
#[derive(Drop)]
pub enum NameAct {
    /// Makes a call of a user.
    Call { user: Text, call: NameCall },
    /// Asks for a change of a user that needs a call of the key management service in between.
    Ask { user: Text, ask: Ask },
    /// Finishes an ask. Its note must have been seen, and the reply must answer the call that the note
    /// wants. If there is a reply, a pass must be handed over that has got it.
    Finish { answered: Answered },
    /// Takes the next batch of a zone that is being re-encrypted.
    Walk { zone: NPath },
    /// Delivers the reply to the call for a batch, with the front of the walk that gave the batch. A pass
    /// must be handed over that has got the reply, with at least as many entries before it.
    Deliver { front: u64, reply: BatchReply },
}

/// The reply to a call: each is answered by a reply of its own kind.
#[derive(Drop)]
pub enum NameActed {
    Call(NameReply),
    Ask(Result<AskNote, NameRefusal>),
    Finish(Result<(), NameRefusal>),
    Walk(Result<Walked, NameRefusal>),
    Deliver(Result<Delivered, NameRefusal>),
}
