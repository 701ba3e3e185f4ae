//! Tickets, notes, batches and replies that are kept between events.
ghost use Rattle.std.specs.Prelude.{◌≡◌, ◌+◌, ◌<◌, Ok, length, option_map, vec_capacity, vec_len};
ghost use Rattle.std.specs.Option.{option_and_then};
ghost use Rattle.world_run.specs.Batches.{batch_reply_of, batches_after, walk_line};
ghost use Rattle.world_run.specs.Step.{ask_of};
ghost use Rattle.world_run.specs.World.{numbered};

use hk_events::Line;
use kms_core::Ticket;
use name_calls::{AskNote, KeyAnswer};
use name_core::Walked;
use reenc_update::BatchReply;
use reenc_walk::BatchNote;

/// A reply of the key management service, as far as a later event needs it.
#[derive(Drop)]
pub enum KeptReply {
    /// The reply to the call that an ask wanted: the id of the ask, and what the reply means for it.
    ToAsk { id: u64, answer: KeyAnswer },
    /// The reply to the call for a batch.
    ToBatch(BatchReply),
}

/// Returns the ticket with a number, from 1, or `None` if there is none.
pub fn ticket_numbered(tickets: &Vec<Ticket>, number: u32) -> Option<&Ticket>
    ensures { option_map (λ ticket. ticket.now) result ≡ numbered tickets.now.items number }
{
    if number == 0 {
        return None;
    }
    tickets.get(number as usize - 1)
}

/// Returns the note with a number, from 1, or `None` if there is none.
pub fn note_numbered(notes: &Vec<AskNote>, number: u32) -> Option<&AskNote>
    ensures { option_map (λ note. note.now) result ≡ numbered notes.now.items number }
{
    if number == 0 {
        return None;
    }
    notes.get(number as usize - 1)
}

/// Returns the batch with a number, from 1, or `None` if there is none.
pub fn batch_numbered(batches: &Vec<BatchNote>, number: u32) -> Option<&BatchNote>
    ensures { option_map (λ batch. batch.now) result ≡ numbered batches.now.items number }
{
    if number == 0 {
        return None;
    }
    batches.get(number as usize - 1)
}

/// Returns the reply with a number, from 1, or `None` if there is none.
fn reply_numbered(replies: &Vec<KeptReply>, number: u32) -> Option<&KeptReply>
    ensures { option_map (λ reply. reply.now) result ≡ numbered replies.now.items number }
{
    if number == 0 {
        return None;
    }
    replies.get(number as usize - 1)
}

fn ask_of(reply: &KeptReply) -> Option<(u64, KeyAnswer)>
    ensures { result ≡ ask_of reply.now }
{
    match reply {
        KeptReply::ToAsk { id, answer } => Some((*id, *answer)),
        KeptReply::ToBatch(_) => None,
    }
}

/// Returns the id of the ask that the reply with a number answers, and what the reply means for it.
/// Returns `None` if there is no such reply, or if it is to the call for a batch.
pub fn ask_answered(replies: &Vec<KeptReply>, number: u32) -> Option<(u64, KeyAnswer)>
    ensures { result ≡ option_and_then ask_of (numbered replies.now.items number) }
{
    match reply_numbered(replies, number) {
        None => None,
        Some(reply) => ask_of(reply),
    }
}

fn batch_reply_of(reply: &KeptReply) -> Option<&BatchReply>
    ensures { option_map (λ reply. reply.now) result ≡ batch_reply_of reply.now }
{
    match reply {
        KeptReply::ToAsk { .. } => None,
        KeptReply::ToBatch(reply) => Some(reply),
    }
}

/// Returns the reply with a number, if it is to the call for a batch. Returns `None` if there is no
/// such reply, or if it is to an ask.
pub fn batch_answered(replies: &Vec<KeptReply>, number: u32) -> Option<&BatchReply>
    ensures { option_map (λ reply. reply.now) result ≡
        option_and_then batch_reply_of (numbered replies.now.items number) }
{
    match reply_numbered(replies, number) {
        None => None,
        Some(reply) => batch_reply_of(reply),
    }
}

/// Returns a copy of a note.
pub fn again(note: &AskNote) -> AskNote
    ensures { result ≡ note.now }
{
    AskNote {
        id: note.id,
        want: note.want,
    }
}

/// Keeps the batch that a walk gave, if it gave one, and answers the walk. There must be room for the
/// batch.
pub fn keep_batch(batches: &mut Vec<BatchNote>, walked: Walked) -> Line
    requires room { vec_len batches.old < vec_capacity batches.old }
    ensures line { result ≡ walk_line (Ok walked) (length batches.old.items + 1) }
    ensures kept { batches.new.items ≡ batches_after walked batches.old.items }
{
    match walked {
        Walked::NoneLeft { outstanding } => Line::NoneLeft { outstanding },
        Walked::Completed => Line::Completed,
        Walked::Batch(batch) => {
            let files = batch.sent.as_slice().len() as u32;
            batches.push_reserved(batch);
            let number = batches.as_slice().len() as u64;
            Line::Batch { number, files }
        }
    }
}
