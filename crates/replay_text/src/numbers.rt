//! Lines of a verb and the number of a ticket, ask, reply or batch.
ghost use Rattle.std.specs.Prelude.{◌≡◌, ◌<◌, ◌^◌, ◌∷◌, [], ℕ, List, MatchOption};
ghost use Rattle.std.specs.Fmt.{decimal};
ghost use Rattle.replay_text.specs.Events.{IsNumberEvent, IsNumberVerb, SpellsEvent, SpellsKept, fields_of};

use crate::fields::{only_field, read_small_number};
use hk_events::Event;

/// Reads a verb and a number, from after the verb, which is given.
pub fn read_number_event(verb: &[u8], fields: &[u8]) -> Option<Event>
    ensures { MatchOption result
        ((word : List ℕ) (number : ℕ) → IsNumberVerb word →
        ¬ SpellsKept word (verb.now ∷ fields_of fields.now) number)
        (SpellsEvent (verb.now ∷ fields_of fields.now)) }
{
    let Some(number) = only_number(fields) else {
        return None;
    };
    number_event(verb, number)
}

/// Returns the event of a verb that takes a number alone, or `None` if there is no such verb.
fn number_event(verb: &[u8], number: u32) -> Option<Event>
    ensures { MatchOption result (¬ IsNumberVerb verb.now) (IsNumberEvent verb.now number) }
{
    if verb == b"deposit".as_slice() {
        return Some(Event::Deposit { ticket: number });
    }
    if verb == b"draw".as_slice() {
        return Some(Event::Draw { ask: number });
    }
    if verb == b"finish".as_slice() {
        return Some(Event::Finish { reply: number });
    }
    if verb == b"serve".as_slice() {
        return Some(Event::Serve { batch: number });
    }
    if verb == b"deliver".as_slice() {
        return Some(Event::Deliver { reply: number });
    }
    if verb == b"giveup".as_slice() {
        return Some(Event::GiveUp { batch: number });
    }
    None
}

/// Returns the number below 2^32 that the only field spells. Returns `None` for several fields or
/// another spelling.
fn only_number(fields: &[u8]) -> Option<u32>
    ensures { MatchOption result ((n : ℕ) → n < 2 ^ 32 → ¬ (fields_of fields.now ≡ decimal n ∷ []))
        (λ n. (n < 2 ^ 32) × (fields_of fields.now ≡ decimal n ∷ [])) }
{
    let Some(field) = only_field(fields) else {
        return None;
    };
    read_small_number(field)
}
