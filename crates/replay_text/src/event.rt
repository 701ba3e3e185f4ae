//! Event lines.
ghost use Rattle.std.specs.Prelude.{◌≡◌, ◌≢◌, ◌≤◌, ◌⊎◌, ◌∷◌, [], ℕ, List, length, codes, IfOk, MatchOption, MatchResult};
ghost use Rattle.kms_calls.specs.declared.calls.KmsCall.{KmsCall};
ghost use Rattle.replay_text.specs.Events.{IsBad, IsPathEvent, IsPathVerb, IsQuietLine, IsTwoFieldEvent, IsTwoFieldVerb, SpellsEvent, SpellsKms, SpellsLine, SpellsPath, SpellsRestart, SpellsTicket, SpellsTwoFields, SpellsZones, fields_of};
ghost use Rattle.hk_events.specs.declared.event.Event.{Event};
ghost use Rattle.hk_events.specs.declared.event.Event.TheVariants as event;

use crate::asks::{read_ask, read_walk};
use crate::calls::read_call;
use crate::fields::{cut, only_field, read_escaped, read_user};
use crate::numbers::read_number_event;
use hk_base::{ByteList, NoMemory, Text};
use hk_events::Event;
use std::alloc::Global;

/// Why no event is returned for a line.
#[derive(Clone, Copy, Debug, PartialEq, Eq)]
pub enum LineFault {
    /// The line is neither an event nor quiet.
    BadLine,
    /// An allocation failed.
    NoMemory,
}

/// Returns the event of a line, or `None` if the line is empty or a comment.
pub fn read_event(alloc: Global, line: &[u8]) -> Result<Option<Event>, LineFault>
    requires { length line.now ≤ 1048576 }
    ensures { MatchResult result (λ found. MatchOption found (IsQuietLine line.now) (SpellsLine line.now))
        (λ fault. fault ≡ LineFault.BadLine → IsBad line.now) }
{
    if line.is_empty() {
        return Ok(None);
    }
    if line[0] == b'#' {
        return Ok(None);
    }
    match read_spelled(alloc, line) {
        Err(_) => Err(LineFault::NoMemory),
        Ok(None) => Err(LineFault::BadLine),
        Ok(Some(event)) => Ok(Some(event)),
    }
}

/// Returns the event that a line spells, or `None` if it spells none.
fn read_spelled(alloc: Global, line: &[u8]) -> Result<Option<Event>, NoMemory>
    ensures { IfOk result
        (λ found.
        MatchOption found ((event : Event) → ¬ SpellsEvent (fields_of line.now) event)
        (SpellsEvent (fields_of line.now))) }
{
    let (first, rest) = cut(line);
    let Some(rest) = rest else {
        return Ok(read_bare_event(first));
    };
    if first == b"kms".as_slice() {
        return read_kms_event(alloc, rest);
    }
    if first == b"restart".as_slice() {
        return Ok(read_restart(rest));
    }
    if first == b"nn".as_slice() {
        return read_name_event(alloc, rest);
    }
    if first == b"ask".as_slice() {
        return read_ask(alloc, rest);
    }
    if first == b"walk".as_slice() {
        return read_walk(alloc, rest);
    }
    Ok(read_number_event(first, rest))
}

/// Returns the event of a line that is one field.
fn read_bare_event(field: &[u8]) -> Option<Event>
    ensures { MatchOption result (¬ SpellsTicket (field.now ∷ [])) (SpellsEvent (field.now ∷ [])) }
{
    if field == b"ticket".as_slice() {
        return Some(Event::Ticket);
    }
    None
}

/// Reads `kms U` and a call, from after `kms`.
fn read_kms_event(alloc: Global, fields: &[u8]) -> Result<Option<Event>, NoMemory>
    ensures { IfOk result
        (λ found.
        MatchOption found
        ((user : List ℕ) (call : KmsCall) →
        ¬ SpellsKms (codes "kms" ∷ fields_of fields.now) user call)
        (SpellsEvent (codes "kms" ∷ fields_of fields.now))) }
{
    let (user, rest) = cut(fields);
    let Some(rest) = rest else {
        return Ok(None);
    };
    let Some(user) = read_user(alloc, user)? else {
        return Ok(None);
    };
    let Some(call) = read_call(alloc, rest)? else {
        return Ok(None);
    };
    Ok(Some(Event::Kms { user, call }))
}

/// Reads `restart kms` or `restart nn`, from after `restart`.
fn read_restart(fields: &[u8]) -> Option<Event>
    ensures { MatchOption result
        (¬ SpellsRestart (codes "kms") (codes "restart" ∷ fields_of fields.now) ×
        ¬ SpellsRestart (codes "nn") (codes "restart" ∷ fields_of fields.now))
        (SpellsEvent (codes "restart" ∷ fields_of fields.now)) }
{
    let Some(service) = only_field(fields) else {
        return None;
    };
    if service == b"kms".as_slice() {
        return Some(Event::RestartKms);
    }
    if service == b"nn".as_slice() {
        return Some(Event::RestartName);
    }
    None
}

/// Reads `nn U`, a verb and its fields, from after `nn`.
fn read_name_event(alloc: Global, fields: &[u8]) -> Result<Option<Event>, NoMemory>
    ensures { IfOk result
        (λ found.
        MatchOption found
        ((event : Event) → ¬ SpellsEvent (codes "nn" ∷ fields_of fields.now) event)
        (SpellsEvent (codes "nn" ∷ fields_of fields.now))) }
{
    let (user, rest) = cut(fields);
    let Some(rest) = rest else {
        return Ok(None);
    };
    let (verb, rest) = cut(rest);
    match rest {
        None => read_zones(alloc, user, verb),
        Some(rest) => read_path_event(alloc, user, verb, rest),
    }
}

/// Reads `nn U zones`, whose fields are given.
fn read_zones(alloc: Global, user: &[u8], verb: &[u8]) -> Result<Option<Event>, NoMemory>
    ensures { IfOk result
        (λ found.
        MatchOption found
        ((who : List ℕ) → ¬ SpellsZones (codes "nn" ∷ user.now ∷ verb.now ∷ []) who)
        (SpellsEvent (codes "nn" ∷ user.now ∷ verb.now ∷ []))) }
{
    if verb != b"zones".as_slice() {
        return Ok(None);
    }
    let Some(user) = read_user(alloc, user)? else {
        return Ok(None);
    };
    Ok(Some(Event::Zones { user }))
}

/// Reads `nn U`, a verb, a path, and perhaps another path or the name of a snapshot, from after the verb.
fn read_path_event(
    alloc: Global,
    user: &[u8],
    verb: &[u8],
    fields: &[u8],
) -> Result<Option<Event>, NoMemory>
    ensures { IfOk result
        (λ found.
        MatchOption found
        ((event : Event) →
        ¬ SpellsEvent (codes "nn" ∷ user.now ∷ verb.now ∷ fields_of fields.now) event)
        (SpellsEvent (codes "nn" ∷ user.now ∷ verb.now ∷ fields_of fields.now))) }
{
    let (path, rest) = cut(fields);
    match rest {
        None => read_path_call(alloc, user, verb, path),
        Some(rest) => read_two_field_call(alloc, user, verb, path, rest),
    }
}

/// Reads `nn U`, a verb and a path, whose fields are given.
fn read_path_call(
    alloc: Global,
    user: &[u8],
    verb: &[u8],
    path: &[u8],
) -> Result<Option<Event>, NoMemory>
    ensures { IfOk result
        (λ found.
        MatchOption found
        ((word who p : List ℕ) → IsPathVerb word →
        ¬ SpellsPath word (codes "nn" ∷ user.now ∷ verb.now ∷ path.now ∷ []) who p)
        (SpellsEvent (codes "nn" ∷ user.now ∷ verb.now ∷ path.now ∷ []))) }
{
    let Some(user) = read_user(alloc, user)? else {
        return Ok(None);
    };
    let Some(path) = read_escaped(alloc, path)? else {
        return Ok(None);
    };
    Ok(path_event(verb, user, path))
}

/// Reads `nn U`, a verb, a path, and another path or the name of a snapshot, from after the path.
fn read_two_field_call(
    alloc: Global,
    user: &[u8],
    verb: &[u8],
    path: &[u8],
    fields: &[u8],
) -> Result<Option<Event>, NoMemory>
    ensures { IfOk result
        (λ found.
        MatchOption found
        ((word who p second : List ℕ) → IsTwoFieldVerb word →
        ¬ SpellsTwoFields word
        (codes "nn" ∷ user.now ∷ verb.now ∷ path.now ∷ fields_of fields.now) who p second)
        (SpellsEvent (codes "nn" ∷ user.now ∷ verb.now ∷ path.now ∷ fields_of fields.now))) }
{
    let Some(second) = only_field(fields) else {
        return Ok(None);
    };
    let Some(user) = read_user(alloc, user)? else {
        return Ok(None);
    };
    let Some(path) = read_escaped(alloc, path)? else {
        return Ok(None);
    };
    let Some(second) = read_escaped(alloc, second)? else {
        return Ok(None);
    };
    Ok(two_field_event(verb, user, path, second))
}

/// Returns the event of a verb that takes a path, and another path or the name of a snapshot, or
/// `None` if there is no such verb.
fn two_field_event(verb: &[u8], user: Text, path: ByteList, second: ByteList) -> Option<Event>
    ensures { MatchOption result (¬ IsTwoFieldVerb verb.now)
        (IsTwoFieldEvent verb.now user path second) }
{
    if verb == b"rename".as_slice() {
        return Some(Event::Rename {
            user,
            path,
            to: second,
        });
    }
    if verb == b"snap".as_slice() {
        return Some(Event::Snap {
            user,
            path,
            name: second,
        });
    }
    if verb == b"unsnap".as_slice() {
        return Some(Event::Unsnap {
            user,
            path,
            name: second,
        });
    }
    None
}

/// Returns the event of a verb that takes a path alone, or `None` if there is no such verb.
fn path_event(verb: &[u8], user: Text, path: ByteList) -> Option<Event>
    ensures { MatchOption result (¬ IsPathVerb verb.now) (IsPathEvent verb.now user path) }
{
    if verb == b"mkdir".as_slice() {
        return Some(Event::Mkdir { user, path });
    }
    if verb == b"delete".as_slice() {
        return Some(Event::Delete {
            user,
            path,
            recursive: false,
        });
    }
    if verb == b"rdelete".as_slice() {
        return Some(Event::Delete {
            user,
            path,
            recursive: true,
        });
    }
    if verb == b"info".as_slice() {
        return Some(Event::Info { user, path });
    }
    if verb == b"list".as_slice() {
        return Some(Event::List { user, path });
    }
    if verb == b"allow".as_slice() {
        return Some(Event::Allow { user, path });
    }
    if verb == b"disallow".as_slice() {
        return Some(Event::Disallow { user, path });
    }
    if verb == b"cancel".as_slice() {
        return Some(Event::Cancel { user, path });
    }
    if verb == b"status".as_slice() {
        return Some(Event::Status { user, path });
    }
    None
}
