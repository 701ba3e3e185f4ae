//! Lines of asks and walks.
ghost use Rattle.std.specs.Prelude.{◌∷◌, ℕ, List, IfOk, MatchOption, codes};
ghost use Rattle.replay_text.specs.Events.{SpellsAskPath, SpellsAskZone, SpellsEvent, SpellsNoAsk, SpellsWalk, fields_of};

use crate::fields::{cut, only_field, read_escaped, read_user};
use hk_base::{KeyName, NoMemory};
use hk_events::Event;
use std::alloc::Global;

/// Reads `ask U`, a verb and its fields, from after `ask`.
pub fn read_ask(alloc: Global, fields: &[u8]) -> Result<Option<Event>, NoMemory>
    ensures { IfOk result
        (λ found.
        MatchOption found (SpellsNoAsk (codes "ask" ∷ fields_of fields.now))
        (SpellsEvent (codes "ask" ∷ fields_of fields.now))) }
{
    let (user, rest) = cut(fields);
    let Some(rest) = rest else {
        return Ok(None);
    };
    let (verb, rest) = cut(rest);
    let Some(rest) = rest else {
        return Ok(None);
    };
    if verb == b"create".as_slice() {
        return read_create(alloc, user, rest);
    }
    if verb == b"submit".as_slice() {
        return read_submit(alloc, user, rest);
    }
    if verb == b"zone".as_slice() {
        return read_zone(alloc, user, rest);
    }
    Ok(None)
}

/// Reads `ask U create P`, from after `create`.
fn read_create(alloc: Global, user: &[u8], fields: &[u8]) -> Result<Option<Event>, NoMemory>
    ensures { IfOk result
        (λ found.
        MatchOption found
        ((who path : List ℕ) →
        ¬ SpellsAskPath (codes "create")
        (codes "ask" ∷ user.now ∷ codes "create" ∷ fields_of fields.now) who path)
        (SpellsEvent (codes "ask" ∷ user.now ∷ codes "create" ∷ fields_of fields.now))) }
{
    let Some(path) = only_field(fields) else {
        return Ok(None);
    };
    let Some(user) = read_user(alloc, user)? else {
        return Ok(None);
    };
    let Some(path) = read_escaped(alloc, path)? else {
        return Ok(None);
    };
    Ok(Some(Event::AskCreate { user, path }))
}

/// Reads `ask U submit P`, from after `submit`.
fn read_submit(alloc: Global, user: &[u8], fields: &[u8]) -> Result<Option<Event>, NoMemory>
    ensures { IfOk result
        (λ found.
        MatchOption found
        ((who path : List ℕ) →
        ¬ SpellsAskPath (codes "submit")
        (codes "ask" ∷ user.now ∷ codes "submit" ∷ fields_of fields.now) who path)
        (SpellsEvent (codes "ask" ∷ user.now ∷ codes "submit" ∷ fields_of fields.now))) }
{
    let Some(path) = only_field(fields) else {
        return Ok(None);
    };
    let Some(user) = read_user(alloc, user)? else {
        return Ok(None);
    };
    let Some(path) = read_escaped(alloc, path)? else {
        return Ok(None);
    };
    Ok(Some(Event::AskSubmit { user, path }))
}

/// Reads `ask U zone P K`, from after `zone`.
fn read_zone(alloc: Global, user: &[u8], fields: &[u8]) -> Result<Option<Event>, NoMemory>
    ensures { IfOk result
        (λ found.
        MatchOption found
        ((who path key : List ℕ) →
        ¬ SpellsAskZone (codes "ask" ∷ user.now ∷ codes "zone" ∷ fields_of fields.now) who
        path key)
        (SpellsEvent (codes "ask" ∷ user.now ∷ codes "zone" ∷ fields_of fields.now))) }
{
    let (path, rest) = cut(fields);
    let Some(rest) = rest else {
        return Ok(None);
    };
    let Some(key) = only_field(rest) else {
        return Ok(None);
    };
    let Some(key) = KeyName::read(key) else {
        return Ok(None);
    };
    let Some(user) = read_user(alloc, user)? else {
        return Ok(None);
    };
    let Some(path) = read_escaped(alloc, path)? else {
        return Ok(None);
    };
    Ok(Some(Event::AskZone { user, path, key }))
}

/// Reads `walk P`, from after `walk`.
pub fn read_walk(alloc: Global, fields: &[u8]) -> Result<Option<Event>, NoMemory>
    ensures { IfOk result
        (λ found.
        MatchOption found
        ((path : List ℕ) → ¬ SpellsWalk (codes "walk" ∷ fields_of fields.now) path)
        (SpellsEvent (codes "walk" ∷ fields_of fields.now))) }
{
    let Some(path) = only_field(fields) else {
        return Ok(None);
    };
    let Some(path) = read_escaped(alloc, path)? else {
        return Ok(None);
    };
    Ok(Some(Event::Walk { path }))
}
