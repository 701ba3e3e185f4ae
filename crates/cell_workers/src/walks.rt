//! Walking through zones that are still being re-encrypted, in one thread.
ghost use Rattle.std.specs.Prelude.{◌≡◌, List, IfOk, OnOk};
ghost use Rattle.name_history.specs.Entries.{NameEntry};
ghost use Rattle.cell_workers.specs.Rounds.{WalkedOn, Walks, WalksAll, batch_of};
ghost use Rattle.turns.specs.Entries.{NamesMake};

use hk_base::{Gate, NoMemory};
use name_calls::{NPath, NameRefusal};
use name_core::Walked;
use reenc_walk::BatchNote;
use std::alloc::Global;
use std::sync::Wait;
use turns::{Lent, Turns};

/// Returns the batch that a walk gave.
fn batch_of(gave: Result<Walked, NameRefusal>) -> Option<BatchNote>
    ensures { result ≡ batch_of gave }
{
    match gave {
        Ok(Walked::Batch(batch)) => Some(batch),
        _ => None,
    }
}

/// Walks through a zone once, has the batch served, if there is one, and delivers what came of it.
/// Returns whether to walk on, or `NoMemory` if no pass can be lent.
fn walk_once<S: Turns, R: Wait, G: Gate>(
    rt: &R,
    alloc: Global,
    shared: &S,
    names: &mut S::Names,
    zone: NPath,
    gate: &G,
) -> Result<bool, NoMemory>
    ensures { (made : List (NameEntry S.D S.W)) ×
        NamesMake S.state S.to_come (S.names_seen names.old) made (S.names_seen names.new)
        × IfOk result (λ on. WalkedOn on zone made) }
{
    // The history that the pass has seen is legal.
    let _ = shared.count_names(names);
    let lent = shared.walk_turn(rt, names, zone)?;
    let Lent {
        walked,
        front,
        keys,
    } = lent;
    let mut keys = keys;
    let Some(batch) = batch_of(walked) else {
        drop(keys);
        return Ok(false);
    };
    let reply = shared.serve_turn(rt, alloc, &mut keys, batch, gate);
    match shared.update_turn(rt, names, keys, front, reply, gate) {
        Ok(_) => Ok(true),
        Err(_) => Ok(false),
    }
}

/// Walks through a zone until there is no further batch, or a delivery is refused. Each batch is
/// served and delivered before the next walk. Returns `NoMemory` if a copy of the path fails or no pass
/// can be lent.
fn walk_through<S: Turns, R: Wait, G: Gate>(
    rt: &R,
    alloc: Global,
    shared: &S,
    names: &mut S::Names,
    zone: &NPath,
    gate: &G,
) -> Result<(), NoMemory>
    ensures { (made : List (NameEntry S.D S.W)) ×
        NamesMake S.state S.to_come (S.names_seen names.old) made (S.names_seen names.new)
        × OnOk result (Walks zone.now made) }
{
    // The history that the pass has seen is legal.
    let _ = shared.count_names(names);
    for _ in rt.forever() {
        let path = zone.copy(alloc)?;
        let on = walk_once(rt, alloc, shared, names, path, gate)?;
        if !on {
            return Ok(());
        }
    }
    unreachable!()
}

/// Walks through these zones, one after another.
pub fn walk_through_all<S: Turns, R: Wait, G: Gate>(
    rt: &R,
    alloc: Global,
    shared: &S,
    names: &mut S::Names,
    zones: &[NPath],
    gate: &G,
) -> Result<(), NoMemory>
    ensures { (made : List (NameEntry S.D S.W)) ×
        NamesMake S.state S.to_come (S.names_seen names.old) made (S.names_seen names.new)
        × OnOk result (WalksAll zones.now made) }
{
    // The history that the pass has seen is legal.
    let _ = shared.count_names(names);
    for zone in zones {
        walk_through(rt, alloc, shared, names, zone, gate)?;
    }
    Ok(())
}
