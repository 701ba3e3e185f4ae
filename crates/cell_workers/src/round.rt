//! The last round.
ghost use Rattle.std.specs.Prelude.{◌≡◌, List, OnOk};
ghost use Rattle.name_history.specs.Entries.{NameEntry};
ghost use Rattle.cell_workers.specs.Rounds.{IsLastRound};
ghost use Rattle.turns.specs.Entries.{NamesMake};

use crate::asks::{going_zones, list_zones};
use crate::walks::walk_through_all;
use hk_base::{Gate, NoMemory};
use std::alloc::Global;
use std::sync::Wait;
use turns::Turns;

/// Finishes re-encryptions that workers left: lists the zones and asks for the status of each, as the
/// superuser, and then walks through each zone that is still being re-encrypted. Each batch is served
/// and delivered before the next walk. The walks of a zone end if there is no further batch or a
/// delivery is refused. Returns `NoMemory` if allocation fails outside a walk, no pass can be lent for
/// one, or Zones or Status answers so. It may wait for the gate and the locks.
pub fn last_round<S: Turns, R: Wait, G: Gate>(
    rt: &R,
    alloc: Global,
    shared: &S,
    names: &mut S::Names,
    gate: &G,
) -> Result<(), NoMemory>
    ensures { (made : List (NameEntry S.D S.W)) ×
        NamesMake S.state S.to_come (S.names_seen names.old) made (S.names_seen names.new) ×
        OnOk result (IsLastRound made) }
{
    let zones = list_zones(rt, alloc, shared, names)?;
    let going = going_zones(rt, alloc, shared, names, zones.as_slice());
    drop(zones);
    let going = going?;
    let walked = walk_through_all(rt, alloc, shared, names, going.as_slice(), gate);
    drop(going);
    walked
}
