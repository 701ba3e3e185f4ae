//! Asking which zones are being re-encrypted.
ghost use Rattle.std.specs.Prelude.{◌≡◌, ◌∷◌, ◌++◌, [], cond, All, IfOk, OnOk, List};
ghost use Rattle.name_history.specs.Entries.{NameEntry};
ghost use Rattle.cell_workers.specs.Rounds.{AsksAbout, HadMemory, ListsZones, ShowsStatus, goes_on, is_open, zones_in};
ghost use Rattle.cell_workers.specs.Work.{IsNameWork};
ghost use Rattle.turns.specs.Entries.{NamesMake};

use hk_base::{Listing, NoMemory};
use name_calls::{NPath, NameCall, NameRefusal, NameReply, State, ZoneList, ZonePath};
use name_core::superuser;
use std::alloc::Global;
use std::sync::Wait;
use turns::Turns;

/// Returns the zones that a reply lists.
fn zones_in(alloc: Global, reply: NameReply) -> Result<ZoneList, NoMemory>
    ensures { IfOk result (λ zones. (zones ≡ zones_in reply) × HadMemory reply) }
{
    match reply {
        NameReply::Zones(zones) => Ok(zones),
        NameReply::Refused(NameRefusal::NoMemory) => Err(NoMemory),
        _ => Ok(ZoneList::new(alloc)),
    }
}

fn is_open(state: State) -> bool
    ensures { result ≡ is_open state }
{
    match state {
        State::Submitted => true,
        State::Processing => true,
        State::Completed => false,
    }
}

/// Returns whether a reply shows a re-encryption that has not ended.
fn goes_on(reply: &NameReply) -> Result<bool, NoMemory>
    ensures { IfOk result (λ going. (going ≡ goes_on reply.now) × HadMemory reply.now) }
{
    match reply {
        NameReply::Status(Some(status)) => Ok(is_open(status.state)),
        NameReply::Refused(NameRefusal::NoMemory) => Err(NoMemory),
        _ => Ok(false),
    }
}

/// Asks for the zones as the superuser. Returns `NoMemory` if allocation fails, here or in the service.
pub fn list_zones<S: Turns, R: Wait>(
    rt: &R,
    alloc: Global,
    shared: &S,
    names: &mut S::Names,
) -> Result<ZoneList, NoMemory>
    ensures { (made : List (NameEntry S.D S.W)) ×
        NamesMake S.state S.to_come (S.names_seen names.old) made (S.names_seen names.new)
        × All IsNameWork made × IfOk result (λ zones. ListsZones zones made) }
{
    // The history that the pass has seen is legal.
    let _ = shared.count_names(names);
    let user = superuser(alloc)?;
    let reply = shared.call_names(rt, names, user, NameCall::Zones);
    zones_in(alloc, reply)
}

/// Asks for the status of a zone as the superuser, and returns whether it is still being
/// re-encrypted. Returns `NoMemory` if allocation fails, here or in the service.
pub fn is_going<S: Turns, R: Wait>(
    rt: &R,
    alloc: Global,
    shared: &S,
    names: &mut S::Names,
    zone: &NPath,
) -> Result<bool, NoMemory>
    ensures { (made : List (NameEntry S.D S.W)) ×
        NamesMake S.state S.to_come (S.names_seen names.old) made (S.names_seen names.new)
        × All IsNameWork made × IfOk result (λ going. ShowsStatus zone.now going made) }
{
    // The history that the pass has seen is legal.
    let _ = shared.count_names(names);
    let user = superuser(alloc)?;
    let path = zone.copy(alloc)?;
    let reply = shared.call_names(rt, names, user, NameCall::Status { path });
    let going = goes_on(&reply);
    drop(reply);
    going
}

/// Adds a copy of a path at the end, if `wanted`.
fn add_if(
    alloc: Global,
    paths: &mut Listing<NPath>,
    wanted: bool,
    path: &NPath,
) -> Result<(), NoMemory>
    ensures { OnOk result (paths.new ≡ paths.old ++ cond wanted (path.now ∷ []) []) }
{
    if wanted {
        let path = path.copy(alloc)?;
        paths.push(path)?;
    }
    Ok(())
}

/// Asks for the status of each zone as the superuser, and returns the paths of those that are still
/// being re-encrypted. Returns `NoMemory` if allocation fails, here or in the service.
pub fn going_zones<S: Turns, R: Wait>(
    rt: &R,
    alloc: Global,
    shared: &S,
    names: &mut S::Names,
    zones: &[ZonePath],
) -> Result<Listing<NPath>, NoMemory>
    ensures { (made : List (NameEntry S.D S.W)) ×
        NamesMake S.state S.to_come (S.names_seen names.old) made (S.names_seen names.new)
        × All IsNameWork made × IfOk result (λ going. AsksAbout zones.now made going) }
{
    // The history that the pass has seen is legal.
    let _ = shared.count_names(names);
    let mut going = Listing::new(alloc);
    for zone in zones {
        let shown = is_going(rt, alloc, shared, names, &zone.path)?;
        add_if(alloc, &mut going, shown, &zone.path)?;
    }
    Ok(going)
}
