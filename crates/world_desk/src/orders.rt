//! Orders as events of the world.
ghost use Rattle.std.specs.Prelude.{ℕ, List, option_map};
ghost use Rattle.hk_serve.specs.Transactions.{OfNames};
ghost use Rattle.kms_acls.specs.Agreement.{AreListsOf};
ghost use Rattle.prop_text.specs.declared.lines.PropLine.{PropLine};
ghost use Rattle.world_run.specs.Drives.{Leads};
ghost use Rattle.world_run.specs.Keeps.{is_restart};
ghost use Rattle.world_desk.specs.Advances.{IsAfter};
ghost use Rattle.world_desk.specs.Worlds.{Carries, DrivesOn, IsDeskReady, Passes};

use crate::events::{first_event, next_event, reply_of, submitted_by};
use hk_base::{Disk, Text, Words};
use hk_events::{Event, Line};
use name_calls::{NPath, NameRefusal, NameReply};
use name_rest::NameOrder;
use std::alloc::Global;
use world_run::World;

/// Answers an event that is no restart, and so doesn't fail.
pub(crate) fn answer<D: Disk, W: Words>(
    world: &mut World,
    disk: &mut D,
    words: &mut W,
    now: u64,
    event: Event,
) -> Line
    requires ready { IsDeskReady D.state
        (record { disk = disk.old; world = world.old; words = words.old }) }
    requires goes_on { (file : ℕ) → is_restart event file → ⊥ }
    ensures leads { (lines : List PropLine) → AreListsOf world.old.keys.acls lines →
        Leads D.state W.to_come lines now
        (record { disk = disk.old; world = world.old; words = words.old }) event result
        (record { disk = disk.new; world = world.new; words = words.new }) }
    ensures ready { IsDeskReady D.state
        (record { disk = disk.new; world = world.new; words = words.new }) }
{
    match world.step(disk, words, now, event) {
        Ok(line) => line,
        Err(_) => unreachable!(),
    }
}

/// What comes after an event of an order.
#[derive(Drop)]
enum Advance {
    /// The event that follows.
    Event(Event),
    /// The reply of the order, if no event follows.
    Reply(NameReply),
}

/// Returns what comes after an event of an order that was answered so.
fn after(answer: Line) -> Advance
    ensures { IsAfter answer result }
{
    match next_event(&answer) {
        Some(next) => Advance::Event(next),
        None => Advance::Reply(reply_of(answer)),
    }
}

/// Carries out an order of the namesystem that begins with this event, and returns its reply.
fn carry_out<D: Disk, W: Words>(
    world: &mut World,
    disk: &mut D,
    words: &mut W,
    now: u64,
    first: Event,
) -> NameReply
    requires ready { IsDeskReady D.state
        (record { disk = disk.old; world = world.old; words = words.old }) }
    requires goes_on { (file : ℕ) → is_restart first file → ⊥ }
    ensures carries { (lines : List PropLine) → AreListsOf world.old.keys.acls lines →
        Carries (Leads D.state W.to_come lines now) first
        (record { disk = disk.old; world = world.old; words = words.old }) result
        (record { disk = disk.new; world = world.new; words = words.new }) }
    ensures ready { IsDeskReady D.state
        (record { disk = disk.new; world = world.new; words = words.new }) }
{
    let mut event = first;
    'events: loop {
        match after(answer(world, disk, words, now, event)) {
            Advance::Event(next) => event = next,
            Advance::Reply(reply) => return reply,
        }
    }
}

/// Drives the re-encryption of a zone, if there is one.
fn drive<D: Disk, W: Words>(
    world: &mut World,
    disk: &mut D,
    words: &mut W,
    now: u64,
    zone: Option<&NPath>,
)
    requires ready { IsDeskReady D.state
        (record { disk = disk.old; world = world.old; words = words.old }) }
    ensures drives { (lines : List PropLine) → AreListsOf world.old.keys.acls lines →
        DrivesOn D.state W.to_come lines now (option_map (λ path. path.now) zone.entry)
        (record { disk = disk.old; world = world.old; words = words.old })
        (record { disk = disk.new; world = world.new; words = words.new }) }
    ensures ready { IsDeskReady D.state
        (record { disk = disk.new; world = world.new; words = words.new }) }
{
    match zone {
        None => {}
        Some(zone) => {
            let _ = world.drive(disk, words, now, zone);
        }
    }
}

/// Carries out an order of the namesystem by a user, and drives the re-encryption that it submits.
pub(crate) fn answer_order<D: Disk, W: Words>(
    alloc: Global,
    world: &mut World,
    disk: &mut D,
    words: &mut W,
    now: u64,
    user: Text,
    order: &NameOrder,
) -> NameReply
    requires ready { IsDeskReady D.state
        (record { disk = disk.old; world = world.old; words = words.old }) }
    ensures passes { (lines : List PropLine) → AreListsOf world.old.keys.acls lines →
        Passes D.state W.to_come lines now
        (record { disk = disk.old; world = world.old; words = words.old }) user
        (OfNames order.now result)
        (record { disk = disk.new; world = world.new; words = words.new }) }
    ensures ready { IsDeskReady D.state
        (record { disk = disk.new; world = world.new; words = words.new }) }
{
    let Ok(first) = first_event(alloc, user, order) else {
        return NameReply::Refused(NameRefusal::NoMemory);
    };
    let reply = carry_out(world, disk, words, now, first);
    drive(world, disk, words, now, submitted_by(order, &reply));
    reply
}
