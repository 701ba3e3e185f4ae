//! Both services over a disk, as events.
ghost use Rattle.std.specs.Prelude.{◌≡◌};
ghost use Rattle.world_desk.specs.Worlds.{IsDeskReady};
ghost use Rattle.world_events.specs.Events.{HoldsSame, LeadsAt, standing_of};

use file_orders::Events;
use hk_base::{Disk, Words};
use hk_events::{Event, Line};
use world_run::World;

/// Both services, with the disk that they were started on, and random words. All events happen at one
/// time.
#[derive(Drop)]
pub struct WorldEvents<'a, D, W> {
    world: &'a mut World,
    disk: &'a mut D,
    words: &'a mut W,
    now: u64,
}

impl<'a, D, W> WorldEvents<'a, D, W> {
    /// Creates events over these.
    pub fn new(
        world: &'a mut World,
        disk: &'a mut D,
        words: &'a mut W,
        now: u64,
    ) -> WorldEvents<'a, D, W>
        ensures world { (result.world.ghost_name ≡ world.entry.ghost_name) ×
            (result.world.now ≡ world.old) }
        ensures disk { (result.disk.ghost_name ≡ disk.entry.ghost_name) ×
            (result.disk.now ≡ disk.old) }
        ensures words { (result.words.ghost_name ≡ words.entry.ghost_name) ×
            (result.words.now ≡ words.old) }
        ensures now { result.now ≡ now }
    {
        WorldEvents {
            world,
            disk,
            words,
            now,
        }
    }
}

impl<'a, D: Disk, W: Words> Events for WorldEvents<'a, D, W> {
    ghost ready = { λ v.
        IsDeskReady D.state (standing_of v) };

    ghost leads = { λ old e answer new. HoldsSame old new ×
        LeadsAt D.state W.to_come old.now (standing_of old) e answer (standing_of new) };

    fn happen(&mut self, event: Event) -> Line {
        // No event fails but a restart.
        match self.world.step(self.disk, self.words, self.now, event) {
            Ok(line) => line,
            Err(_) => unreachable!(),
        }
    }
}
