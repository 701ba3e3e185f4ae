//! A replay between two lines, and how it plays one.
ghost use Rattle.std.specs.Prelude.{◌≡◌, ◌+◌, ◌≤◌, ◌^◌, List, ℕ, length};
ghost use Rattle.hk_base.specs.Disk.{Tells};
ghost use Rattle.hk_base.specs.Faults.{Rose};
ghost use Rattle.prop_text.specs.declared.lines.PropLine.{PropLine};
ghost use Rattle.replay_text.specs.Events.{SpellsLine};
ghost use Rattle.world_run.specs.Acknowledged.{Acknowledged, HoldsLogs};
ghost use Rattle.hk_runs.specs.Steps.{HasLists, PlaysSo, TellsSo, counts, view_of};

use hk_base::{ByteList, Disk, Sink, Words, write_all};
use hk_events::{Event, Line};
use replay_text::{LineFault, read_event, write_line};
use std::alloc::Global;
use world_run::{World, WorldFault};

/// How a line was played.
#[derive(Clone, Copy, Debug, PartialEq, Eq)]
pub enum LineOutcome {
    /// It has no event, or its event happened and the answer is written.
    Played,
    /// It is refused.
    BadLine,
    /// Allocation failed while it was read.
    Unread,
    /// Its event happened, and allocation failed for the answer.
    Unanswered,
    /// Its event happened, and the answer could not be written.
    Unwritten,
    /// It is a restart, and the log could not be opened.
    Unopened(WorldFault),
}

/// Both services, and the number of events that they have answered.
pub struct Session {
    pub alloc: Global,
    pub world: World,
    pub events: u64,
    pub answer: ByteList,
}

impl Session {
    /// Gives back the memory of a session that has ended.
    pub fn close(self) {
        let Session {
            alloc: _,
            world,
            events: _,
            answer,
        } = self;
        world.close();
        drop(answer);
    }

    /// Plays a line. If it has an event, writes the answer.
    pub fn play_line<D: Disk, K: Sink, W: Words>(
        &mut self,
        line: &[u8],
        disk: &mut D,
        out: &mut K,
        words: &mut W,
    ) -> LineOutcome
        requires short { length line.now ≤ 1048576 }
        requires few { self.old.events ≤ 2 ^ 40 }
        requires stands { Tells (D.state disk.old) →
            ((done : Acknowledged) × HoldsLogs (D.state disk.old) self.old.world done) }
        ensures plays { (lines : List PropLine) → HasLists self.old.world lines →
            PlaysSo lines (D.state disk.old) (D.state disk.new)
            (view_of self.old (W.to_come words.old) (K.written out.old)) line.now result
            (view_of self.new (W.to_come words.new) (K.written out.new)) }
        ensures few { self.new.events ≤ self.old.events + counts result }
        ensures later { K.faults out.old ≤ K.faults out.new }
        ensures fault { result ≡ LineOutcome.Unwritten →
            Rose (K.faults out.old) (K.faults out.new) }
    {
        let event = match read_event(self.alloc, line) {
            Err(LineFault::BadLine) => return LineOutcome::BadLine,
            Err(LineFault::NoMemory) => return LineOutcome::Unread,
            Ok(None) => return LineOutcome::Played,
            Ok(Some(event)) => event,
        };
        self.play_event(event, disk, out, words)
    }

    fn play_event<D: Disk, K: Sink, W: Words>(
        &mut self,
        event: Event,
        disk: &mut D,
        out: &mut K,
        words: &mut W,
    ) -> LineOutcome
        requires few { self.old.events ≤ 2 ^ 40 }
        requires stands { Tells (D.state disk.old) →
            ((done : Acknowledged) × HoldsLogs (D.state disk.old) self.old.world done) }
        ensures plays { (lines : List PropLine) → HasLists self.old.world lines →
            (t : List ℕ) → SpellsLine t event →
            PlaysSo lines (D.state disk.old) (D.state disk.new)
            (view_of self.old (W.to_come words.old) (K.written out.old)) t result
            (view_of self.new (W.to_come words.new) (K.written out.new)) }
        ensures few { self.new.events ≤ self.old.events + counts result }
        ensures later { K.faults out.old ≤ K.faults out.new }
        ensures fault { result ≡ LineOutcome.Unwritten →
            Rose (K.faults out.old) (K.faults out.new) }
    {
        match self.world.step(disk, words, self.events + 1, event) {
            Err(why) => LineOutcome::Unopened(why),
            Ok(reply) => self.tell_line(reply, out),
        }
    }

    /// Counts an event, and writes and drops its answer.
    fn tell_line<K: Sink>(&mut self, reply: Line, out: &mut K) -> LineOutcome
        requires few { self.old.events ≤ 2 ^ 40 }
        ensures tells { TellsSo (self.old.events + 1) reply (K.written out.old) (K.written out.new)
            result }
        ensures world { self.new.world ≡ self.old.world }
        ensures counted { self.new.events ≡ self.old.events + 1 }
        ensures counts { counts result ≡ 1 }
        ensures later { K.faults out.old ≤ K.faults out.new }
        ensures fault { result ≡ LineOutcome.Unwritten →
            Rose (K.faults out.old) (K.faults out.new) }
    {
        let play = self.tell(&reply, out);
        drop(reply);
        play
    }

    /// Counts an event, and writes its answer.
    fn tell<K: Sink>(&mut self, reply: &Line, out: &mut K) -> LineOutcome
        requires few { self.old.events ≤ 2 ^ 40 }
        ensures tells { TellsSo (self.old.events + 1) reply.now (K.written out.old)
            (K.written out.new) result }
        ensures world { self.new.world ≡ self.old.world }
        ensures counted { self.new.events ≡ self.old.events + 1 }
        ensures counts { counts result ≡ 1 }
        ensures later { K.faults out.old ≤ K.faults out.new }
        ensures fault { result ≡ LineOutcome.Unwritten →
            Rose (K.faults out.old) (K.faults out.new) }
    {
        self.events += 1;
        self.answer.clear();
        match write_line(self.alloc, self.events, reply, &mut self.answer) {
            Err(_) => LineOutcome::Unanswered,
            Ok(()) => match write_all(out, self.answer.as_slice()) {
                Ok(()) => LineOutcome::Played,
                Err(_) => LineOutcome::Unwritten,
            },
        }
    }
}
