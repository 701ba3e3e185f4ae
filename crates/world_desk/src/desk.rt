//! Both services as a desk.
ghost use Rattle.std.specs.Prelude.{◌≡◌, ◌≤◌, ℕ, List};
ghost use Rattle.hk_base.specs.Faults.{Rose};
ghost use Rattle.kms_calls.specs.declared.calls.KmsReply.{KmsReply};
ghost use Rattle.http_wire.specs.Reading.{ahead};
ghost use Rattle.hk_serve.specs.Served.{Served};
ghost use Rattle.world_desk.specs.Worlds.{HappensAtDesk, HoldsSameDesk, IsDeskReady, connection, standing, standing_at};

use crate::orders::{answer, answer_order};
use hk_base::{Clock, Disk, Ended, Sink, Source, Text, Words};
use hk_events::{Event, Line};
use hk_serve::{Desk, changes_keys, changes_names, keys_note, names_note, serve_conn};
use kms_calls::{KmsCall, KmsReply};
use name_calls::NameReply;
use name_rest::NameOrder;
use service_health::{CallCounts, Page};
use std::alloc::Global;
use world_run::World;

/// Both services as a desk, with the disk that they were started on, random words, and the clock that
/// gives the events of each call or order their time.
#[derive(Drop)]
pub struct WorldDesk<'a, D, W, C> {
    alloc: Global,
    world: &'a mut World,
    disk: &'a mut D,
    words: &'a mut W,
    clock: &'a mut C,
    /// The calls and orders that it answered.
    counts: CallCounts,
}

/// Returns the reply in the answer to a call of the key management service.
fn reply_in(answer: Line) -> KmsReply
    requires { (reply : KmsReply) × (answer ≡ Line.Kms reply) }
    ensures { answer ≡ Line.Kms result }
{
    match answer {
        Line::Kms(reply) => reply,
        _ => unreachable!(),
    }
}

impl<'a, D, W, C> WorldDesk<'a, D, W, C> {
    /// Creates a desk over these.
    pub fn new(
        alloc: Global,
        world: &'a mut World,
        disk: &'a mut D,
        words: &'a mut W,
        clock: &'a mut C,
    ) -> WorldDesk<'a, D, W, C>
        ensures world { (result.world.ghost_name ≡ world.entry.ghost_name) ×
            (result.world.now ≡ world.old) }
        ensures disk { (result.disk.ghost_name ≡ disk.entry.ghost_name) ×
            (result.disk.now ≡ disk.old) }
        ensures words { (result.words.ghost_name ≡ words.entry.ghost_name) ×
            (result.words.now ≡ words.old) }
        ensures clock { (result.clock.ghost_name ≡ clock.entry.ghost_name) ×
            (result.clock.now ≡ clock.old) }
    {
        WorldDesk {
            alloc,
            world,
            disk,
            words,
            clock,
            counts: CallCounts::new(),
        }
    }
}

impl<'a, D: Disk, W: Words, C: Clock> Desk for WorldDesk<'a, D, W, C> {
    ghost ready = { λ d.
        IsDeskReady D.state (standing_at d) };

    ghost answers = { λ old user done new. HoldsSameDesk old new ×
        HappensAtDesk D.state W.to_come (standing_at old) user done (standing_at new) };

    fn kms(&mut self, user: Text, call: KmsCall) -> KmsReply {
        let now = self.clock.now_ms();
        let change = changes_keys(&call);
        let event = Event::Kms { user, call };
        let reply = reply_in(answer(self.world, self.disk, self.words, now, event));
        let at = self.counts.keys.entries.saturating_add(1);
        self.counts = self.counts.after_call(keys_note(change, &reply, at));
        reply
    }

    fn name(&mut self, user: Text, order: NameOrder) -> NameReply {
        let now = self.clock.now_ms();
        let change = changes_names(&order);
        let reply = answer_order(
            self.alloc, self.world, self.disk, self.words, now, user, &order,
        );
        let at = self.counts.names.entries.saturating_add(1);
        self.counts = self.counts.after_call(names_note(change, &reply, at));
        reply
    }

    fn look(&mut self, _page: Page) -> CallCounts {
        self.counts
    }
}

/// Serves a connection with both services. The desk still holds them afterwards.
fn serve_desk<'a, S: Source, K: Sink, D: Disk, W: Words, C: Clock>(
    alloc: Global,
    source: &mut S,
    sink: &mut K,
    desk: &mut WorldDesk<'a, D, W, C>,
) -> Ended
    requires { IsDeskReady D.state (standing_at desk.old) }
    ensures served { (unused : List ℕ) ×
        Served (HappensAtDesk D.state W.to_come)
        (connection (S.left source.old) (standing_at desk.old) (K.written sink.old))
        (connection (ahead unused (S.left source.new)) (standing_at desk.new)
        (K.written sink.new)) result }
    ensures ready { IsDeskReady D.state (standing_at desk.new) }
    ensures world { desk.new.world.ghost_name ≡ desk.old.world.ghost_name }
    ensures disk { desk.new.disk.ghost_name ≡ desk.old.disk.ghost_name }
    ensures words { desk.new.words.ghost_name ≡ desk.old.words.ghost_name }
    ensures clock { desk.new.clock.ghost_name ≡ desk.old.clock.ghost_name }
    ensures read_later { S.faults source.old ≤ S.faults source.new }
    ensures read_fault { result ≡ Ended.ReadFault →
        Rose (S.faults source.old) (S.faults source.new) }
    ensures write_later { K.faults sink.old ≤ K.faults sink.new }
    ensures write_fault { result ≡ Ended.WriteFault → Rose (K.faults sink.old) (K.faults sink.new) }
{
    serve_conn(alloc, source, sink, desk)
}

/// Serves the requests of a connection with both services, as `serve_conn` does. A call of the key
/// management service, or of the namesystem, is one event of the world. To create a file, to make a
/// zone or to submit a re-encryption takes up to three: the ask, the call of the key management service
/// that it wants, and the finish. All events of an order happen at one time of the clock.
///
/// A re-encryption that was submitted is driven to its end before the reply; what came of it doesn't
/// change the reply. If there is no memory for an event, no further one happens, and the reply is N22.
/// An ask that was accepted stays open then.
///
/// Always pass the disk that the services were started on.
pub fn serve_world<S: Source, K: Sink, D: Disk, W: Words, C: Clock>(
    alloc: Global,
    source: &mut S,
    sink: &mut K,
    world: &mut World,
    disk: &mut D,
    words: &mut W,
    clock: &mut C,
) -> Ended
    requires { IsDeskReady D.state (standing disk.old world.old words.old) }
    // Bytes that were read past the last request are unused.
    ensures served { (unused : List ℕ) ×
        Served (HappensAtDesk D.state W.to_come)
        (connection (S.left source.old) (standing disk.old world.old words.old)
        (K.written sink.old))
        (connection (ahead unused (S.left source.new)) (standing disk.new world.new words.new)
        (K.written sink.new)) result }
    ensures ready { IsDeskReady D.state (standing disk.new world.new words.new) }

    ensures read_later { S.faults source.old ≤ S.faults source.new }
    ensures read_fault { result ≡ Ended.ReadFault →
        Rose (S.faults source.old) (S.faults source.new) }
    ensures write_later { K.faults sink.old ≤ K.faults sink.new }
    ensures write_fault { result ≡ Ended.WriteFault → Rose (K.faults sink.old) (K.faults sink.new) }
{
    let mut desk = WorldDesk::new(alloc, world, disk, words, clock);
    serve_desk(alloc, source, sink, &mut desk)
}
