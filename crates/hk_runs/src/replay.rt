//! Replays the event lines of an input.
ghost use Rattle.std.specs.Prelude.{◌≡◌, ◌⊎◌, ◌≤◌, ◌<◌, ◌^◌, List, [], Some, length};
ghost use Rattle.std.specs.Io.KnownBytes.{IsAtEnd};
ghost use Rattle.hk_base.specs.Disk.{Tells};
ghost use Rattle.hk_base.specs.Faults.{Rose};
ghost use Rattle.prop_text.specs.declared.lines.PropLine.{PropLine};
ghost use Rattle.world_run.specs.Acknowledged.{Acknowledged, HoldsLogs};
ghost use Rattle.hk_runs.specs.Headline.{FromSoundFiles, ReplayKeeps};
ghost use Rattle.command_io.specs.Ends.{ended_by, ended_by_props, status_of};
ghost use Rattle.command_io.specs.Environment.{environment};
ghost use Rattle.hk_runs.specs.Replay.{ReplayUnder, Replays};
ghost use Rattle.hk_runs.specs.Steps.{Caused, HasLists, Next, PlaysItsLine, Ran, RanToEnd, stand_of};
ghost use Rattle.command_io.specs.declared.ends.ReplayEnd.{ReplayEnd};

use crate::session::{LineOutcome, Session};
use command_io::{
    LineEnd, ReplayEnd, ended_by, ended_by_props, finish, read_line, read_properties, status_of,
};
use hk_base::{ByteList, Disk, Reader, Sink, Source, Words};
use prop_text::Props;
use std::alloc::Global;
use world_run::World;

/// A replay between two lines: what was read ahead, and the number of lines played.
struct ReplayRun {
    reader: Reader,
    line: ByteList,
    session: Session,
    count: u64,
}

impl ReplayRun {
    /// A replay before its first line.
    fn new(alloc: Global, world: World) -> ReplayRun
        ensures world { result.session.world ≡ world }
        ensures fresh { (result.session.events ≡ 0) × (result.count ≡ 0) × (result.reader.used ≡ 0) ×
            (result.reader.bytes ≡ []) }
    {
        ReplayRun {
            reader: Reader::new(),
            line: ByteList::new(alloc),
            session: Session {
                alloc,
                world,
                events: 0,
                answer: ByteList::new(alloc),
            },
            count: 0,
        }
    }

    /// Gives back the memory of a replay that has ended.
    fn close(self) {
        let ReplayRun {
            reader,
            line,
            session,
            count: _,
        } = self;
        session.close();
        drop(reader);
        drop(line);
    }

    /// Plays the lines of the input until the replay ends.
    fn run<S: Source, D: Disk, K: Sink, W: Words>(
        &mut self,
        input: &mut S,
        disk: &mut D,
        out: &mut K,
        words: &mut W,
    ) -> ReplayEnd
        requires fresh { (self.old.session.events ≡ 0) × (self.old.count ≡ 0) ×
            (self.old.reader.used ≡ 0) × (self.old.reader.bytes ≡ []) }
        requires lists { (lines : List PropLine) × HasLists self.old.session.world lines }
        requires stands { Tells (D.state disk.old) →
            ((done : Acknowledged) × HoldsLogs (D.state disk.old) self.old.session.world done) }
        ensures ran { (lines : List PropLine) → HasLists self.old.session.world lines →
            Ran lines (D.state disk.old) (D.state disk.new) self.old.session.world
            (W.to_come words.old) (W.to_come words.new) (S.left input.old) (K.written out.old)
            (K.written out.new) result self.new.count }
        ensures end { result ≡ ReplayEnd.Done → IsAtEnd (S.left input.new) }
        ensures count { self.new.count < 2 ^ 41 }
        ensures caused { Caused (S.faults input.old) (S.faults input.new) (K.faults out.old)
            (K.faults out.new) (D.state disk.old).faults (D.state disk.new).faults (Some result) }
    {
        'lines: loop {
            match self.next(input, disk, out, words) {
                None => {}
                Some(ended) => return ended,
            }
        }
    }

    /// Reads the next line and plays it. Returns `None` if the replay goes on.
    fn next<S: Source, D: Disk, K: Sink, W: Words>(
        &mut self,
        input: &mut S,
        disk: &mut D,
        out: &mut K,
        words: &mut W,
    ) -> Option<ReplayEnd>
        requires few { self.old.session.events ≤ self.old.count }
        requires count { self.old.count ≤ 2 ^ 40 }
        requires lists { (lines : List PropLine) × HasLists self.old.session.world lines }
        requires stands { Tells (D.state disk.old) →
            ((done : Acknowledged) × HoldsLogs (D.state disk.old) self.old.session.world done) }
        ensures next { (lines : List PropLine) → HasLists self.old.session.world lines →
            Next lines (D.state disk.old) (D.state disk.new)
            (stand_of self.old (W.to_come words.old) (S.left input.old) (K.written out.old)) result
            (stand_of self.new (W.to_come words.new) (S.left input.new) (K.written out.new)) }
        ensures few { self.new.session.events ≤ self.new.count }
        ensures small { self.new.reader.used ≤ 2 ^ 40 }
        ensures caused { Caused (S.faults input.old) (S.faults input.new) (K.faults out.old)
            (K.faults out.new) (D.state disk.old).faults (D.state disk.new).faults result }
    {
        match read_line(&mut self.reader, input, &mut self.line) {
            LineEnd::Line => self.play(false, disk, out, words),
            LineEnd::End => self.play(true, disk, out, words),
            LineEnd::TooLong => Some(ReplayEnd::BadLine),
            LineEnd::Past => Some(ReplayEnd::BadLine),
            LineEnd::Fault => Some(ReplayEnd::ReadFault),
            LineEnd::NoMemory => Some(ReplayEnd::NoMemory),
        }
    }

    /// Plays the line that was read; `last` says whether it ends the input.
    fn play<D: Disk, K: Sink, W: Words>(
        &mut self,
        last: bool,
        disk: &mut D,
        out: &mut K,
        words: &mut W,
    ) -> Option<ReplayEnd>
        requires short { length self.old.line ≤ 1048576 }
        requires few { self.old.session.events ≤ self.old.count }
        requires count { self.old.count ≤ 2 ^ 40 }
        requires stands { Tells (D.state disk.old) →
            ((done : Acknowledged) × HoldsLogs (D.state disk.old) self.old.session.world done) }
        ensures played { (lines : List PropLine) → HasLists self.old.session.world lines →
            PlaysItsLine lines (D.state disk.old) (D.state disk.new) self.old
            (W.to_come words.old) (K.written out.old) last result self.new (W.to_come words.new)
            (K.written out.new) }
        ensures same { (self.new.reader ≡ self.old.reader) × (self.new.line ≡ self.old.line) }
        ensures few { self.new.session.events ≤ self.new.count }
        ensures later { K.faults out.old ≤ K.faults out.new }
        ensures fault { result ≡ Some ReplayEnd.WriteFault →
            Rose (K.faults out.old) (K.faults out.new) }
    {
        match self
            .session
            .play_line(self.line.as_slice(), disk, out, words)
        {
            LineOutcome::Played => {
                self.count += 1;
                if last { Some(ReplayEnd::Done) } else { None }
            }
            LineOutcome::BadLine => Some(ReplayEnd::BadLine),
            LineOutcome::Unread => Some(ReplayEnd::NoMemory),
            LineOutcome::Unanswered => {
                self.count += 1;
                Some(ReplayEnd::NoMemory)
            }
            LineOutcome::Unwritten => {
                self.count += 1;
                Some(ReplayEnd::WriteFault)
            }
            LineOutcome::Unopened(why) => Some(ended_by(why.file, why.fault)),
        }
    }
}

/// Opens both logs and replays the input, with properties that were read.
fn replay_under<S: Source, D: Disk, K: Sink, W: Words>(
    alloc: Global,
    props: &Props,
    input: &mut S,
    out: &mut K,
    disk: &mut D,
    rand: &mut W,
) -> ReplayEnd
    ensures replay { ReplayUnder props.now ((input.new ≡ input.old) × (rand.new ≡ rand.old))
        (D.state disk.old) (D.state disk.new) (W.to_come rand.old) (W.to_come rand.new)
        (S.left input.old) (K.written out.old) (K.written out.new) result }
    ensures end { result ≡ ReplayEnd.Done → IsAtEnd (S.left input.new) }
    ensures read { result ≡ ReplayEnd.ReadFault → Rose (S.faults input.old) (S.faults input.new) }
    ensures write { result ≡ ReplayEnd.WriteFault → Rose (K.faults out.old) (K.faults out.new) }
    ensures store { result ≡ ReplayEnd.StoreFault →
        Rose (D.state disk.old).faults (D.state disk.new).faults }
{
    match World::start(alloc, disk, props) {
        Err(why) => finish(alloc, out, ended_by(why.file, why.fault), 0),
        Ok(world) => replay_in(alloc, world, input, out, disk, rand),
    }
}

/// Replays the input in a world that was opened, and writes the last line.
fn replay_in<S: Source, D: Disk, K: Sink, W: Words>(
    alloc: Global,
    world: World,
    input: &mut S,
    out: &mut K,
    disk: &mut D,
    rand: &mut W,
) -> ReplayEnd
    requires lists { (lines : List PropLine) × HasLists world lines }
    requires stands { Tells (D.state disk.old) →
        ((done : Acknowledged) × HoldsLogs (D.state disk.old) world done) }
    ensures ran { (lines : List PropLine) → HasLists world lines →
        RanToEnd lines (D.state disk.old) (D.state disk.new) world (W.to_come rand.old)
        (W.to_come rand.new) (S.left input.old) (K.written out.old) (K.written out.new) result }
    ensures end { result ≡ ReplayEnd.Done → IsAtEnd (S.left input.new) }
    ensures caused { Caused (S.faults input.old) (S.faults input.new) (K.faults out.old)
        (K.faults out.new) (D.state disk.old).faults (D.state disk.new).faults (Some result) }
{
    let mut replaying = ReplayRun::new(alloc, world);
    let stop = replaying.run(input, disk, out, rand);
    let count = replaying.count;
    replaying.close();
    finish(alloc, out, stop, count)
}

/// Replays the event lines of the input over the key log on file 0 of a disk and the edit log on
/// file 1.
///
/// It first reads the properties of the key management service, to their end or to the byte past
/// 1,048,576, then opens both logs, runs each event, and writes the transcript of the answers,
/// followed by the last line of the status. The properties say who may make which call.
///
/// Returns the exit status:
///
/// - 0: the input was read to its end.
/// - 3: the properties or a line of the input were refused.
/// - 4: a log is damaged.
/// - 5: the disk failed while a log was opened, at the start or at a restart.
/// - 6: allocation failed.
/// - 7: the properties or the input could not be read.
/// - 8: the output failed.
/// - 10: the last opening of a log is used up.
pub fn run_replay<A: Source, S: Source, D: Disk, K: Sink, W: Words>(
    alloc: Global,
    acls: &mut A,
    input: &mut S,
    out: &mut K,
    disk: &mut D,
    rand: &mut W,
) -> u8
    ensures replay { (how : ReplayEnd) × (result ≡ status_of how) ×
        Replays D.Disk A.Source S.Source K.Sink W.Words
        (environment disk.old acls.old input.old out.old rand.old)
        (environment disk.new acls.new input.new out.new rand.new) how }
    ensures headline { FromSoundFiles (D.state disk.old)
        (ReplayKeeps D.Disk A.Source S.Source K.Sink W.Words
        (environment disk.old acls.old input.old out.old rand.old)
        (environment disk.new acls.new input.new out.new rand.new))
        result }
    ensures end { result ≡ 0 → IsAtEnd (S.left input.new) }
    ensures read { result ≡ 7 →
        Rose (S.faults input.old) (S.faults input.new) ⊎
        Rose (A.faults acls.old) (A.faults acls.new) }
    ensures write { result ≡ 8 → Rose (K.faults out.old) (K.faults out.new) }
    ensures store { result ≡ 5 → Rose (D.state disk.old).faults (D.state disk.new).faults }
{
    let props = match read_properties(alloc, acls) {
        Err(fault) => return status_of(finish(alloc, out, ended_by_props(fault), 0)),
        Ok(props) => props,
    };
    let end = replay_under(alloc, &props, input, out, disk, rand);
    drop(props);
    status_of(end)
}
