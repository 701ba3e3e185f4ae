//! The namesystem as the state machine of a cell.
ghost use Rattle.std.specs.Prelude.{◌≡◌, []};
ghost use Rattle.name_core.specs.State.{IsNames, service_of};
ghost use Rattle.name_history.specs.Steps.{AskSteps, CallSteps, DeliverSteps, FinishSteps, KeysLegal, NameDoes, WalkSteps};
ghost use Rattle.name_history.specs.Views.{NamesRunOn};

use crate::fronts::{add_front, forget_fronts, has_front, reserve_front};
use crate::keys::KeysCell;
use hist_cell::{Core, Holds};
use hk_base::{Disk, Text};
use name_calls::{Answered, Ask, AskNote, Delivered, NPath, NameCall, NameRefusal, NameReply};
use name_core::{Name, Walked};
use name_history::{Front, NameAct, NameActed};
use reenc_update::BatchReply;
use std::alloc::{AllocError, Global};
use std::marker::Model;
use std::sync::Wait;

/// The namesystem with the disk that it was started on, a pass of the cell of the keys, and the fronts of
/// the batches that walks gave. Contracts see what the pass has seen. If the disk tells its files, it
/// holds the log of the namesystem, with or without the pending operation.
#[derive(Drop)]
pub struct NameSide<K: KeysCell> {
    names: Name,
    disk: K::D,
    keys: K::Pass,
    fronts: Vec<Front>,
    alloc: Global,
}

impl<K: KeysCell> Model for NameSide<K> {
    ghost use Rattle.name_history.specs.Views.{NameView, NamesRunOn};

    ghost Value = { NameView K.D K.W };

    ghost view = { λ s.
        record { names = s.names; disk = s.disk; keys = K.seen s.keys; fronts = s.fronts.items } };

    ghost invariant = { λ s. NamesRunOn (K.D.state s.disk) s.names };
}

impl<K: KeysCell> NameSide<K> {
    /// The disk must be the one that the namesystem was started on. No walk may have begun.
    pub fn new(alloc: Global, names: Name, disk: K::D, keys: K::Pass) -> NameSide<K>
        requires runs { NamesRunOn (K.D.state disk) names }
        requires no_walks { names.walks ≡ [] }
        ensures { result ≡ record { names = names; disk = disk; keys = K.seen keys; fronts = [] } }
    {
        let fronts = Vec::new(alloc);
        NameSide {
            names,
            disk,
            keys,
            fronts,
            alloc,
        }
    }

    /// Returns the namesystem, its disk, and its pass of the keys.
    pub fn into_parts(self) -> (Name, K::D, K::Pass)
        ensures names { result.0 ≡ self.names }
        ensures disk { result.1 ≡ self.disk }
        ensures keys { K.seen result.2 ≡ self.keys }
        ensures runs { NamesRunOn (K.D.state result.1) result.0 }
    {
        let NameSide {
            names,
            disk,
            keys,
            fronts,
            alloc: _,
        } = self;
        drop(fronts);
        (names, disk, keys)
    }

    /// Answers a call of a user.
    fn call(&mut self, user: Text, call: NameCall) -> NameReply
        ensures keys { self.new.keys ≡ self.old.keys }
        ensures does { CallSteps K.D.state self.old user call result self.new }
    {
        self.names.act(&mut self.disk, &user, call)
    }

    /// Opens an ask of a user.
    fn ask(&mut self, user: Text, ask: Ask) -> Result<AskNote, NameRefusal>
        ensures keys { self.new.keys ≡ self.old.keys }
        ensures does { AskSteps self.old user ask result self.new }
    {
        self.names.ask(&user, ask)
    }

    /// Finishes an ask.
    fn finish(&mut self, answered: Answered) -> Result<(), NameRefusal>
        ensures keys { self.new.keys ≡ self.old.keys }
        ensures does { FinishSteps K.D.state self.old answered result self.new }
    {
        self.names.finish(&mut self.disk, answered)
    }

    /// Takes the next batch of a zone that is being re-encrypted, and notes its front. The memory for the
    /// front is taken first: without it nothing is walked.
    fn walk(&mut self, zone: NPath) -> Result<Walked, NameRefusal>
        ensures keys { self.new.keys ≡ self.old.keys }
        ensures does { WalkSteps K.D.state self.old zone result self.new }
    {
        let Ok(files) = reserve_front(self.alloc, &mut self.fronts) else {
            return Err(NameRefusal::NoMemory);
        };
        forget_fronts(&self.names, &mut self.fronts);
        let walked = self.names.walk(&mut self.disk, &zone);
        add_front(&mut self.fronts, files, &walked, K::count(&self.keys));
        walked
    }

    /// Delivers the reply to the call for a batch. It is ignored unless the batch has this front.
    fn deliver(&mut self, front: u64, reply: &BatchReply) -> Result<Delivered, NameRefusal>
        ensures keys { self.new.keys ≡ self.old.keys }
        ensures does { DeliverSteps K.D.state self.old front reply.now result self.new }
    {
        if has_front(&self.fronts, reply.note(), front) {
            self.names.deliver(&mut self.disk, reply)
        } else {
            self.names.ignore(&mut self.disk, reply.note())
        }
    }

    /// Answers a call.
    fn answer(&mut self, call: NameAct) -> NameActed
        ensures keys { self.new.keys ≡ self.old.keys }
        ensures does { NameDoes K.D.state self.old call result self.new }
    {
        match call {
            NameAct::Call { user, call } => {
                let reply = self.call(user, call);
                NameActed::Call(reply)
            }
            NameAct::Ask { user, ask } => {
                let note = self.ask(user, ask);
                NameActed::Ask(note)
            }
            NameAct::Finish { answered } => {
                let finished = self.finish(answered);
                NameActed::Finish(finished)
            }
            NameAct::Walk { zone } => {
                let walked = self.walk(zone);
                NameActed::Walk(walked)
            }
            NameAct::Deliver { front, reply } => {
                let delivered = self.deliver(front, &reply);
                drop(reply);
                NameActed::Deliver(delivered)
            }
        }
    }

    /// Says that the namesystem keeps its rules, and that the kept pass has seen a legal history.
    fn keep_rules(&self)
        ensures names { IsNames (service_of self.now.names) }
        ensures keys { KeysLegal K.D.state K.to_come self.now.keys }
    {
        self.names.invariants();
        let _ = K::count(&self.keys);
    }
}

impl<K: KeysCell> Core for NameSide<K> {
    ghost use Rattle.std.specs.Prelude.{⊤};
    ghost use Rattle.name_history.specs.Asked.{IsAlone, NameAllows, NameAllows-grows};
    ghost use Rattle.name_history.specs.Steps.{NameAnswers, NameCan, NameSteps};
    ghost use Rattle.name_cell.specs.StepLemmas.{plain_step};
    ghost use Rattle.name_cell.specs.WantLemmas.{allowed_can};

    type Call = NameAct;

    type Reply = NameActed;

    ghost step = { NameSteps K.D.state K.to_come };

    ghost acts = { NameAnswers K.D.state K.to_come };

    ghost allows = { NameAllows };

    ghost can = { NameCan };

    ghost alone = { IsAlone };

    ghost sound = { λ _. ⊤ };

    fn act(&mut self, call: NameAct) -> NameActed {
        self.keep_rules();
        let reply = self.answer(call);
        self.keep_rules();
        reply
    }

    ghost grows = { NameAllows-grows };

    ghost fits = { λ s es q sound legal a. allowed_can K.D.state K.to_come s es q legal a };

    ghost plain = { λ s t q r can alone acted.
        plain_step K.D.state K.to_come s t q r can alone acted };
}

impl<K: KeysCell> Holds for NameSide<K> {
    ghost use Rattle.std.specs.Prelude.{IfOk};
    ghost use Rattle.hist_cell.specs.History.{Splits};
    ghost use Rattle.name_history.specs.Asked.{NameNeeds, NameNeeds-grows};
    ghost use Rattle.name_history.specs.Steps.{NameSuits, TakesPass};
    ghost use Rattle.name_cell.specs.StepLemmas.{meeting_step, still_can};
    ghost use Rattle.name_cell.specs.WantLemmas.{needed_suits};

    type OtherCell = K;

    type OtherPass = K::Pass;

    ghost needs = { λ es q w. NameNeeds es q (K.seen w) };

    ghost suits = { λ s q w. NameSuits s q (K.seen w) };

    ghost takes = { λ s w m. TakesPass K.D.state K.to_come s (K.seen w) m };

    ghost lends = { λ s w. Splits s.keys (K.seen w) };

    fn take_in<R: Wait>(&mut self, rt: &R, other: &K, with: K::Pass) {
        other.meet(rt, &mut self.keys, with);
    }

    fn lend<R: Wait>(&mut self, rt: &R, other: &K) -> Result<K::Pass, AllocError> {
        Ok(other.split(rt, &mut self.keys))
    }

    ghost needs_grow = { λ es fs q w p n. NameNeeds-grows es fs q (K.seen w) p n };

    ghost needs_fit = { λ s es q w sound legal n.
        needed_suits K.D.state K.to_come s es q (K.seen w) legal n };

    ghost still_can = { λ s m w q took can.
        still_can K.D.state K.to_come s m (K.seen w) q took can };

    ghost meeting = { λ s m t w q r suits took acted.
        meeting_step K.D.state K.to_come s m t (K.seen w) q r suits took acted };
}
