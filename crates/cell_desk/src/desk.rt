//! Both services as a desk.
ghost use Rattle.std.specs.Prelude.{◌≡◌};
ghost use Rattle.hk_serve.specs.Transactions.{OfNames};
ghost use Rattle.cell_desk.specs.Connections.{MakesOrder};

use crate::asks::{carry_out, prepare};
use crate::telling::{generates, tell_asked, tell_generated};
use hk_base::{Gate, Point, Text};
use hk_serve::{Desk, changes_keys, changes_names, keys_note, names_note};
use kms_calls::{KmsCall, KmsReply};
use name_calls::{Ask, NameCall, NameRefusal, NameReply};
use name_rest::NameOrder;
use service_health::{CallCounts, Page};
use std::alloc::Global;
use std::marker::Model;
use std::sync::Wait;
use turns::{Notices, Turns};

/// Both services as a desk, which makes each call by its passes. Contracts see what the passes know.
#[derive(Drop)]
pub struct CellDesk<'a, S: Turns, R, G, H> {
    rt: &'a R,
    alloc: Global,
    shared: &'a S,
    gate: &'a G,
    notices: &'a H,
    keys: S::Keys,
    names: S::Names,
}

impl<'a, S: Turns, R, G, H> Model for CellDesk<'a, S, R, G, H> {
    ghost use Rattle.cell_desk.specs.Connections.{BothKnown};

    ghost Value = { BothKnown S.D S.W };

    ghost view = { λ d. record { keys = S.keys_seen d.keys; names = S.names_seen d.names } };
}

impl<'a, S: Turns, R, G, H> CellDesk<'a, S, R, G, H> {
    /// Creates a desk over both services. It passes the gate before each reply, and tells the notices of
    /// what it answered.
    pub fn new(
        rt: &'a R,
        alloc: Global,
        shared: &'a S,
        gate: &'a G,
        notices: &'a H,
        keys: S::Keys,
        names: S::Names,
    ) -> CellDesk<'a, S, R, G, H>
        ensures { result ≡ record { keys = S.keys_seen keys; names = S.names_seen names } }
    {
        CellDesk {
            rt,
            alloc,
            shared,
            gate,
            notices,
            keys,
            names,
        }
    }

    /// Returns its passes.
    pub fn into_passes(self) -> (S::Keys, S::Names)
        ensures keys { S.keys_seen result.0 ≡ self.entry.keys }
        ensures names { S.names_seen result.1 ≡ self.entry.names }
    {
        let CellDesk {
            rt: _,
            alloc: _,
            shared: _,
            gate: _,
            notices: _,
            keys,
            names,
        } = self;
        (keys, names)
    }
}

impl<'a, S: Turns, R: Wait, G: Gate, H: Notices> CellDesk<'a, S, R, G, H> {
    /// Makes a call of the namesystem.
    fn call(&mut self, user: Text, call: NameCall) -> NameReply
        ensures { MakesOrder S.state S.to_come self.old user (OfNames (NameOrder.Call call) result)
            self.new }
    {
        // The history that the pass has seen is legal.
        let _ = self.shared.count_keys(&self.keys);
        self.shared.call_names(self.rt, &mut self.names, user, call)
    }

    /// Carries out an ask.
    fn ask(&mut self, user: Text, ask: Ask) -> NameReply
        ensures { MakesOrder S.state S.to_come self.old user (OfNames (NameOrder.Ask ask) result)
            self.new }
    {
        // The histories that the passes have seen are legal.
        let _ = self.shared.count_keys(&self.keys);
        let _ = self.shared.count_names(&self.names);
        let Ok((caller, zone)) = prepare(self.alloc, &ask) else {
            drop(user);
            drop(ask);
            return NameReply::Refused(NameRefusal::NoMemory);
        };
        let reply = carry_out(
            self.rt,
            self.shared,
            &mut self.keys,
            &mut self.names,
            caller,
            user,
            ask,
        );
        tell_asked(self.rt, self.notices, zone, &reply);
        reply
    }

    fn order(&mut self, user: Text, order: NameOrder) -> NameReply
        ensures { MakesOrder S.state S.to_come self.old user (OfNames order result) self.new }
    {
        match order {
            NameOrder::Call(call) => self.call(user, call),
            NameOrder::Ask(ask) => self.ask(user, ask),
        }
    }
}

impl<'a, S: Turns, R: Wait, G: Gate, H: Notices> Desk for CellDesk<'a, S, R, G, H> {
    ghost use Rattle.std.specs.Prelude.{⊤};
    ghost use Rattle.cell_desk.specs.Connections.{MakesOrder};

    ghost ready = { λ _. ⊤ };

    ghost answers = { MakesOrder S.state S.to_come };

    fn kms(&mut self, user: Text, call: KmsCall) -> KmsReply {
        // The history that the pass has seen is legal.
        let _ = self.shared.count_names(&self.names);
        let generates = generates(&call);
        let change = changes_keys(&call);
        let reply = self.shared.call_keys(self.rt, &mut self.keys, user, call);
        tell_generated(self.rt, self.notices, generates, &reply);
        let at = self.shared.count_keys(&self.keys);
        self.notices
            .answered(self.rt, keys_note(change, &reply, at));
        self.gate.pass(self.rt, Point::BeforeReply);
        reply
    }

    fn name(&mut self, user: Text, order: NameOrder) -> NameReply {
        let change = changes_names(&order);
        let reply = self.order(user, order);
        let at = self.shared.count_names(&self.names);
        self.notices
            .answered(self.rt, names_note(change, &reply, at));
        self.gate.pass(self.rt, Point::BeforeReply);
        reply
    }

    fn look(&mut self, _page: Page) -> CallCounts {
        // The histories that the passes have seen are legal.
        let _ = self.shared.count_keys(&self.keys);
        let _ = self.shared.count_names(&self.names);
        self.notices.counts(self.rt)
    }
}
