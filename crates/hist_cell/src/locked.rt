//! What is under the lock of a cell.
ghost use Rattle.std.specs.Prelude.{◌≡◌, ◌<◌, IfErr, IfOk};
ghost use Rattle.hist_cell.specs.History.{Closes, Lends, MakesEntryOn, Splits};

use crate::cores::{Core, answer};
use crate::holds::{Holds, answer_meeting};
use crate::naming::Naming;
use crate::pass::Pass;
use crate::seats::{
    SeatOf, ViewOf, Word, add_entry, has_room, learn, new_seat, return_turn, take_turn,
};
use atomic_table::Badge;
use std::alloc::AllocError;
use std::marker::{Model, PhantomData};
use std::mem;
use std::snapshot::Snapshot;
use std::sync::Wait;

/// The core and the turn. Contracts see the core.
#[derive(Drop)]
pub struct Locked<C: Core, N: Naming> {
    pub(crate) core: C,
    pub(crate) turn: Badge<ViewOf<C>>,
    pub(crate) of: PhantomData<N>,
}

impl<C: Core, N: Naming> Model for Locked<C, N> {
    ghost use Rattle.hist_cell.specs.Turn.{IsTurn};

    ghost Value = { C };

    ghost view = { λ l. l.core };

    ghost invariant = { λ l. IsTurn C.sound N.table l.turn l.core };
}

impl<C: Core, N: Naming> Locked<C, N> {
    /// Makes a call: takes the turn, lets the core answer, adds the entry, and gives the turn back.
    pub fn act<R: Wait>(
        &mut self,
        rt: &R,
        word: &Word<C>,
        pass: &mut Pass<C, N>,
        call: C::Call,
    ) -> C::Reply
        requires word { (word.now.table_id ≡ N.table) × (0 < word.now.table_id.words) }
        requires allowed { C.allows pass.old.seen call }
        requires alone { C.alone call }
        ensures { MakesEntryOn C.step C.allows self.old pass.old call result pass.new self.new }
    {
        let turn: SeatOf<C> = mem::replace(&mut self.turn, Badge::blank()).into_seat();
        take_turn(word, &mut pass.seat, turn);
        let count = has_room(rt, word, &mut pass.seat);
        let was = Snapshot::of(&call);
        let reply = answer(&mut self.core, call);
        let turn = add_entry(word, &mut pass.seat, &was, &reply, &self.core);
        self.turn = turn.into_badge();
        pass.count = count + 1;
        reply
    }

    /// Creates a pass with the next number.
    pub fn split(&mut self, word: &Word<C>, pass: &mut Pass<C, N>) -> Pass<C, N>
        requires word { (word.now.table_id ≡ N.table) × (0 < word.now.table_id.words) }
        ensures same { pass.new ≡ pass.old }
        ensures new { Splits pass.old result }
    {
        let turn: SeatOf<C> = mem::replace(&mut self.turn, Badge::blank()).into_seat();
        take_turn(word, &mut pass.seat, turn);
        learn(word, &mut pass.seat);
        let seat = new_seat(word, &mut pass.seat);
        let turn = return_turn(word, &mut pass.seat);
        self.turn = turn.into_badge();
        Pass {
            seat,
            count: pass.count,
            of: PhantomData,
        }
    }

    /// Returns the core after the whole history.
    pub fn close(self, word: &Word<C>, pass: Pass<C, N>) -> C
        requires word { (word.now.table_id ≡ N.table) × (0 < word.now.table_id.words) }
        ensures { Closes C.step C.allows pass result }
    {
        let Locked { core, turn, of: _ } = self;
        let Pass {
            mut seat,
            count: _,
            of: _,
        } = pass;
        take_turn(word, &mut seat, turn.into_seat());
        learn(word, &mut seat);
        core
    }

    /// Meets a pass into the one that the core keeps, and makes the call, as one entry.
    pub fn act_meeting<R: Wait>(
        &mut self,
        rt: &R,
        word: &Word<C>,
        pass: &mut Pass<C, N>,
        other: &C::OtherCell,
        with: C::OtherPass,
        call: C::Call,
    ) -> C::Reply
    where
        C: Holds,
        requires word { (word.now.table_id ≡ N.table) × (0 < word.now.table_id.words) }
        requires allowed { C.allows pass.old.seen call }
        requires needs { C.needs pass.old.seen call with }
        ensures acts { MakesEntryOn C.step C.allows self.old pass.old call result pass.new
            self.new }
        ensures meets { (met : C) × C.takes self.old with met × C.acts met call result self.new }
    {
        let turn: SeatOf<C> = mem::replace(&mut self.turn, Badge::blank()).into_seat();
        take_turn(word, &mut pass.seat, turn);
        let count = has_room(rt, word, &mut pass.seat);
        let was = Snapshot::of(&call);
        let reply = answer_meeting(rt, &mut self.core, other, with, call);
        let turn = add_entry(word, &mut pass.seat, &was, &reply, &self.core);
        self.turn = turn.into_badge();
        pass.count = count + 1;
        reply
    }

    /// Splits a pass from the one that the core keeps, and makes the call, as one entry. If there is no
    /// pass, there is no entry.
    pub fn act_lending<R: Wait>(
        &mut self,
        rt: &R,
        word: &Word<C>,
        pass: &mut Pass<C, N>,
        other: &C::OtherCell,
        call: C::Call,
    ) -> Result<(C::Reply, C::OtherPass), AllocError>
    where
        C: Holds,
        requires word { (word.now.table_id ≡ N.table) × (0 < word.now.table_id.words) }
        requires allowed { C.allows pass.old.seen call }
        requires alone { C.alone call }
        ensures lent { IfOk result
            (λ r. Lends C.step C.allows C.lends pass.old call r.0 pass.new r.1) }
        ensures none { IfErr result (λ _. pass.new ≡ pass.old) }
    {
        let lent = self.core.lend(rt, other)?;
        let reply = self.act(rt, word, pass, call);
        Ok((reply, lent))
    }
}
