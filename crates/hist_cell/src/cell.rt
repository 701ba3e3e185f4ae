//! Cells.
ghost use Rattle.std.specs.Prelude.{◌≡◌, cond, ltb, IfErr, IfOk};
ghost use Rattle.hist_cell.specs.History.{Closes, Lends, LegalOf, MakesEntry, Meets, Splits, TakesIn};

use crate::cores::Core;
use crate::holds::Holds;
use crate::locked::Locked;
use crate::naming::Naming;
use crate::pass::Pass;
use crate::rule::HistoryRule;
use crate::seats::{ViewOf, join_view, learn};
use atomic_table::Table;
use std::alloc::{AllocError, Global};
use std::snapshot::Snapshot;
use std::sync::{Mutex, Wait};

/// A core that threads share. Its calls are one legal history.
#[derive(Drop)]
pub struct Cell<C: Core, N: Naming> {
    pub(crate) table: Table<(), ViewOf<C>, Snapshot<C>, HistoryRule<C>, Global>,
    pub(crate) lock: Mutex<Locked<C, N>>,
    ghost named: { table.shared.table_id ≡ N.table },
    ghost word: { table.shared.table_id.words ≡ 1 },
}

fn larger(a: u64, b: u64) -> u64
    ensures { result ≡ cond (ltb a b) b a }
{
    if a < b { b } else { a }
}

impl<C: Core, N: Naming> Cell<C, N> {
    /// Makes a call, which is one entry of the history. What the pass has seen must allow it, and it must
    /// need no pass of another cell. It may wait for the lock. If the history has 2^64 - 1 entries, it
    /// never returns.
    pub fn act<R: Wait>(&self, rt: &R, pass: &mut Pass<C, N>, call: C::Call) -> C::Reply
        requires allowed { C.allows pass.old.seen call }
        requires alone { C.alone call }
        ensures { MakesEntry C.step C.allows pass.old call result pass.new }
    {
        self.lock.lock(rt).act(rt, &self.table.shared, pass, call)
    }

    /// Meets `with` into the pass that the core keeps, and makes the call, as one entry of the history. The
    /// state of the entry shows the kept pass after the meeting.
    /// What `pass` has seen must allow the call, and `with` must be a pass that the call needs, as one that
    /// has seen the reply which the call uses. It may wait for the lock of this cell and then for that of
    /// the other one. If the history has 2^64 - 1 entries, it never returns.
    pub fn act_meeting<R: Wait>(
        &self,
        rt: &R,
        pass: &mut Pass<C, N>,
        other: &C::OtherCell,
        with: C::OtherPass,
        call: C::Call,
    ) -> C::Reply
    where
        C: Holds,
        requires allowed { C.allows pass.old.seen call }
        requires needs { C.needs pass.old.seen call with }
        ensures { TakesIn C.step C.allows C.takes C.acts pass.old with call result pass.new }
    {
        self.lock
            .lock(rt)
            .act_meeting(rt, &self.table.shared, pass, other, with, call)
    }

    /// Splits a pass from the one that the core keeps, and makes the call, as one entry of the history. The
    /// new pass has seen as much of the other cell as the kept one had just before the entry. What `pass`
    /// has seen must allow the call, which must need no pass of the other cell. If there is no memory for the
    /// new pass, no entry is made. It waits as `act_meeting` does.
    pub fn act_lending<R: Wait>(
        &self,
        rt: &R,
        pass: &mut Pass<C, N>,
        other: &C::OtherCell,
        call: C::Call,
    ) -> Result<(C::Reply, C::OtherPass), AllocError>
    where
        C: Holds,
        requires allowed { C.allows pass.old.seen call }
        requires alone { C.alone call }
        ensures lent { IfOk result
            (λ r. Lends C.step C.allows C.lends pass.old call r.0 pass.new r.1) }
        ensures none { IfErr result (λ _. pass.new ≡ pass.old) }
    {
        self.lock
            .lock(rt)
            .act_lending(rt, &self.table.shared, pass, other, call)
    }

    /// Creates a pass with a new number, which has seen what the old one has. It may wait.
    pub fn split<R: Wait>(&self, rt: &R, pass: &mut Pass<C, N>) -> Pass<C, N>
        ensures same { pass.new ≡ pass.old }
        ensures new { Splits pass.old result }
    {
        self.lock.lock(rt).split(&self.table.shared, pass)
    }

    /// Joins a pass to another, which has then seen what both had.
    pub fn meet<R: Wait>(&self, _rt: &R, into: &mut Pass<C, N>, from: Pass<C, N>)
        ensures both { Meets into.old from into.new }
        ensures legal { LegalOf C.step C.allows into.new.start into.new.seen }
    {
        let Pass { seat, count, of: _ } = from;
        join_view(&self.table.shared, &mut into.seat, seat);
        learn(&self.table.shared, &mut into.seat);
        into.count = larger(into.count, count);
    }

    /// Returns the core after the whole history. Other passes may have been dropped.
    pub fn close(self, pass: Pass<C, N>) -> C
        ensures { Closes C.step C.allows pass result }
    {
        let Cell { table, lock } = self;
        lock.into_inner().close(&table.shared, pass)
    }
}
