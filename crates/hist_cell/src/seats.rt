//! The steps on the history word.
ghost use Rattle.std.specs.Prelude.{◌≡◌, ◌<◌, ◌+◌, ◌^◌, [], ◌∷◌, ◌++◌, true, false, length, Some};
ghost use Rattle.hist_cell.specs.History.{IsIn, Learns, LegalOf, Follows, entry_by, first_number, with_entry, with_turn, without_turn, as_before, turn_of, united, counted, newcomer};
ghost use Rattle.hist_cell.specs.declared.views.Entry.{Entry as AnEntry};

use crate::cores::Core;
use crate::rule::{
    AddsEntry, Commit, GiveTurn, HistoryRule, Learn, NewView, ReturnTurn, TakeTurn, Unite,
};
use crate::views::{Entry, View};
use atomic_table::{Seat, Shared};
use std::marker::Brand;
use std::snapshot::Snapshot;
use std::sync::Wait;

/// An entry of the history of a core.
pub type EntryOf<C> = Entry<<C as Core>::Call, <C as Core>::Reply, C>;

/// A view of the history of a core.
pub type ViewOf<C> = View<<C as Core>::Call, <C as Core>::Reply, C>;

/// The history word.
pub type Word<C> = Shared<(), ViewOf<C>, Snapshot<C>, HistoryRule<C>>;

/// A seat at the history word.
pub type SeatOf<C> = Seat<(), ViewOf<C>>;

/// Adds the entry of a call to the history. The seat must have the turn.
pub fn commit<C: Core, W: AddsEntry<EntryOf<C>>>(
    word: &Word<C>,
    seat: &mut SeatOf<C>,
    _call: &Snapshot<C::Call>,
    _reply: &C::Reply,
    _core: &C,
) -> u64
    requires seat { (seat.old.table_id ≡ word.now.table_id) × (0 < word.now.table_id.words) ×
        (seat.old.me.1 ≡ []) }
    requires turn { (seat.old.me.0.turn ≡ true) × (length seat.old.me.0.seen + 1 < 2 ^ 64) }
    requires said { (e : AnEntry C.Call C.Reply C) × (W.entry ≡ Some e) ×
        IsIn e.by seat.old.me.0.numbers ×
        Follows C.step C.allows seat.old.me.0.start seat.old.me.0.seen e }
    ensures seat { (seat.new.table_id ≡ seat.old.table_id) × (seat.new.id ≡ seat.old.id) ×
        (seat.new.me.1 ≡ []) }
    ensures entry { (e : AnEntry C.Call C.Reply C) × (W.entry ≡ Some e) ×
        (seat.new.me.0 ≡ with_entry seat.old.me.0 e) ×
        LegalOf C.step C.allows seat.old.me.0.start (seat.old.me.0.seen ++ e ∷ []) }
{
    word.fetch_add::<Commit<C, W>>(seat, 0, 1)
}

/// Reads the number of entries, which tells what the rule says of the view.
pub fn learn<C: Core>(word: &Word<C>, seat: &mut SeatOf<C>) -> u64
    requires seat { (seat.old.table_id ≡ word.now.table_id) × (0 < word.now.table_id.words) }
    ensures same { (seat.new.table_id ≡ seat.old.table_id) × (seat.new.id ≡ seat.old.id) ×
        (seat.new.me ≡ seat.old.me) }
    ensures tells { Learns C.step C.allows seat.old.me.0 result }
{
    word.load::<Learn<C>>(seat, 0)
}

/// Takes the turn. The view has then seen the whole history.
pub fn take_turn<C: Core>(word: &Word<C>, seat: &mut SeatOf<C>, turn: SeatOf<C>)
    requires seat { (seat.old.table_id ≡ word.now.table_id) × (0 < word.now.table_id.words) }
    requires turn { (turn.table_id ≡ word.now.table_id) × (turn.me.1 ≡ []) ×
        (turn.me.0.turn ≡ true) }
    requires alive { seat.old.me.0.spent ≡ false }
    ensures { (seat.new.table_id ≡ seat.old.table_id) × (seat.new.id ≡ seat.old.id) ×
        (seat.new.me ≡ (with_turn seat.old.me.0 turn.me.0, seat.old.me.1)) }
{
    word.join_seat::<TakeTurn>(seat, turn);
}

/// Joins the view of another pass to one's own.
pub fn join_view<C: Core>(word: &Word<C>, seat: &mut SeatOf<C>, other: SeatOf<C>)
    requires seat { (seat.old.table_id ≡ word.now.table_id) × (0 < word.now.table_id.words) }
    requires other { (other.table_id ≡ word.now.table_id) × (other.me.1 ≡ []) }
    requires alive { (seat.old.me.0.spent ≡ false) × (other.me.0.spent ≡ false) }
    ensures { (seat.new.table_id ≡ seat.old.table_id) × (seat.new.id ≡ seat.old.id) ×
        (seat.new.me ≡ (united seat.old.me.0 other.me.0, seat.old.me.1)) }
{
    word.join_seat::<Unite>(seat, other);
}

/// Gives the turn back. The view keeps what it has seen.
pub fn give_turn<C: Core>(word: &Word<C>, seat: &mut SeatOf<C>) -> SeatOf<C>
    requires seat { (seat.old.table_id ≡ word.now.table_id) × (0 < word.now.table_id.words) }
    requires turn { seat.old.me.0.turn ≡ true }
    ensures mine { (seat.new.table_id ≡ seat.old.table_id) × (seat.new.id ≡ seat.old.id) ×
        (seat.new.me ≡ (without_turn seat.old.me.0, seat.old.me.1)) }
    ensures turn { (result.table_id ≡ seat.old.table_id) ×
        (result.me ≡ (turn_of seat.old.me.0, [])) }
{
    word.split_seat::<GiveTurn>(seat)
}

/// Adds the entry of a call to the history, and gives the turn back. The view keeps what it has seen.
pub fn add_entry<C: Core>(
    word: &Word<C>,
    seat: &mut SeatOf<C>,
    call: &Snapshot<C::Call>,
    reply: &C::Reply,
    core: &C,
) -> SeatOf<C>
    requires seat { (seat.old.table_id ≡ word.now.table_id) × (0 < word.now.table_id.words) ×
        (seat.old.me.1 ≡ []) }
    requires turn { (seat.old.me.0.turn ≡ true) × (length seat.old.me.0.seen + 1 < 2 ^ 64) }
    requires number { IsIn (first_number seat.old.me.0.numbers) seat.old.me.0.numbers }
    requires follows { Follows C.step C.allows seat.old.me.0.start seat.old.me.0.seen
        (entry_by seat.old.me.0 call.now.value reply.now core.now) }
    ensures mine { (seat.new.table_id ≡ seat.old.table_id) × (seat.new.id ≡ seat.old.id) ×
        (seat.new.me ≡ (
          without_turn
              (with_entry seat.old.me.0
              (entry_by seat.old.me.0 call.now.value reply.now core.now)),
          [],
        )) }
    ensures turn { (result.table_id ≡ seat.old.table_id) ×
        (result.me ≡ (
          turn_of
              (with_entry seat.old.me.0
              (entry_by seat.old.me.0 call.now.value reply.now core.now)),
          [],
        )) }
    ensures legal { LegalOf C.step C.allows seat.old.me.0.start
        (seat.old.me.0.seen ++ entry_by seat.old.me.0 call.now.value reply.now core.now ∷ []) }
{
    commit::<C, Brand>(word, seat, call, reply, core);
    give_turn(word, seat)
}

/// Gives the turn back. The view is what it was before it took the turn.
pub fn return_turn<C: Core>(word: &Word<C>, seat: &mut SeatOf<C>) -> SeatOf<C>
    requires seat { (seat.old.table_id ≡ word.now.table_id) × (0 < word.now.table_id.words) }
    requires turn { seat.old.me.0.turn ≡ true }
    requires held { seat.old.me.0.held ≡ seat.old.me.0.numbers }
    ensures mine { (seat.new.table_id ≡ seat.old.table_id) × (seat.new.id ≡ seat.old.id) ×
        (seat.new.me ≡ (as_before seat.old.me.0, seat.old.me.1)) }
    ensures turn { (result.table_id ≡ seat.old.table_id) ×
        (result.me ≡ (turn_of seat.old.me.0, [])) }
{
    word.split_seat::<ReturnTurn>(seat)
}

/// Creates the seat of a new pass, which has seen what this one had before it took the turn.
pub fn new_seat<C: Core>(word: &Word<C>, seat: &mut SeatOf<C>) -> SeatOf<C>
    requires seat { (seat.old.table_id ≡ word.now.table_id) × (0 < word.now.table_id.words) }
    requires turn { seat.old.me.0.turn ≡ true }
    ensures mine { (seat.new.table_id ≡ seat.old.table_id) × (seat.new.id ≡ seat.old.id) ×
        (seat.new.me ≡ (counted seat.old.me.0, seat.old.me.1)) }
    ensures new { (result.table_id ≡ seat.old.table_id) ×
        (result.me ≡ (newcomer seat.old.me.0, [])) }
{
    word.split_seat::<NewView>(seat)
}

/// Reads the number of entries. If the history cannot grow, it never returns.
pub fn has_room<C: Core, R: Wait>(rt: &R, word: &Word<C>, seat: &mut SeatOf<C>) -> u64
    requires seat { (seat.old.table_id ≡ word.now.table_id) × (0 < word.now.table_id.words) }
    requires turn { seat.old.me.0.turn ≡ true }
    ensures same { (seat.new.table_id ≡ seat.old.table_id) × (seat.new.id ≡ seat.old.id) ×
        (seat.new.me ≡ seat.old.me) }
    ensures tells { Learns C.step C.allows seat.old.me.0 result }
    ensures room { (result ≡ length seat.old.me.0.seen) × (result + 1 < 2 ^ 64) }
{
    let found = learn(word, seat);
    if found == u64::MAX {
        for _ in rt.forever() {}
        unreachable!()
    }
    found
}
