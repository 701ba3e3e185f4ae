//! The rule of the history word, and what each step on it does to a view.
ghost use Rattle.std.specs.Prelude.{Option, None};

use crate::cores::Core;
use crate::views::{Entry, View};
use atomic_table::{Join, Play, Split, TableRule};
use std::marker::{Brand, PhantomData};
use std::snapshot::Snapshot;

/// The entry that a commit adds, for proofs alone.
pub trait AddsEntry<X> {
    ghost entry: { Option X };
}

impl<X> AddsEntry<X> for Brand {
    ghost entry = { None };
}

/// The rule: the word counts the entries of a legal history, and each view is a prefix of it.
pub struct HistoryRule<C> {
    core: PhantomData<C>,
}

impl<C: Core> TableRule<(), View<C::Call, C::Reply, C>, Snapshot<C>> for HistoryRule<C> {
    ghost use Rattle.hist_cell.specs.History.{KeepsRule, first_view};

    ghost holds = { λ key s. KeepsRule C.step C.allows key.value s };

    ghost first = { λ key. first_view key.value };
}

/// A caller's view takes the turn.
pub struct TakeTurn;

impl<Q, R, S> Join<View<Q, R, S>> for TakeTurn {
    ghost use Rattle.hist_cell.specs.History.{with_turn, spent_view};

    ghost both = { with_turn };

    ghost spent = { spent_view };
}

/// Another caller's view is joined to one's own.
pub struct Unite;

impl<Q, R, S> Join<View<Q, R, S>> for Unite {
    ghost use Rattle.hist_cell.specs.History.{united, spent_view};

    ghost both = { united };

    ghost spent = { spent_view };
}

/// The turn goes back.
pub struct GiveTurn;

impl<Q, R, S> Split<View<Q, R, S>> for GiveTurn {
    ghost use Rattle.hist_cell.specs.History.{without_turn, turn_of};

    ghost left = { without_turn };

    ghost right = { turn_of };
}

/// The turn goes back, and the view is what it was before.
pub struct ReturnTurn;

impl<Q, R, S> Split<View<Q, R, S>> for ReturnTurn {
    ghost use Rattle.hist_cell.specs.History.{as_before, turn_of};

    ghost left = { as_before };

    ghost right = { turn_of };
}

/// Reads the number of entries.
pub struct Learn<C> {
    core: PhantomData<C>,
}

impl<C: Core> Play<(), View<C::Call, C::Reply, C>> for Learn<C> {
    ghost use Rattle.std.specs.Prelude.{◌≡◌};
    ghost use Rattle.hist_cell.specs.History.{Learns};

    ghost then = { λ s m found n. Learns C.step C.allows m.0 found × (n ≡ m) };
}

/// Adds an entry.
pub struct Commit<C, W> {
    of: PhantomData<(C, W)>,
}

impl<C: Core, W: AddsEntry<Entry<C::Call, C::Reply, C>>> Play<(), View<C::Call, C::Reply, C>>
    for Commit<C, W> {
    ghost use Rattle.std.specs.Prelude.{◌≡◌};
    ghost use Rattle.hist_cell.specs.History.{Committed};

    ghost then = { λ s m found n. Committed C.step C.allows W.entry m.0 n.0 × (n.1 ≡ m.1) };
}

/// A view of a new caller.
pub struct NewView;

impl<Q, R, S> Split<View<Q, R, S>> for NewView {
    ghost use Rattle.hist_cell.specs.History.{counted, newcomer};

    ghost left = { counted };

    ghost right = { newcomer };
}
