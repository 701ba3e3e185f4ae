//! What contracts see of a history and of those who have seen it. No value of these types is made.
use std::collections::LinkedList;

/// One call of the history: the caller's number, the call, its reply and the state after it.
pub struct Entry<Q, R, S> {
    pub by: u64,
    pub call: Q,
    pub reply: R,
    pub after: S,
}

/// What a pass knows.
pub struct Known<Q, R, S> {
    pub number: u64,
    /// The numbers of the passes that were met into it, and their ended numbers.
    pub ended: LinkedList<u64>,
    /// The state in which the cell was made.
    pub start: Option<S>,
    /// The history as far as the pass has seen it.
    pub seen: LinkedList<Entry<Q, R, S>>,
}

/// What a seat at the history word knows.
pub struct View<Q, R, S> {
    /// Whether it has the turn, and may add an entry.
    pub turn: bool,
    /// Whether it was joined to another view, and knows nothing any longer.
    pub spent: bool,
    /// The number of the pass, and its ended numbers.
    pub numbers: LinkedList<u64>,
    /// The number of the next pass. The view with the turn has it.
    pub next: u64,
    pub start: Option<S>,
    /// The start that the view knew which was joined to this one last.
    pub begun: Option<S>,
    /// A history that was seen before.
    pub base: LinkedList<Entry<Q, R, S>>,
    /// The numbers whose entries in `seen` are all in `base`.
    pub held: LinkedList<u64>,
    /// The history as far as the seat has seen it.
    pub seen: LinkedList<Entry<Q, R, S>>,
}
