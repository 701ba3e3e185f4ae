//! Passes.
ghost use Rattle.std.specs.Prelude.{◌≡◌, length};
ghost use Rattle.hist_cell.specs.History.{LegalOf};

use crate::cores::Core;
use crate::naming::Naming;
use crate::seats::SeatOf;
use std::marker::{Model, PhantomData};

/// What a caller has seen of a cell. Contracts see its number, its ended numbers, the state in which
/// the cell was made, and the history so far.
#[derive(Drop)]
pub struct Pass<C: Core, N: Naming> {
    pub(crate) seat: SeatOf<C>,
    pub(crate) count: u64,
    pub(crate) of: PhantomData<N>,
}

impl<C: Core, N: Naming> Model for Pass<C, N> {
    ghost use Rattle.hist_cell.specs.declared.views.Known.{Known};
    ghost use Rattle.hist_cell.specs.History.{known};
    ghost use Rattle.hist_cell.specs.Turn.{IsPass};

    ghost Value = { Known C.Call C.Reply C };

    ghost view = { λ p. known p.seat.me.0 };

    ghost invariant = { λ p. IsPass C.step C.allows N.table p.seat.table_id p.count p.seat.me };
}

impl<C: Core, N: Naming> Pass<C, N> {
    /// Returns the number of entries that it has seen. They are a legal history.
    pub fn count(&self) -> u64
        ensures count { result ≡ length self.now.seen }
        ensures legal { LegalOf C.step C.allows self.now.start self.now.seen }
    {
        self.count
    }
}
