//! Making cells.
ghost use Rattle.std.specs.Prelude.{◌≡◌, [], IfOk, Some};

use crate::cell::Cell;
use crate::cores::Core;
use crate::locked::Locked;
use crate::naming::Naming;
use crate::pass::Pass;
use crate::rule::HistoryRule;
use crate::seats::{SeatOf, ViewOf, new_seat};
use atomic_table::Table;
use std::alloc::{AllocError, Global};
use std::marker::{Model, PhantomData};
use std::snapshot::Snapshot;
use std::sync::Mutex;

/// A cell without a name.
#[derive(Drop)]
pub struct Opened<C: Core> {
    table: Table<(), ViewOf<C>, Snapshot<C>, HistoryRule<C>, Global>,
    turn: SeatOf<C>,
    core: C,
}

impl<C: Core> Model for Opened<C> {
    ghost use Rattle.hist_cell.specs.Turn.{Unnamed, IsSeatOpened};

    ghost Value = { Unnamed C };

    ghost view = { λ o. record { table = o.table.shared.table_id; core = o.core } };

    ghost invariant = { λ o.
        IsSeatOpened C.sound o.table.shared.table_id o.turn.table_id o.turn.me o.core };
}

impl<C: Core + Drop> Opened<C> {
    /// Creates a cell with this core, and an empty history.
    pub fn new(alloc: Global, core: C) -> Result<Opened<C>, AllocError>
        requires sound { C.sound core }
        ensures core { IfOk result (λ o. o.core ≡ core) }
    {
        let start = Snapshot::of(&core);
        let (table, turn) = Table::of_words(alloc, &[0], &start)?;
        Ok(Opened { table, turn, core })
    }

    /// Names the cell. Its first pass has seen nothing.
    pub fn named<N: Naming>(self) -> (Cell<C, N>, Pass<C, N>)
        requires name { self.table ≡ N.table }
        ensures start { result.1.start ≡ Some self.core }
        ensures seen { (result.1.seen ≡ []) × (result.1.ended ≡ []) }
    {
        let Opened {
            table,
            mut turn,
            core,
        } = self;
        let seat = new_seat(&table.shared, &mut turn);
        let pass = Pass {
            seat,
            count: 0,
            of: PhantomData,
        };
        let lock = Mutex::new(Locked {
            core,
            turn: turn.into_badge(),
            of: PhantomData,
        });
        (Cell { table, lock }, pass)
    }
}
