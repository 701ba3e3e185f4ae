//! Names of cells.
use std::marker::Brand;

/// Names a cell in the types of its passes, so that a pass of another cell is refused.
pub trait Naming {
    ghost use Rattle.atomic_table.specs.Seated.{TableId};

    /// The table of the cell.
    ghost table: { TableId };
}

impl Naming for Brand {
    ghost use Rattle.hist_cell.specs.Turn.{no_table};

    ghost table = { no_table };
}
