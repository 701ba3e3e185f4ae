//! The service may move to another thread if its parts may, and threads may share its cell.
use crate::calls::KmsCell;
use crate::side::KmsSide;
use hist_cell::Naming;
use hk_base::{Clock, Disk, Words};

fn moves<T: Send>(x: T) -> T {
    x
}

fn shares<T: Sync>(_x: &T) {}

/// Returns the service as it is: it moves if its parts do.
pub fn side_moves<D: Disk + Send, W: Words + Send, C: Clock + Send>(
    side: KmsSide<D, W, C>,
) -> KmsSide<D, W, C> {
    moves(side)
}

/// Does nothing: threads may share the cell.
pub fn cell_is_shared<D: Disk + Send, W: Words + Send, C: Clock + Send, N: Naming + Send + Sync>(
    cell: &KmsCell<D, W, C, N>,
) {
    shares(cell)
}
