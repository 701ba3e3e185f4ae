//! The namesystem may move to another thread if its parts may, and threads may share its cell.
use crate::calls::NameCell;
use crate::side::NameSide;
use hist_cell::Naming;
use hk_base::{Clock, Disk, Words};
use kms_cell::KmsCell;

fn moves<T: Send>(x: T) -> T {
    x
}

fn shares<T: Sync>(_x: &T) {}

/// Returns the namesystem as it is: it moves if its parts do.
pub fn side_moves<D: Disk + Drop + Send, W: Words + Send, C: Clock + Send, M: Naming + Send + Sync>(
    side: NameSide<KmsCell<D, W, C, M>>,
) -> NameSide<KmsCell<D, W, C, M>> {
    moves(side)
}

/// Does nothing: threads may share the cell.
pub fn cell_is_shared<
    D: Disk + Drop + Send,
    W: Words + Send,
    C: Clock + Send,
    M: Naming + Send + Sync,
    N: Naming + Send + Sync,
>(cell: &NameCell<KmsCell<D, W, C, M>, N>) {
    shares(cell)
}
