//! Threads may share both cells.
use crate::shared::Shared;
use hist_cell::Naming;
use hk_base::{Clock, Disk, Words};
use kms_cell::KmsCell;

fn shares<T: Sync>(_x: &T) {}

/// Does nothing: threads may share both cells.
pub fn both_are_shared<
    D: Disk + Send + Drop,
    W: Words + Send,
    C: Clock + Send,
    M: Naming + Send + Sync,
    N: Naming + Send + Sync,
>(shared: &Shared<KmsCell<D, W, C, M>, N>) {
    shares(shared)
}
