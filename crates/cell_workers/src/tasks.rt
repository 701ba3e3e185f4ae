//! What batch workers do next.
use crate::batches::Batch;
use name_calls::NPath;
use turns::Turns;

/// A task of a batch worker.
#[derive(Drop)]
pub enum Task<D, W, K: Drop, N: Drop, S: Turns<D = D, W = W, Keys = K, Names = N>> {
    /// Walk through the zone at this path.
    Walk(NPath),
    /// Serve this batch.
    Serve(Batch<D, W, K, N, S>),
}
