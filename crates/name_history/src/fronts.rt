//! Batches that walks gave.
use reenc_walk::BatchNote;

/// A batch that a walk gave, and its front: how many entries of the history of the keys the namesystem's
/// pass had seen at that walk. The encrypted keys of the batch were drawn by then.
#[derive(Drop)]
pub struct Front {
    pub note: BatchNote,
    pub count: u64,
}
