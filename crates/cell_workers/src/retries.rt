//! What follows a walk and a delivery.
ghost use Rattle.std.specs.Prelude.{◌≡◌};
ghost use Rattle.cell_workers.specs.Retries.{after_delivery, after_walk, is_temporary};

use name_calls::{Delivered, NameRefusal};
use name_core::Walked;
use reenc_walk::BatchNote;

/// What follows a walk.
#[derive(Drop)]
pub enum AfterWalk {
    /// The batch is served.
    Serve(BatchNote),
    /// The zone is walked through again, after a moment.
    Again,
    /// The zone is left.
    Nothing,
}

/// What follows a delivery.
#[derive(Clone, Copy)]
pub enum AfterDelivery {
    /// The zone is walked through.
    Walk,
    /// The batch is served and delivered again, after a moment.
    Again,
    /// The zone is left.
    Nothing,
}

/// Returns whether a refusal is for the disk or for memory, so that the same may be accepted later.
fn is_temporary(why: &NameRefusal) -> bool
    ensures { result ≡ is_temporary why.now }
{
    match why {
        NameRefusal::NoMemory => true,
        NameRefusal::StoreFault => true,
        _ => false,
    }
}

/// Returns what follows a walk with this answer.
pub fn after_walk(gave: Result<Walked, NameRefusal>) -> AfterWalk
    ensures { result ≡ after_walk gave }
{
    match gave {
        Ok(Walked::Batch(note)) => AfterWalk::Serve(note),
        Ok(Walked::NoneLeft { .. }) => AfterWalk::Nothing,
        Ok(Walked::Completed) => AfterWalk::Nothing,
        Err(why) => {
            if is_temporary(&why) {
                AfterWalk::Again
            } else {
                AfterWalk::Nothing
            }
        }
    }
}

/// Returns what follows a delivery with this answer.
pub fn after_delivery(answer: &Result<Delivered, NameRefusal>) -> AfterDelivery
    ensures { result ≡ after_delivery answer.now }
{
    match answer {
        Ok(_) => AfterDelivery::Walk,
        Err(why) => {
            if is_temporary(why) {
                AfterDelivery::Again
            } else {
                AfterDelivery::Nothing
            }
        }
    }
}
