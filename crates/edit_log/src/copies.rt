//! Copies of operations.
ghost use Rattle.std.specs.Prelude.{◌≡◌, IfOk};
ghost use Rattle.edit_ops.specs.Records.{HasSpelling, spelling};
ghost use Rattle.edit_ops.specs.declared.ops.EditOp.{EditOp};

use edit_ops::EditOp;
use hk_base::{NoMemory, RecordFault};
use std::alloc::Global;

/// Returns the operation whose record the bytes are.
pub(crate) fn operation_of(alloc: Global, bytes: &[u8]) -> Result<EditOp, NoMemory>
    requires { (op : EditOp) × HasSpelling op × (bytes.now ≡ spelling op) }
    ensures { IfOk result
        (λ copy. (op : EditOp) → HasSpelling op → bytes.now ≡ spelling op → copy ≡ op) }
{
    match EditOp::read(alloc, bytes) {
        Ok(op) => Ok(op),
        Err(RecordFault::NoMemory) => Err(NoMemory),
        Err(RecordFault::NoRecord) => unreachable!(),
    }
}
