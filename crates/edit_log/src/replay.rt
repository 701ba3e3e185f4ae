//! Reading the records of an edit log: each is an operation, and the openings among them count from 1.
ghost use Rattle.std.specs.Prelude.{◌≡◌, ℕ, IfOk, IsErrOf};
ghost use Rattle.frame_log.specs.declared.fault.StartFault.TheVariants.{Damaged, StoreFault, Spent};
ghost use Rattle.edit_log.specs.Replay.{IsNext, IsNoNext, IsTaken, in_turn, then_last};

use edit_ops::EditOp;
use frame_log::StartFault;
use hk_base::{NoMemory, RecordFault};
use std::alloc::Global;

/// An operation and the offset of the gate byte before its record.
#[derive(Drop)]
pub struct PlacedOp {
    pub at: u64,
    pub op: EditOp,
}

/// Returns whether an operation may follow this last opening.
fn is_in_turn(last: u32, op: &EditOp) -> bool
    ensures { result ≡ in_turn last op.now }
{
    match op {
        EditOp::Opened { opening } => *opening as u64 == last as u64 + 1,
        _ => 0 < last,
    }
}

/// Returns the last opening after the operation.
pub(crate) fn opening_after(last: u32, op: &EditOp) -> u32
    ensures { result ≡ then_last last op.now }
{
    match op {
        EditOp::Opened { opening } => *opening,
        _ => last,
    }
}

/// Returns the operation that a record spells, or `None` if it spells none or one that is out of turn.
fn next_op(alloc: Global, last: u32, payload: &[u8]) -> Result<Option<EditOp>, NoMemory>
    ensures { IfOk result (λ op. IsTaken last payload.now op) }
{
    let op = match EditOp::read(alloc, payload) {
        Ok(op) => op,
        Err(RecordFault::NoRecord) => return Ok(None),
        Err(RecordFault::NoMemory) => return Err(NoMemory),
    };
    if !is_in_turn(last, &op) {
        return Ok(None);
    }
    Ok(Some(op))
}

/// Returns the operation that a record spells, with the offset of the gate before it. Returns `Damaged`
/// if it spells none or one that is out of turn.
pub(crate) fn read_record(
    alloc: Global,
    last: u32,
    at: u64,
    payload: &[u8],
) -> Result<PlacedOp, StartFault>
    ensures read { IfOk result (λ placed. (placed.at ≡ at) × IsNext last payload.now placed.op) }
    ensures damaged { (other : ℕ) → IsErrOf result (Damaged other) →
        (other ≡ at) × IsNoNext last payload.now }
    ensures fault { IsErrOf result StoreFault → ⊥ }
    ensures spent { IsErrOf result Spent → ⊥ }
{
    match next_op(alloc, last, payload)? {
        None => return Err(StartFault::Damaged { at }),
        Some(op) => return Ok(PlacedOp { at, op }),
    }
}
