//! Both services in their cells.
ghost use Rattle.std.specs.Prelude.{◌≡◌};

use crate::cases::{Case, Outcome, run_case};
use crate::services::{Disks, Ticks, start};
use disk_kinds::{ChaWords, PlainDisk};
use hist_cell::Naming;
use hk_base::{Clock, Disk, Words};
use hk_shared::{Closed, NamesOpening, Opening};
use kms_cell::{KmsCell, KmsPass};
use std::marker::Brand;
use std::process::Abort;
use std::sync::Wait;

/// What came of a case, and the disks after the cells were closed.
#[derive(Drop)]
pub struct Left {
    pub outcome: Outcome,
    pub disks: Disks,
}

/// Names the cell of the namesystem, runs a case over both cells, and closes them.
fn run_named<
    M: Naming,
    N: Naming,
    R: Wait + Abort + AllocGlobal,
    D: Disk + Drop,
    W: Words + Drop,
    C: Clock + Drop,
>(
    rt: &R,
    cells: NamesOpening<KmsCell<D, W, C, M>>,
    keys: KmsPass<D, W, C, M>,
    case: Case,
) -> (Outcome, Closed<D>)
    requires name { cells.names.table ≡ N.table }
{
    let (shared, names) = cells.named::<N>();
    let (outcome, keys, names) = run_case(rt, &shared, keys, names, case);
    (outcome, shared.close(rt, keys, names))
}

/// Names both cells, the one of the keys first, runs a case over them, and closes them.
fn run_opened<
    M: Naming,
    R: Wait + Abort + AllocGlobal,
    D: Disk + Drop,
    W: Words + Drop,
    C: Clock + Drop,
>(rt: &R, opening: Opening<D, W, C>, case: Case) -> (Outcome, Closed<D>)
    requires name { opening.keys.table ≡ M.table }
{
    let (cells, keys) = opening.named::<M, R>(rt, rt.alloc()).expect(rt, "memory");
    run_named::<M, Brand, R, D, W, C>(rt, cells, keys, case)
}

/// Starts both services on their disks, runs a case over them in cells, and closes the cells. The random
/// words have this seed.
pub fn run<R: Wait + Abort + AllocGlobal>(rt: &R, disks: Disks, seed: u8, case: Case) -> Left {
    let opening = start(rt, disks, seed);
    let (outcome, closed) = run_opened::<Brand, R, PlainDisk, ChaWords, Ticks>(rt, opening, case);
    let (keys, names) = closed.into_disks();
    Left {
        outcome,
        disks: Disks { keys, names },
    }
}
