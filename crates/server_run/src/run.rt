//! A run of the server.
ghost use Rattle.std.specs.Prelude.{◌≡◌, ◌⊎◌, IfErr, IfOk, IsFalse, IsTrue};
ghost use Rattle.hk_base.specs.Faults.{Rose};
ghost use Rattle.cell_server.specs.Connections.{serving_by};
ghost use Rattle.server_parts.specs.Yards.{GivenBack, YardState};
ghost use Rattle.server_run.specs.Opening.{BothOpened};
ghost use Rattle.server_run.specs.Runs.{DisksFailed, EndsAs, RanFromCells, RanFromOpening, end_of};

use crate::opening::{KEYS, NAMES, OpenFault, open_services};
use cell_server::{ServeEnd, serve_all};
use frame_log::StartFault;
use hist_cell::Naming;
use hk_base::{Clock, Disk, Gate, NoMemory, Point, Words};
use hk_shared::{Closed, NamesOpening, Opening};
use kms_cell::{KmsCell, KmsPass};
use prop_text::Props;
use server_parts::{Door, Yard};
use std::alloc::Global;
use std::marker::Brand;
use std::sync::Wait;
use std::thread::Threads;

/// How a run of the server ended.
#[derive(Clone, Copy, Debug, PartialEq, Eq)]
pub enum RunEnd {
    /// All connections were served.
    Served,
    /// The door took no more connections.
    Closed,
    /// The door failed.
    DoorFault,
    /// A disk failed while the server ran.
    StoreFault,
    /// Allocation failed.
    NoMemory,
    /// The log on this file could not be opened.
    NotOpened { file: u8, fault: StartFault },
}

/// What a server serves with: the port, the number of connections after which it ends, how many of them
/// are served at a time, and the random words of its two fillers.
#[derive(Drop)]
pub struct ServerPlan<V: Words + Drop> {
    pub port: u16,
    pub conns: u32,
    /// At least 1.
    pub places: u16,
    pub first: V,
    pub second: V,
}

/// A gate that never waits.
#[derive(Clone, Copy, Drop)]
struct OpenGate;

impl Gate for OpenGate {
    fn pass<R: Wait>(&self, _rt: &R, _point: Point) {}
}

/// Names the cell of the namesystem, serves with both cells, and closes them.
fn serve_named<
    M: Naming + Send + Sync,
    N: Naming + Send + Sync,
    R: Threads + Wait + Sync,
    D: Disk + Send + Drop,
    W: Words + Send + Drop,
    C: Clock + Send + Drop,
    V: Words + Send + Drop,
    A: Door,
>(
    rt: &R,
    alloc: Global,
    cells: NamesOpening<KmsCell<D, W, C, M>>,
    mut keys: KmsPass<D, W, C, M>,
    door: &mut A,
    plan: ServerPlan<V>,
) -> (Closed<D>, ServeEnd)
    requires name { cells.names.table ≡ N.table }
    ensures ran { RanFromCells D.state W.to_come (serving_by A.In.Source A.Out.Sink)
        (V.to_come plan.first) (V.to_come plan.second) plan.port plan.conns
        (A.state door.old) (A.state door.new) result.1 keys cells.names.core
        result.0.keys_disk result.0.names_disk }
    ensures cause { result.1 ≡ ServeEnd.DoorFault → Rose (A.faults door.old) (A.faults door.new) }
{
    let (shared, mut names) = cells.named::<N>();
    let ServerPlan {
        port,
        conns,
        places,
        first,
        second,
    } = plan;
    let end = serve_all(
        rt, alloc, &shared, &mut keys, &mut names, door, port, conns, places, first, second,
        &OpenGate,
    );
    let closed = shared.close(rt, keys, names);
    // Each service keeps its rules, and its log is on its own file.
    let _ = closed.kms.count();
    closed.names.invariants();
    (closed, end)
}

/// Names the cell of the key management service, makes and names that of the namesystem, serves with both
/// cells, and closes them. Returns `NoMemory` if the cell of the namesystem can't be made; both services
/// and their disks are then dropped, and the door is unchanged.
fn serve_opened<
    M: Naming + Send + Sync,
    R: Threads + Wait + Sync,
    D: Disk + Send + Drop,
    W: Words + Send + Drop,
    C: Clock + Send + Drop,
    V: Words + Send + Drop,
    A: Door,
>(
    rt: &R,
    alloc: Global,
    opening: Opening<D, W, C>,
    door: &mut A,
    plan: ServerPlan<V>,
) -> Result<(Closed<D>, ServeEnd), NoMemory>
    requires name { opening.keys.table ≡ M.table }
    ensures ran { IfOk result
        (λ served.
        RanFromOpening D.state W.to_come (serving_by A.In.Source A.Out.Sink)
        (V.to_come plan.first) (V.to_come plan.second) plan.port plan.conns
        (A.state door.old) (A.state door.new) served.1 opening served.0.keys_disk
        served.0.names_disk) }
    ensures cause { IfOk result
        (λ served. served.1 ≡ ServeEnd.DoorFault → Rose (A.faults door.old) (A.faults door.new)) }
    ensures unserved { IfErr result (λ _. door.new ≡ door.old) }
{
    match opening.named::<M, R>(rt, alloc) {
        Ok((cells, keys)) => Ok(serve_named::<M, Brand, R, D, W, C, V, A>(
            rt, alloc, cells, keys, door, plan,
        )),
        Err(_) => {
            drop(plan);
            Err(NoMemory)
        }
    }
}

/// Gives both disks back. Returns whether either has counted a fault.
#[tactic(auto, using(crate::proofs::RunLemmas::disks_failed))]
fn give_both<Y: Yard>(yard: &mut Y, keys: Y::Own, names: Y::Own) -> bool
    requires keys_away { IsFalse ((Y.state yard.old).lies 0) }
    requires names_away { IsFalse ((Y.state yard.old).lies 1) }
    ensures given { (mid : YardState) × GivenBack 0 (Y.state yard.old) mid (Y.Own.state keys) ×
        GivenBack 1 mid (Y.state yard.new) (Y.Own.state names) }
    ensures failed { DisksFailed result (Y.Own.state keys).faults (Y.Own.state names).faults }
{
    let keys_failed = yard.give(KEYS, keys);
    let names_failed = yard.give(NAMES, names);
    keys_failed || names_failed
}

/// How the run ends if the serving ended so, and a disk failed or none did.
fn run_end(end: ServeEnd, failed: bool) -> RunEnd
    ensures { result ≡ end_of end failed }
{
    match end {
        ServeEnd::NoMemory => RunEnd::NoMemory,
        _ if failed => RunEnd::StoreFault,
        ServeEnd::Served => RunEnd::Served,
        ServeEnd::Closed => RunEnd::Closed,
        ServeEnd::DoorFault => RunEnd::DoorFault,
    }
}

/// Opens the key log and then the edit log, each on the disk that the yard gives for it, under
/// properties that were read. It serves as many connections as the plan says, by `serve_all`, and then
/// gives both disks back. The key management service draws from `words`, and its calls happen at the
/// times that the clock shows. It may wait, for connections and for threads.
///
/// - `NotOpened` if a log can't be opened: the first that has a fault. Both disks then lie in the yard,
///   and no connection was accepted. The file of that log reads as before or as a start leaves it. If it
///   is the edit log, the key log has the record of its new opening; else the edit log is unchanged.
/// - `Closed` only if the door is closed: it has answered an accept that it takes no more connections.
/// - `DoorFault` only if the door's count of faults rose.
/// - `StoreFault` if a disk counted a fault while the server ran. This comes in place of any other end,
///   except `NoMemory`.
/// - `NoMemory` if allocation fails, in the server or before. If it fails before a log is opened, the
///   yard is unchanged. If it fails while the cells are made, both logs were opened; the disks are
///   dropped with their services, and are not given back.
pub fn run_server<
    R: Threads + Wait + Sync,
    Y: Yard,
    W: Words + Send + Drop,
    C: Clock + Send + Drop,
    V: Words + Send + Drop,
    A: Door,
>(
    rt: &R,
    alloc: Global,
    props: &Props,
    yard: &mut Y,
    words: W,
    clock: C,
    door: &mut A,
    plan: ServerPlan<V>,
) -> RunEnd
    requires keys { IsTrue ((Y.state yard.old).lies 0) }
    requires names { IsTrue ((Y.state yard.old).lies 1) }
    ensures ends { EndsAs Y.Own.state W.to_come
        (serving_by A.In.Source A.Out.Sink) (V.to_come plan.first)
        (V.to_come plan.second) props.now words plan.port plan.conns
        (Y.state yard.old) (Y.state yard.new) (A.state door.old) (A.state door.new) result }
    ensures closed { result ≡ RunEnd.Closed → IsTrue (A.state door.new).closed }
    ensures door_fault { result ≡ RunEnd.DoorFault → Rose (A.faults door.old) (A.faults door.new) }
    ensures store_fault { result ≡ RunEnd.StoreFault →
        Rose (Y.state yard.old).faults (Y.state yard.new).faults }
    ensures no_fault { (result ≡ RunEnd.Served) ⊎ (result ≡ RunEnd.Closed) →
        (Y.state yard.new).faults ≡ (Y.state yard.old).faults }
{
    let opening = match open_services(alloc, yard, props, words, clock) {
        Ok(opening) => opening,
        Err(OpenFault::Log { file, fault }) => {
            drop(plan);
            return RunEnd::NotOpened { file, fault };
        }
        Err(OpenFault::NoMemory) => {
            drop(plan);
            return RunEnd::NoMemory;
        }
    };
    let served = serve_opened::<Brand, R, Y::Own, W, C, V, A>(rt, alloc, opening, door, plan);
    let (closed, end) = match served {
        Ok(served) => served,
        Err(_) => return RunEnd::NoMemory,
    };
    let (keys, names) = closed.into_disks();
    let failed = give_both(yard, keys, names);
    run_end(end, failed)
}
