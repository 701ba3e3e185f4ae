//! Both services in cells, with a key.
ghost use Rattle.std.specs.Prelude.{◌≡◌, []};
ghost use Rattle.disk_kinds.specs.Plain.{state_of};
ghost use Rattle.name_history.specs.Views.{NamesRunOn};

use crate::clients::{check_left, door};
use crate::gates::{HeldGate, HeldWords, Tally};
use crate::requests::Client;
use cell_server::{ServeEnd, serve_all};
use disk_kinds::{ChaWords, PlainDisk};
use door_kinds::MemDoor;
use hist_cell::{Core, Naming};
use hk_base::{Clock, Disk, Gate, KeyName, Text, Words};
use hk_shared::{Closed, NamesOpening, Opening};
use kms_acls::Acls;
use kms_calls::{Description, KmsCall, KmsReply};
use kms_cell::{KmsAct, KmsActed, KmsCell, KmsPass, KmsSide};
use kms_core::Kms;
use name_core::Name;
use prop_text::read_props;
use std::marker::Brand;
use std::process::Abort;
use std::sync::Wait;
use std::thread::Threads;
use std::time;

/// Everybody may do everything. A full queue has 8 ready keys.
const PROPERTIES: &[u8] =
    b"default.key.acl.MANAGEMENT=*\ndefault.key.acl.GENERATE_EEK=*\ndefault.key.acl.DECRYPT_EEK=*\ndefault.key.acl.READ=*\nhkms.queue.size=8\nhkms.queue.watermark=4\n";

/// A clock that counts how often it is read.
#[derive(Drop)]
struct Ticks {
    now: u64,
}

impl Clock for Ticks {
    fn now_ms(&mut self) -> u64 {
        self.now = self.now.wrapping_add(1);
        self.now
    }
}

type TestSide<W> = KmsSide<PlainDisk, W, Ticks>;

/// Starts the key management service on an empty disk. It draws from these words.
fn start_keys<W: Words + Drop>(rt: &(impl Abort + AllocGlobal), words: W) -> TestSide<W> {
    let alloc = rt.alloc();
    let props = read_props(alloc, PROPERTIES).expect(rt, "properties");
    let acls = Acls::from_props(alloc, &props).expect(rt, "memory");
    let mut disk = PlainDisk::new(alloc);
    let kms = Kms::start(alloc, &mut disk, acls, props.sizes).expect(rt, "a start");
    KmsSide::new(kms, disk, words, Ticks { now: 0 })
}

fn text(rt: &(impl Abort + AllocGlobal), text: &str) -> Text {
    Text::of(String::from_str(rt.alloc(), text).expect(rt, "memory"))
}

/// Creates the key `k`, whose material takes four random words.
fn create_key<W: Words + Drop>(rt: &(impl Abort + AllocGlobal), side: &mut TestSide<W>) {
    let call = KmsCall::Create {
        name: KeyName::read(b"k").expect(rt, "a name"),
        bits: 128,
        material: None,
        description: Description::empty(rt.alloc()),
    };
    let user = text(rt, "alice");
    match side.act(KmsAct::Call { user, call }) {
        KmsActed::Call(KmsReply::Version { .. }) => {}
        _ => panic!(rt; "no key"),
    }
}

/// Starts the namesystem on an empty disk.
fn names(rt: &(impl Abort + AllocGlobal)) -> (Name, PlainDisk)
    ensures runs { NamesRunOn (state_of result.1) result.0 }
    ensures no_walks { result.0.walks ≡ [] }
{
    let mut disk = PlainDisk::new(rt.alloc());
    let names = Name::start(rt.alloc(), &mut disk, 3).expect(rt, "a start");
    (names, disk)
}

/// Serves the clients of a door with both services once the cell of the namesystem is named, and closes
/// them.
fn serve_named<
    M: Naming + Send + Sync,
    N: Naming + Send + Sync,
    R: Threads + Wait + AllocGlobal + Sync,
    D: Disk + Send + Drop,
    W: Words + Send + Drop,
    C: Clock + Send + Drop,
    G: Gate + Sync,
>(
    rt: &R,
    cells: NamesOpening<KmsCell<D, W, C, M>>,
    mut keys: KmsPass<D, W, C, M>,
    door: &mut MemDoor,
    conns: u32,
    gate: &G,
) -> (Closed<D>, ServeEnd)
    requires name { cells.names.table ≡ N.table }
{
    let (shared, mut names) = cells.named::<N>();
    let first = ChaWords::from_seed([2; 32]);
    let second = ChaWords::from_seed([3; 32]);
    let end = serve_all(
        rt,
        rt.alloc(),
        &shared,
        &mut keys,
        &mut names,
        door,
        0,
        conns,
        16,
        first,
        second,
        gate,
    );
    (shared.close(rt, keys, names), end)
}

/// Names both cells, the one of the keys first, serves the clients of a door, and closes both.
fn serve_opened<
    M: Naming + Send + Sync,
    R: Threads + Wait + Abort + AllocGlobal + Sync,
    D: Disk + Send + Drop,
    W: Words + Send + Drop,
    C: Clock + Send + Drop,
    G: Gate + Sync,
>(
    rt: &R,
    opening: Opening<D, W, C>,
    door: &mut MemDoor,
    conns: u32,
    gate: &G,
) -> (Closed<D>, ServeEnd)
    requires name { opening.keys.table ≡ M.table }
{
    let (cells, keys) = opening.named::<M, R>(rt, rt.alloc()).expect(rt, "memory");
    serve_named::<M, Brand, R, D, W, C, G>(rt, cells, keys, door, conns, gate)
}

/// Serves clients with both services and the key `k`, whose threads this tally counts and holds. All are
/// served, and get their responses.
pub fn serve<R: Threads + Wait + Abort + AllocGlobal + Sync, C: time::Clock + Sync + Drop>(
    rt: &R,
    clients: &[Client],
    tally: &Tally<C>,
) {
    let words = HeldWords {
        tally,
        words: ChaWords::from_seed([4; 32]),
    };
    let mut keys = start_keys(rt, words);
    create_key(rt, &mut keys);
    let (names, disk) = names(rt);
    let opening = Opening::new(rt.alloc(), keys, names, disk).expect(rt, "memory");
    let mut door = door(rt, rt.alloc(), clients);
    let conns = u32::try_from(clients.len()).expect(rt, "a number");
    let gate = HeldGate { tally };
    let (closed, end) = serve_opened::<
        Brand,
        R,
        PlainDisk,
        HeldWords<C, ChaWords>,
        Ticks,
        HeldGate<C>,
    >(rt, opening, &mut door, conns, &gate);
    drop(closed);
    assert_eq!(rt; end, ServeEnd::Served);
    check_left(rt, &door, clients);
}
