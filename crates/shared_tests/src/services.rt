//! Both services on disks in memory.
ghost use Rattle.std.specs.Prelude.{◌≡◌, []};
ghost use Rattle.disk_kinds.specs.Plain.{state_of};
ghost use Rattle.name_history.specs.Views.{NamesRunOn};

use disk_kinds::{ChaWords, PlainDisk};
use hk_base::Clock;
use hk_shared::Opening;
use kms_acls::Acls;
use kms_cell::KmsSide;
use kms_core::Kms;
use name_core::Name;
use prop_text::read_props;
use std::process::Abort;

/// Everybody may do everything, except that `hdfs` may not open keys.
const PROPERTIES: &[u8] =
    b"default.key.acl.MANAGEMENT=*\ndefault.key.acl.GENERATE_EEK=*\ndefault.key.acl.DECRYPT_EEK=*\ndefault.key.acl.READ=*\nhadoop.kms.blacklist.DECRYPT_EEK=hdfs\n";

/// The number of files in a batch.
const BATCH: u16 = 3;

/// A clock that counts how often it is read.
#[derive(Drop)]
pub struct Ticks {
    now: u64,
}

impl Clock for Ticks {
    fn now_ms(&mut self) -> u64 {
        self.now = self.now.wrapping_add(1);
        self.now
    }
}

/// Both services before their cells are named.
pub type TestOpening = Opening<PlainDisk, ChaWords, Ticks>;

/// The disks of both services.
#[derive(Drop)]
pub struct Disks {
    pub keys: PlainDisk,
    pub names: PlainDisk,
}

impl Disks {
    pub fn empty(rt: &impl AllocGlobal) -> Disks {
        Disks {
            keys: PlainDisk::new(rt.alloc()),
            names: PlainDisk::new(rt.alloc()),
        }
    }
}

/// Starts the key management service. It draws random words from this seed.
fn start_keys(
    rt: &(impl Abort + AllocGlobal),
    mut disk: PlainDisk,
    seed: u8,
) -> KmsSide<PlainDisk, ChaWords, Ticks> {
    let alloc = rt.alloc();
    let props = read_props(alloc, PROPERTIES).expect(rt, "properties");
    let acls = Acls::from_props(alloc, &props).expect(rt, "memory");
    let kms = Kms::start(alloc, &mut disk, acls, props.sizes).expect(rt, "a start");
    let words = ChaWords::from_seed([seed; 32]);
    KmsSide::new(kms, disk, words, Ticks { now: 0 })
}

/// Starts the namesystem.
fn start_names(rt: &(impl Abort + AllocGlobal), mut disk: PlainDisk) -> (Name, PlainDisk)
    ensures runs { NamesRunOn (state_of result.1) result.0 }
    ensures no_walks { result.0.walks ≡ [] }
{
    let names = Name::start(rt.alloc(), &mut disk, BATCH).expect(rt, "a start");
    (names, disk)
}

/// Starts both services on their disks. The key management service draws random words from this seed.
pub fn start(rt: &(impl Abort + AllocGlobal), disks: Disks, seed: u8) -> TestOpening {
    let Disks { keys, names } = disks;
    let side = start_keys(rt, keys, seed);
    let (names, disk) = start_names(rt, names);
    Opening::new(rt.alloc(), side, names, disk).expect(rt, "memory")
}
