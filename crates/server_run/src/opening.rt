//! Opening both logs, each on a disk of its own.
ghost use Rattle.std.specs.Prelude.{◌≡◌, ◌≤◌, [], IfErr, IfOk, IsTrue, List};
ghost use Rattle.kms_acls.specs.Agreement.{AreListsOf};
ghost use Rattle.prop_text.specs.declared.lines.PropLine.{PropLine};
ghost use Rattle.kms_cell.specs.Views.{RunsOn};
ghost use Rattle.kms_core.specs.State.{no_queues};
ghost use Rattle.name_history.specs.Views.{NamesRunOn};
ghost use Rattle.server_run.specs.Opening.{BothOpened, KeysNotOpened, KeysOpened, LacksMemory, LogFails, LogsOpened, NamesNotOpened, NamesOpened};

use frame_log::StartFault;
use hk_base::{Clock, Words};
use hk_shared::Opening;
use kms_acls::Acls;
use kms_cell::KmsSide;
use kms_core::Kms;
use name_core::Name;
use prop_text::{Props, Sizes};
use server_parts::Yard;
use std::alloc::Global;

/// The file of the key log.
pub(crate) const KEYS: u8 = 0;

/// The file of the edit log.
pub(crate) const NAMES: u8 = 1;

/// Opens the key log on the disk that the yard gives for it. If that fails, the disk lies in the yard
/// again, and its file reads as before or as a start leaves it.
pub(crate) fn open_keys<Y: Yard>(
    alloc: Global,
    yard: &mut Y,
    acls: Acls,
    sizes: Sizes,
) -> Result<(Kms, Y::Own), StartFault>
    requires lies { IsTrue ((Y.state yard.old).lies 0) }
    ensures opened { IfOk result
        (λ opened. KeysOpened Y.Own.state (Y.state yard.old) (Y.state yard.new) opened.1 opened.0) }
    ensures lists { IfOk result (λ opened. opened.0.acls ≡ acls) }
    ensures queues { IfOk result (λ opened. opened.0.ready ≡ no_queues sizes) }
    ensures failed { IfErr result
        (λ fault. KeysNotOpened (Y.state yard.old) (Y.state yard.new) fault) }
{
    let Ok(mut disk) = yard.take(KEYS) else {
        drop(acls);
        return Err(StartFault::StoreFault);
    };
    match Kms::start(alloc, &mut disk, acls, sizes) {
        Ok(kms) => {
            // The log of a service is on file 0.
            let _ = kms.count();
            Ok((kms, disk))
        }
        Err(fault) => {
            let _ = yard.give(KEYS, disk);
            Err(fault)
        }
    }
}

/// Opens the edit log on the disk that the yard gives for it. If that fails, the disk lies in the yard
/// again, and its file reads as before or as a start leaves it.
pub(crate) fn open_names<Y: Yard>(
    alloc: Global,
    yard: &mut Y,
    batch: u16,
) -> Result<(Name, Y::Own), StartFault>
    requires some { 1 ≤ batch }
    requires most { batch ≤ 1000 }
    requires lies { IsTrue ((Y.state yard.old).lies 1) }
    ensures opened { IfOk result
        (λ opened.
        NamesOpened Y.Own.state batch (Y.state yard.old) (Y.state yard.new) opened.1 opened.0) }
    ensures failed { IfErr result
        (λ fault. NamesNotOpened (Y.state yard.old) (Y.state yard.new) fault) }
{
    let Ok(mut disk) = yard.take(NAMES) else {
        return Err(StartFault::StoreFault);
    };
    match Name::start(alloc, &mut disk, batch) {
        Ok(names) => Ok((names, disk)),
        Err(fault) => {
            let _ = yard.give(NAMES, disk);
            Err(fault)
        }
    }
}

/// Why the services were not opened.
#[derive(Clone, Copy, Debug, PartialEq, Eq)]
pub(crate) enum OpenFault {
    /// The log on this file could not be opened. Both disks lie in the yard.
    Log { file: u8, fault: StartFault },
    /// There was no memory for the lists or for the cells. In the second case the disks are dropped
    /// with their services.
    NoMemory,
}

/// Returns the number of files in a batch.
fn batch_size(sizes: &Sizes) -> u16
    ensures size { result ≡ sizes.now.batch }
    ensures some { 1 ≤ result }
    ensures most { result ≤ 1000 }
{
    sizes.batch
}

/// The services that were opened, each with its disk.
struct OnDisks<D> {
    kms: Kms,
    keys_disk: D,
    names: Name,
    names_disk: D,
}

/// Opens both logs, the key log first. If one can't be opened, both disks lie in the yard again. If that
/// is the edit log, the key log has the record of its new opening.
#[tactic(auto, using(crate::proofs::OpeningLemmas::keys_run, crate::proofs::OpeningLemmas::names_run, crate::proofs::OpeningLemmas::no_walks))]
fn open_logs<Y: Yard>(
    alloc: Global,
    yard: &mut Y,
    acls: Acls,
    sizes: &Sizes,
) -> Result<OnDisks<Y::Own>, OpenFault>
    requires keys { IsTrue ((Y.state yard.old).lies 0) }
    requires names { IsTrue ((Y.state yard.old).lies 1) }
    requires lists { (lines : List PropLine) × AreListsOf acls lines }
    ensures keys_run { IfOk result (λ on. RunsOn (Y.Own.state on.keys_disk) on.kms) }
    ensures names_run { IfOk result (λ on. NamesRunOn (Y.Own.state on.names_disk) on.names) }
    ensures no_walks { IfOk result (λ on. on.names.walks ≡ []) }
    ensures opened { IfOk result
        (λ on.
        LogsOpened Y.Own.state acls sizes.now (Y.state yard.old) (Y.state yard.new) on.keys_disk
        on.kms on.names_disk on.names) }
    ensures failed { IfErr result
        (λ fault. LogFails ⊥ (Y.state yard.old) (Y.state yard.new) fault) }
{
    let (kms, keys_disk) = match open_keys(alloc, yard, acls, *sizes) {
        Ok(opened) => opened,
        Err(fault) => return Err(OpenFault::Log { file: KEYS, fault }),
    };
    match open_names(alloc, yard, batch_size(sizes)) {
        Ok((names, names_disk)) => Ok(OnDisks {
            kms,
            keys_disk,
            names,
            names_disk,
        }),
        Err(fault) => {
            drop(kms.stop());
            let _ = yard.give(KEYS, keys_disk);
            Err(OpenFault::Log { file: NAMES, fault })
        }
    }
}

/// Opens both services, each on the disk that the yard gives for it, and makes the cell of the key
/// management service.
pub(crate) fn open_services<Y: Yard, W: Words + Drop, C: Clock + Drop>(
    alloc: Global,
    yard: &mut Y,
    props: &Props,
    words: W,
    clock: C,
) -> Result<Opening<Y::Own, W, C>, OpenFault>
    requires keys { IsTrue ((Y.state yard.old).lies 0) }
    requires names { IsTrue ((Y.state yard.old).lies 1) }
    ensures opened { IfOk result
        (λ opening.
        BothOpened Y.Own.state props.now (Y.state yard.old) (Y.state yard.new) words
        opening.keys.core opening.names opening.disk) }
    ensures failed { IfErr result
        (λ fault.
        LogFails (LacksMemory Y.Own.state props.now (Y.state yard.old) (Y.state yard.new))
        (Y.state yard.old) (Y.state yard.new) fault) }
{
    let Ok(acls) = Acls::from_props(alloc, props) else {
        return Err(OpenFault::NoMemory);
    };
    let OnDisks {
        kms,
        keys_disk,
        names,
        names_disk,
    } = open_logs(alloc, yard, acls, &props.sizes)?;
    let keys = KmsSide::new(kms, keys_disk, words, clock);
    match Opening::new(alloc, keys, names, names_disk) {
        Ok(opening) => Ok(opening),
        Err(_) => Err(OpenFault::NoMemory),
    }
}
