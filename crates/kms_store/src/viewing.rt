//! A view of a key log that another instance writes.
ghost use Rattle.std.specs.Prelude.{◌≡◌, ℕ, IfOk, IsErrOf};
ghost use Rattle.hk_base.specs.Disk.{LeavesOnly, Only, Reads, RunOn, Tells};
ghost use Rattle.hk_base.specs.Faults.{Rose};
ghost use Rattle.frame_log.specs.declared.fault.StartFault.TheVariants as start;
ghost use Rattle.kms_store.specs.Keys.{IsViewed};
ghost use Rattle.kms_store.specs.Replay.{HasRoomForBirths};
ghost use Rattle.kms_store.specs.Store.{IsDamagedAt};
ghost use Rattle.kms_store.specs.declared.viewing.ViewFault.TheVariants as fault;

use crate::KEYS;
use crate::keys::Keys;
use crate::replay::replay;
use crate::store::Store;
use frame_log::{Log, StartFault};
use hk_base::Disk;
use key_index::MaterialCache;
use std::alloc::Global;
use std::num::NonZeroUsize;

/// Why a key log can't be viewed.
#[derive(Clone, Copy, Debug, PartialEq, Eq)]
pub enum ViewFault {
    /// The file is not a log, or the frame whose gate is at this offset holds no record that applies.
    Damaged { at: u64 },
    /// The disk failed and counted the fault.
    StoreFault,
    NoMemory,
    /// No opening is recorded: no instance has started on this disk.
    NotStarted,
}

/// Builds the keys from a key log, which is only read.
fn view_keys<D: Disk>(alloc: Global, disk: &mut D) -> Result<Keys, StartFault>
    ensures viewed { IfOk result
        (λ keys. Tells (D.state disk.old) → IsViewed ((D.state disk.old).reads 0) keys) }
    ensures births { IfOk result (λ keys. HasRoomForBirths keys.table) }
    ensures synced { IfOk result
        (λ _. Tells (D.state disk.old) →
        Only ((D.state disk.old).reads 0) ((D.state disk.new).leaves 0)) }
    ensures damaged { (at : ℕ) → IsErrOf result (start.Damaged at) → Tells (D.state disk.old) →
        IsDamagedAt ((D.state disk.old).reads 0) at }
    ensures spent { IsErrOf result start.Spent → ⊥ }
    ensures cause { IsErrOf result start.StoreFault →
        Rose (D.state disk.old).faults (D.state disk.new).faults }
    ensures same { Reads 0 (D.state disk.old) (D.state disk.new) }
    ensures run { RunOn 0 (D.state disk.old) (D.state disk.new) }
    ensures moments { LeavesOnly 0 (D.state disk.old) (D.state disk.new)
        ((D.state disk.old).leaves 0) }
{
    match Log::view_records(alloc, disk, KEYS)? {
        None => Ok(Keys::new(alloc)),
        Some(mut records) => replay(alloc, disk, &mut records),
    }
}

impl Store {
    ghost use Rattle.std.specs.Prelude.{◌+◌, ◌*◌, ◌^◌, ◌<◌, List, None};
    ghost use Rattle.key_rows.specs.declared.rows.KeyCommand.{KeyCommand};
    ghost use Rattle.key_rows.specs.Table.{Table};
    ghost use Rattle.kms_store.specs.Store.{HasMaterials, IsKeyLog, StoreState};
    ghost use Rattle.kms_store.specs.Views.{IsLead, ShowsAll};
    ghost use Rattle.kms_store.specs.Keys.{IsOver};

    /// Reads the key log that another instance has open, and writes nothing. The store answers from the
    /// table that the log makes at this moment; nothing can be committed to it. At most `cache` older
    /// materials are kept in memory, or one if it is 0.
    ///
    /// Returns `Damaged` exactly if the file is not a log, or a record encodes no command or one that
    /// doesn't apply, with the offset of its gate. Returns `NotStarted` exactly if it is a log that
    /// records no opening.
    #[tactic(auto, using(crate::proofs::Currents::still_lead))]
    pub fn view<D: Disk>(alloc: Global, disk: &mut D, cache: u16) -> Result<Store, ViewFault>
        ensures log { IfOk result
            (λ store. Tells (D.state disk.old) → ((commands : List KeyCommand)
            × IsKeyLog ((D.state disk.old).reads 0) commands store.table.keys)) }
        // It shows all that the lead acknowledged, and at most its pending command after that.
        ensures current { IfOk result
            (λ store. Tells (D.state disk.old) → (lead : StoreState) (commands : List KeyCommand) →
            IsLead (D.state disk.old) lead commands → ShowsAll lead commands store.table.keys) }
        ensures held { IfOk result
            (λ store. Tells (D.state disk.old) → HasMaterials (D.state disk.new) store) }
        ensures opened { IfOk result
            (λ store. (store.pending ≡ None) × (0 < store.table.keys.opening) ×
            (store.table.keys.greatest < (store.table.keys.opening + 1) * 2 ^ 32)) }
        // No crash takes back what was read.
        ensures synced { IfOk result
            (λ _. Tells (D.state disk.old) →
            Only ((D.state disk.old).reads 0) ((D.state disk.new).leaves 0)) }
        ensures damaged { (at : ℕ) → IsErrOf result (fault.Damaged at) → Tells (D.state disk.old) →
            IsDamagedAt ((D.state disk.old).reads 0) at }
        // A log that a lead has open is not damaged, and the lead keeps it.
        ensures undamaged { (at : ℕ) → IsErrOf result (fault.Damaged at) → Tells (D.state disk.old) →
            (lead : StoreState) (commands : List KeyCommand) →
            IsLead (D.state disk.old) lead commands → ⊥ }
        ensures lead { Tells (D.state disk.old) → (lead : StoreState) (commands : List KeyCommand) →
            IsLead (D.state disk.old) lead commands → IsLead (D.state disk.new) lead commands }
        ensures not_started { IsErrOf result fault.NotStarted → Tells (D.state disk.old) →
            ((commands : List KeyCommand) × (table : Table) ×
            IsKeyLog ((D.state disk.old).reads 0) commands table × (table.opening ≡ 0)) }
        ensures cause { IsErrOf result fault.StoreFault →
            Rose (D.state disk.old).faults (D.state disk.new).faults }
        ensures same { Reads 0 (D.state disk.old) (D.state disk.new) }
        ensures run { RunOn 0 (D.state disk.old) (D.state disk.new) }
        ensures moments { LeavesOnly 0 (D.state disk.old) (D.state disk.new)
            ((D.state disk.old).leaves 0) }
    {
        let keys = match view_keys(alloc, disk) {
            Ok(keys) => keys,
            Err(StartFault::Damaged { at }) => return Err(ViewFault::Damaged { at }),
            Err(StartFault::StoreFault) => return Err(ViewFault::StoreFault),
            Err(StartFault::NoMemory) => return Err(ViewFault::NoMemory),
            // A view records no opening.
            Err(StartFault::Spent) => unreachable!(),
        };
        Store::over(alloc, keys, cache)
    }

    /// Returns a store of these keys that no log of its own stands for.
    fn over(alloc: Global, keys: Keys, cache: u16) -> Result<Store, ViewFault>
        ensures store { IfOk result (λ store. IsOver keys store) }
        ensures not_started { IsErrOf result fault.NotStarted → keys.table.opening ≡ 0 }
        ensures fault { (IsErrOf result fault.StoreFault → ⊥) ×
            ((at : ℕ) → IsErrOf result (fault.Damaged at) → ⊥) }
    {
        if keys.opening() == 0 {
            drop(keys);
            return Err(ViewFault::NotStarted);
        }
        let size = NonZeroUsize::new(cache as usize).unwrap_or(NonZeroUsize::MIN);
        match MaterialCache::new(alloc, size) {
            Err(_) => {
                drop(keys);
                Err(ViewFault::NoMemory)
            }
            Ok(cache) => {
                let log = Log {
                    file: KEYS,
                    end: 8,
                    area: None,
                    unsettled: None,
                };
                Ok(Store {
                    log,
                    keys,
                    cache,
                    pending: None,
                })
            }
        }
    }
}
