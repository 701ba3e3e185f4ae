//! Making both cells.
ghost use Rattle.std.specs.Prelude.{◌≡◌, [], IfOk, Some};
ghost use Rattle.name_history.specs.Views.{NamesRunOn};

use crate::shared::Shared;
use hist_cell::{Naming, Opened};
use hk_base::{Clock, Disk, NoMemory, Words};
use kms_cell::{KmsCell, KmsPass, KmsSide};
use name_cell::{KeysCell, NamePass, NameSide};
use name_core::Name;
use std::alloc::Global;
use std::marker::Model;
use std::sync::{Mutex, Wait};

/// The key management service in a cell without a name, and the namesystem with the disk that it was
/// started on. The namesystem has walked through no zone since its start.
#[derive(Drop)]
pub struct Opening<D: Disk, W: Words, C: Clock> {
    keys: Opened<KmsSide<D, W, C>>,
    names: Name,
    disk: D,
}

impl<D: Disk, W: Words, C: Clock> Model for Opening<D, W, C> {
    ghost use Rattle.std.specs.Prelude.{◌≡◌, []};
    ghost use Rattle.name_history.specs.Views.{NamesRunOn};
    ghost use Rattle.hk_shared.specs.Views.{OpeningView};

    ghost Value = { OpeningView D W };

    ghost view = { λ o. record { keys = o.keys; names = o.names; disk = o.disk } };

    ghost invariant = { λ o. NamesRunOn (D.state o.disk) o.names × (o.names.walks ≡ []) };
}

impl<D: Disk + Drop, W: Words + Drop, C: Clock + Drop> Opening<D, W, C> {
    /// Creates a cell of the key management service, with an empty history. The disk must be the one
    /// that the namesystem was started on. Returns `NoMemory` if allocation fails; both services and
    /// their disks are then dropped.
    pub fn new(
        alloc: Global,
        keys: KmsSide<D, W, C>,
        names: Name,
        disk: D,
    ) -> Result<Opening<D, W, C>, NoMemory>
        requires runs { NamesRunOn (D.state disk) names }
        requires no_walks { names.walks ≡ [] }
        ensures { IfOk result (λ o. (o.keys.core ≡ keys) × (o.names ≡ names) × (o.disk ≡ disk)) }
    {
        match Opened::new(alloc, keys) {
            Ok(keys) => Ok(Opening { keys, names, disk }),
            Err(_) => {
                drop(names);
                drop(disk);
                Err(NoMemory)
            }
        }
    }

    /// Names the cell of the key management service, and creates a cell of the namesystem, which keeps
    /// a pass of the first one. Both passes have seen nothing. Returns `NoMemory` if allocation fails;
    /// both services and their disks are then dropped. It may wait.
    pub fn named<M: Naming, R: Wait>(
        self,
        rt: &R,
        alloc: Global,
    ) -> Result<(NamesOpening<KmsCell<D, W, C, M>>, KmsPass<D, W, C, M>), NoMemory>
        requires name { self.keys.table ≡ M.table }
        ensures keys { IfOk result
            (λ r. (r.1.start ≡ Some self.keys.core) × (r.1.seen ≡ []) × (r.1.ended ≡ [])) }
        ensures names { IfOk result
            (λ r. (r.0.names.core.names ≡ self.names) × (r.0.names.core.disk ≡ self.disk) ×
            (r.0.names.core.fronts ≡ [])) }
        ensures kept { IfOk result
            (λ r. (r.0.names.core.keys.start ≡ Some self.keys.core) ×
            (r.0.names.core.keys.seen ≡ []) × (r.0.names.core.keys.ended ≡ [])) }
    {
        let Opening { keys, names, disk } = self;
        let (cell, mut pass) = keys.named::<M>();
        let kept = cell.split(rt, &mut pass);
        match NamesOpening::new(alloc, cell, names, disk, kept) {
            Ok(opening) => Ok((opening, pass)),
            Err(why) => {
                drop(pass);
                Err(why)
            }
        }
    }
}

/// The cell of the key management service, and the namesystem in a cell without a name. The namesystem
/// keeps a pass of the first cell.
#[derive(Drop)]
pub struct NamesOpening<K: KeysCell> {
    pub keys: K,
    pub names: Opened<NameSide<K>>,
}

impl<K: KeysCell> NamesOpening<K> {
    /// Creates a cell of the namesystem, which keeps this pass. Returns `NoMemory` if allocation fails;
    /// the other cell, the namesystem and its disk are then dropped.
    fn new(
        alloc: Global,
        keys: K,
        names: Name,
        disk: K::D,
        kept: K::Pass,
    ) -> Result<NamesOpening<K>, NoMemory>
    where
        K: Drop,
        requires runs { NamesRunOn (K.D.state disk) names }
        requires no_walks { names.walks ≡ [] }
        ensures { IfOk result
            (λ o. o.names.core ≡
            record { names = names; disk = disk; keys = K.seen kept; fronts = [] }) }
    {
        let side = NameSide::new(alloc, names, disk, kept);
        match Opened::new(alloc, side) {
            Ok(names) => Ok(NamesOpening { keys, names }),
            Err(_) => {
                drop(keys);
                Err(NoMemory)
            }
        }
    }

    /// Names the cell of the namesystem. Its first pass has seen nothing.
    pub fn named<N: Naming>(self) -> (Shared<K, N>, NamePass<K, N>)
        requires name { self.names.table ≡ N.table }
        ensures { (result.1.start ≡ Some self.names.core) × (result.1.seen ≡ []) ×
            (result.1.ended ≡ []) }
    {
        let NamesOpening { keys, names } = self;
        let (names, pass) = names.named::<N>();
        let shared = Shared {
            keys,
            names,
            key_changes: Mutex::new(()),
            name_changes: Mutex::new(()),
        };
        (shared, pass)
    }
}
