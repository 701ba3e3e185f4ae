//! Both cells.
ghost use Rattle.std.specs.Prelude.{◌≡◌};
ghost use Rattle.kms_cell.specs.Views.{RunsOn};
ghost use Rattle.name_history.specs.Views.{NamesRunOn};
ghost use Rattle.hk_shared.specs.Closes.{ClosesBoth};

use hist_cell::Naming;
use hk_base::{Clock, Disk, Words};
use kms_cell::{KmsCell, KmsPass, close_keys};
use kms_core::Kms;
use name_cell::{KeysCell, NameCell, NamePass, close_names};
use name_core::Name;
use std::sync::{Mutex, Wait};

/// Both services, each in a cell of its own. The namesystem keeps a pass of the other cell. Both disks
/// are of one type. Calls that change a service wait for each other first, so that calls that read get
/// to its cell between two changes.
#[derive(Drop)]
pub struct Shared<K: KeysCell, N: Naming> {
    pub keys: K,
    pub names: NameCell<K, N>,
    /// Held by the call that changes the key management service.
    pub(crate) key_changes: Mutex<()>,
    /// Held by the call that changes the namesystem.
    pub(crate) name_changes: Mutex<()>,
}

/// Both services and their disks, after the cells were closed.
#[derive(Drop)]
pub struct Closed<D> {
    pub kms: Kms,
    pub keys_disk: D,
    pub names: Name,
    pub names_disk: D,
}

impl<D> Closed<D> {
    /// Drops both services and returns their disks.
    pub fn into_disks(self) -> (D, D)
        ensures keys { result.0 ≡ self.keys_disk }
        ensures names { result.1 ≡ self.names_disk }
    {
        let Closed {
            kms,
            keys_disk,
            names,
            names_disk,
        } = self;
        drop(kms.stop());
        drop(names);
        (keys_disk, names_disk)
    }
}

impl<D: Disk + Drop, W: Words + Drop, C: Clock + Drop, M: Naming, N: Naming> Shared<
    KmsCell<D, W, C, M>,
    N,
> {
    /// Ends both cells and returns the services and their disks, each after its whole history. Other passes
    /// may have been dropped. The namesystem's cell ends first, and the pass that it kept is joined to
    /// `keys` before the other one ends: all that the namesystem has seen of the key management service
    /// is in that service's history. It may wait.
    pub fn close<R: Wait>(
        self,
        rt: &R,
        mut keys: KmsPass<D, W, C, M>,
        names: NamePass<KmsCell<D, W, C, M>, N>,
    ) -> Closed<D>
        ensures closes { ClosesBoth D.state W.to_come keys names result }
        ensures keys_run { RunsOn (D.state result.keys_disk) result.kms }
        ensures names_run { NamesRunOn (D.state result.names_disk) result.names }
    {
        let Shared {
            keys: first,
            names: second,
            key_changes: _,
            name_changes: _,
        } = self;
        let (names, names_disk, kept) = close_names(second, names);
        first.meet(rt, &mut keys, kept);
        let (kms, keys_disk) = close_keys(first, keys);
        Closed {
            kms,
            keys_disk,
            names,
            names_disk,
        }
    }
}
