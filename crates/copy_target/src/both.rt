//! Two clusters: one that is only read, and the namesystem of another over its disk.
ghost use Rattle.std.specs.Prelude.{◌≡◌};
ghost use Rattle.copy_target.specs.Targets.{BothRefuse, CanCopy, DiskFails, KnowsKey, VaultsFail, WorksOnTarget, state_of};

use backup_names::{
    ask_file, ask_zone, finish_file, finish_zone, is_directory, keeps_rules, make_directory,
};
use body_copies::copy_body;
use body_stream::Vault;
use file_orders::FsEnd;
use hk_base::{Disk, Edek, KeyName, Text};
use inode_tree::Row;
use name_calls::{ChildList, NPath};
use name_core::Name;
use row_copies::Clusters;
use source_rows::SourceRows;
use std::alloc::Global;

/// A cluster that is read, the namesystem of another that gets the copy, with its disk, and the vaults
/// of both. All calls of the namesystem are made by one user.
#[derive(Drop)]
pub struct BothClusters<'a, S, E, V, U> {
    alloc: Global,
    user: &'a Text,
    source: &'a mut S,
    names: &'a mut Name,
    backup: &'a mut E,
    vault: &'a mut V,
    copies: &'a mut U,
}

impl<'a, S, E, V, U> BothClusters<'a, S, E, V, U> {
    /// Creates the two clusters.
    pub fn new(
        alloc: Global,
        user: &'a Text,
        source: &'a mut S,
        names: &'a mut Name,
        backup: &'a mut E,
        vault: &'a mut V,
        copies: &'a mut U,
    ) -> BothClusters<'a, S, E, V, U>
        ensures user { result.user.now ≡ user.now }
        ensures source { (result.source.ghost_name ≡ source.entry.ghost_name) ×
            (result.source.now ≡ source.old) }
        ensures names { (result.names.ghost_name ≡ names.entry.ghost_name) ×
            (result.names.now ≡ names.old) }
        ensures backup { (result.backup.ghost_name ≡ backup.entry.ghost_name) ×
            (result.backup.now ≡ backup.old) }
        ensures vault { (result.vault.ghost_name ≡ vault.entry.ghost_name) ×
            (result.vault.now ≡ vault.old) }
        ensures copies { (result.copies.ghost_name ≡ copies.entry.ghost_name) ×
            (result.copies.now ≡ copies.old) }
    {
        BothClusters {
            alloc,
            user,
            source,
            names,
            backup,
            vault,
            copies,
        }
    }
}

impl<'a, S: SourceRows, E: Disk, V: Vault, U: Vault> Clusters for BothClusters<'a, S, E, V, U> {
    ghost state = { λ v. state_of S.rows V.state U.state v };

    ghost ready = { λ v. CanCopy S.ready E.state v };

    ghost follows = { λ old new. WorksOnTarget S.follows E.state V.state U.state old new };

    ghost store_fails = { λ old new. DiskFails E.state old new };

    ghost vault_fails = { λ old new. VaultsFail V.state U.state old new };

    ghost refuses = { λ old new. BothRefuse S.refuses S.replies E.state old new };

    ghost knows = { λ old key new. KnowsKey S.replies old.source.now key new.source.now };

    fn facts(&self) {
        self.source.facts();
        keeps_rules(self.names);
    }

    fn look(&mut self, path: &NPath) -> Result<Row, FsEnd> {
        self.source.look(path)
    }

    fn list(&mut self, path: &NPath) -> Result<ChildList, FsEnd> {
        self.source.list(path)
    }

    fn is_directory(&mut self, path: &NPath) -> Result<Option<bool>, FsEnd> {
        is_directory(self.alloc, self.names, self.backup, self.user, path)
    }

    fn make_directory(&mut self, path: &NPath) -> Result<(), FsEnd> {
        make_directory(self.alloc, self.names, self.backup, self.user, path)
    }

    fn mark(&mut self, path: &NPath, key: KeyName) -> Result<(), FsEnd> {
        let id = match ask_zone(self.alloc, self.names, self.user, path, key) {
            Ok(id) => id,
            Err(end) => return Err(end),
        };
        match self.source.metadata(key) {
            Ok(reply) => finish_zone(self.names, self.backup, id, reply),
            Err(end) => Err(end),
        }
    }

    fn copy_file(&mut self, from: u64, path: &NPath, edek: Option<Edek>) -> Result<(), FsEnd> {
        let id = match ask_file(self.alloc, self.names, self.user, path) {
            Ok(id) => id,
            Err(end) => return Err(end),
        };
        match copy_body(self.vault, from, self.copies, id) {
            Ok(()) => finish_file(self.names, self.backup, id, edek),
            Err(_) => Err(FsEnd::VaultFault),
        }
    }
}
