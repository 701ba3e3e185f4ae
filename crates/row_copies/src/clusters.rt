//! Two clusters.
ghost use Rattle.std.specs.Prelude.{◌≡◌, Some, IfErr, IfOk, OnOk, OnErr, true};
ghost use Rattle.std.specs.Option.{option_map};
ghost use Rattle.file_orders.specs.declared.ends.FsEnd.{FsEnd as End};
ghost use Rattle.hk_base.specs.declared.names.KeyName.{KeyName as Key};
ghost use Rattle.inode_tree.specs.Listing.{children};
ghost use Rattle.inode_tree.specs.Rows.{IsRows, is_dir, is_dir_at, row_at};
ghost use Rattle.row_copies.specs.Clusters.{CopiesFile, CopyState, EndsFor, IsTreeOfRows, KeepsBoth, KeepsRows, MakesCopyDirectory, MarksCopyDirectory};

use file_orders::FsEnd;
use hk_base::{Edek, KeyName};
use inode_tree::Row;
use name_calls::{ChildList, NPath};

/// The two clusters that a copy works on: the source, with the rows at and below the directory that is
/// copied, and the target, with its whole namesystem. Each has a vault with the bodies of its files.
/// Paths in the source are seen from the directory that is copied, and paths in the target from the
/// root. A call that is refused, or that fails, has its cause in its `FsEnd`.
pub trait Clusters {
    /// The rows and bodies of both.
    ghost state: { Self → CopyState };

    /// What holds before each call.
    ghost ready: { Self → Type 0 };

    /// What a call may do besides.
    ghost follows: { Self → Self → Type 0 };

    /// Why a call may end by a fault of a disk.
    ghost store_fails: { Self → Self → Type 0 };

    /// Why a call may end by a fault of a vault.
    ghost vault_fails: { Self → Self → Type 0 };

    /// Why a call may end by a refusal: whom it comes from.
    ghost refuses: { Self → Self → End → Type 0 };

    /// That a key of the source is known, by the reply of its key management service.
    ghost knows: { Self → Key → Self → Type 0 };

    /// Does nothing. It says what always holds of the rows.
    fn facts(&self)
        requires ready { ready self.now }
        ensures source { IsTreeOfRows (state self.now).source.rows }
        ensures target { IsRows (state self.now).target.rows };

    /// Returns the row of the source at a path.
    fn look(&mut self, path: &NPath) -> Result<Row, FsEnd>
        requires ready { ready self.old }
        ensures row { IfOk result
            (λ row. row_at (state self.old).source.rows path.now ≡ Some row) }
        ensures keeps { KeepsBoth (state self.old) (state self.new) }
        ensures ready { ready self.new }
        ensures follows { follows self.old self.new }
        ensures ends { IfErr result
            (EndsFor (store_fails self.old self.new) (vault_fails self.old self.new)
            (refuses self.old self.new)) };

    /// Returns the entries of the directory of the source at a path.
    fn list(&mut self, path: &NPath) -> Result<ChildList, FsEnd>
        requires ready { ready self.old }
        ensures list { IfOk result
            (λ list. list ≡ children (state self.old).source.rows path.now) }
        ensures directory { OnOk result
            (is_dir_at (row_at (state self.old).source.rows path.now) ≡ true) }
        ensures keeps { KeepsBoth (state self.old) (state self.new) }
        ensures ready { ready self.new }
        ensures follows { follows self.old self.new }
        ensures ends { IfErr result
            (EndsFor (store_fails self.old self.new) (vault_fails self.old self.new)
            (refuses self.old self.new)) };

    /// Returns whether the row of the target at a path is a directory, or `None` if there is none.
    fn is_directory(&mut self, path: &NPath) -> Result<Option<bool>, FsEnd>
        requires ready { ready self.old }
        ensures row { IfOk result
            (λ found. found ≡
            option_map (λ row. is_dir row.kind) (row_at (state self.old).target.rows path.now)) }
        ensures keeps { KeepsBoth (state self.old) (state self.new) }
        ensures ready { ready self.new }
        ensures follows { follows self.old self.new }
        ensures ends { IfErr result
            (EndsFor (store_fails self.old self.new) (vault_fails self.old self.new)
            (refuses self.old self.new)) };

    /// Makes a directory in the target.
    fn make_directory(&mut self, path: &NPath) -> Result<(), FsEnd>
        requires ready { ready self.old }
        ensures ok { OnOk result (MakesCopyDirectory path.now (state self.old) (state self.new)) }
        ensures err { OnErr result (KeepsBoth (state self.old) (state self.new)) }
        ensures ready { OnOk result (ready self.new) }
        ensures follows { follows self.old self.new }
        ensures ends { IfErr result
            (EndsFor (store_fails self.old self.new) (vault_fails self.old self.new)
            (refuses self.old self.new)) };

    /// Marks an empty directory of the target with a key, which the source must know.
    fn mark(&mut self, path: &NPath, key: KeyName) -> Result<(), FsEnd>
        requires ready { ready self.old }
        ensures ok { OnOk result (MarksCopyDirectory path.now key (state self.old) (state self.new)) }
        ensures known { OnOk result (knows self.old key self.new) }
        ensures err { OnErr result (KeepsBoth (state self.old) (state self.new)) }
        ensures ready { OnOk result (ready self.new) }
        ensures follows { follows self.old self.new }
        ensures ends { IfErr result
            (EndsFor (store_fails self.old self.new) (vault_fails self.old self.new)
            (refuses self.old self.new)) };

    /// Makes a file in the target, with this encrypted key and the body of the file of the source that
    /// has the id `from`. A call that fails may have written a body under an id that no row has.
    fn copy_file(&mut self, from: u64, path: &NPath, edek: Option<Edek>) -> Result<(), FsEnd>
        requires ready { ready self.old }
        ensures ok { OnOk result
            (CopiesFile from path.now edek (state self.old) (state self.new)) }
        ensures err { OnErr result (KeepsRows (state self.old) (state self.new)) }
        ensures ready { OnOk result (ready self.new) }
        ensures follows { follows self.old self.new }
        ensures ends { IfErr result
            (EndsFor (store_fails self.old self.new) (vault_fails self.old self.new)
            (refuses self.old self.new)) };
}
