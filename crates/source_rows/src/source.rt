//! A cluster that is only read.
ghost use Rattle.std.specs.Prelude.{◌≡◌, List, Ok, Some, true, IfErr, IfOk, OnOk};
ghost use Rattle.file_orders.specs.declared.ends.FsEnd.{FsEnd as End};
ghost use Rattle.hk_base.specs.declared.names.KeyName.{KeyName as Key};
ghost use Rattle.inode_tree.specs.Listing.{children};
ghost use Rattle.inode_tree.specs.Rows.{Entry, is_dir_at, row_at};
ghost use Rattle.kms_calls.specs.declared.calls.KmsRefusal.TheVariants as key_refusal;
ghost use Rattle.kms_calls.specs.declared.calls.KmsReply.{KmsReply as Reply};
ghost use Rattle.kms_calls.specs.declared.calls.KmsReply.TheVariants as key_reply;
ghost use Rattle.row_copies.specs.Clusters.{EndsFor, IsTreeOfRows};

use file_orders::FsEnd;
use hk_base::KeyName;
use inode_tree::Row;
use kms_calls::KmsReply;
use name_calls::{ChildList, NPath};

/// The rows of a cluster at and below a directory, which are only read, and its keys. Paths are seen
/// from the directory.
pub trait SourceRows {
    /// The rows, which never change.
    ghost rows: { Self → List Entry };

    /// What holds before each call.
    ghost ready: { Self → Type 0 };

    /// What a call may do.
    ghost follows: { Self → Self → Type 0 };

    /// The reply of the key management service to the superuser's call for the metadata of a key.
    ghost replies: { Self → Key → Reply → Self → Type 0 };

    /// Why a call may end by a refusal: whom it comes from.
    ghost refuses: { Self → Self → End → Type 0 };

    /// Does nothing. It says what always holds of the rows.
    fn facts(&self)
        requires ready { ready self.now }
        ensures { IsTreeOfRows (rows self.now) };

    /// Returns the row at a path.
    fn look(&mut self, path: &NPath) -> Result<Row, FsEnd>
        requires ready { ready self.old }
        ensures row { IfOk result (λ row. row_at (rows self.old) path.now ≡ Some row) }
        ensures same { rows self.new ≡ rows self.old }
        ensures ready { ready self.new }
        ensures follows { follows self.old self.new }
        ensures ends { IfErr result (EndsFor ⊥ ⊥ (refuses self.old self.new)) };

    /// Returns the entries of the directory at a path.
    fn list(&mut self, path: &NPath) -> Result<ChildList, FsEnd>
        requires ready { ready self.old }
        ensures list { IfOk result (λ list. list ≡ children (rows self.old) path.now) }
        ensures directory { OnOk result (is_dir_at (row_at (rows self.old) path.now) ≡ true) }
        ensures same { rows self.new ≡ rows self.old }
        ensures ready { ready self.new }
        ensures follows { follows self.old self.new }
        ensures ends { IfErr result (EndsFor ⊥ ⊥ (refuses self.old self.new)) };

    /// Returns the reply of the key management service to a call for the metadata of a key. The call
    /// doesn't use the disk.
    fn metadata(&mut self, key: KeyName) -> Result<KmsReply, FsEnd>
        requires ready { ready self.old }
        ensures reply { IfOk result (λ reply. replies self.old key reply self.new) }
        ensures fault { result ≡ Ok (key_reply.Refused key_refusal.StoreFault) → ⊥ }
        ensures same { rows self.new ≡ rows self.old }
        ensures ready { ready self.new }
        ensures follows { follows self.old self.new }
        ensures ends { IfErr result (EndsFor ⊥ ⊥ (refuses self.old self.new)) };
}
