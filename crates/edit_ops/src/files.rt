//! Files and their encrypted keys, as an update records them.
ghost use Rattle.std.specs.Prelude.{◌≡◌, ◌≤◌, length, SomeIff};

use hk_base::Edek;
use std::marker::Model;

/// The maximum number of files of an update.
pub const MOST_FILES: usize = 1000;

/// A file and its encrypted data encryption key.
#[derive(Clone, Copy, PartialEq, Eq)]
pub struct FileKey {
    pub id: u64,
    pub edek: Edek,
}

/// Files and their encrypted keys: at most 1,000. Contracts see the list.
#[derive(Drop)]
pub struct FileKeys {
    files: Vec<FileKey>,
}

impl Model for FileKeys {
    ghost use Rattle.std.specs.Prelude.{◌≤◌, List, length};
    ghost use Rattle.edit_ops.specs.declared.files.FileKey.{FileKey};

    ghost Value = { List FileKey };

    ghost view = { λ list. list.files.items };

    ghost invariant = { λ list. length list.files.items ≤ 1000 };
}

impl FileKeys {
    /// Makes a list of at most 1,000 files. Returns `None` for more files. It does not allocate.
    pub fn of(files: Vec<FileKey>) -> Option<FileKeys>
        ensures { SomeIff result (length files.items ≤ 1000) files.items }
    {
        if files.len() > MOST_FILES {
            return None;
        }
        Some(FileKeys { files })
    }

    /// Returns the files in order.
    pub fn as_slice(&self) -> &[FileKey]
        ensures files { result.now ≡ self.now }
        ensures most { length self.now ≤ 1000 }
    {
        self.files.as_slice()
    }
}
