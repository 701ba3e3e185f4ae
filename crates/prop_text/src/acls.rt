//! Access control lists.
ghost use Rattle.std.specs.Prelude.{◌≡◌, ◌∷◌, ◌++◌, [], OnOk, OnErr};

use hk_base::{NoMemory, Text};
use std::alloc::Global;
use std::marker::Model;

/// Names of users or groups. Contracts see a list.
#[derive(Drop)]
pub struct TextList {
    texts: Vec<Text>,
}

impl Model for TextList {
    ghost use Rattle.std.specs.Prelude.{ℕ, List};

    ghost Value = { List (List ℕ) };

    ghost view = { λ list. list.texts.items };
}

impl TextList {
    /// Creates an empty list. Does not allocate.
    pub fn new(alloc: Global) -> TextList
        ensures { result ≡ [] }
    {
        TextList {
            texts: Vec::new(alloc),
        }
    }

    /// Appends a name. Returns `NoMemory` if allocation fails; the list is then unchanged.
    pub fn push(&mut self, text: Text) -> Result<(), NoMemory>
        ensures ok { OnOk result (self.new ≡ self.old ++ text ∷ []) }
        ensures err { OnErr result (self.new ≡ self.old) }
    {
        self.texts.push(text)?;
        Ok(())
    }

    pub fn as_slice(&self) -> &[Text]
        ensures { result.now ≡ self.now }
    {
        self.texts.as_slice()
    }
}

/// An access control list: everybody, or these users and the users of these groups.
#[derive(Drop)]
pub struct Acl {
    pub everybody: bool,
    pub users: TextList,
    pub groups: TextList,
}
