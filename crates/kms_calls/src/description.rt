//! Descriptions of keys.
ghost use Rattle.std.specs.Prelude.{◌≡◌, ◌≤◌, [], length, IfOk, SomeIff};

use hk_base::{NoMemory, Text};
use std::alloc::Global;
use std::marker::Model;

/// The description of a key: a text of at most 65,535 bytes. Contracts see its bytes.
#[derive(Drop)]
pub struct Description {
    text: Text,
}

impl Model for Description {
    ghost use Rattle.std.specs.Prelude.{ℕ, List, length, ◌≤◌};

    ghost Value = { List ℕ };

    ghost view = { λ a. a.text };

    ghost invariant = { λ a. length a.text ≤ 65535 };
}

impl Description {
    /// Returns the empty description. It takes no memory.
    pub fn empty(alloc: Global) -> Description
        ensures { result ≡ [] }
    {
        Description {
            text: Text::of(String::new(alloc)),
        }
    }

    /// Makes a description of a text. Returns `None` if it has more than 65,535 bytes.
    pub fn of(text: Text) -> Option<Description>
        ensures { SomeIff result (length text ≤ 65535) text }
    {
        if text.as_str().len() <= 65535 {
            Some(Description { text })
        } else {
            None
        }
    }

    /// Copies a text of at most 65,535 bytes into a description.
    pub fn from_str(alloc: Global, text: &str) -> Result<Description, NoMemory>
        requires { length text.now ≤ 65535 }
        ensures { IfOk result (λ description. description ≡ text.now) }
    {
        let text = String::from_str(alloc, text)?;
        Ok(Description {
            text: Text::of(text),
        })
    }

    /// Returns a copy of the description.
    pub fn copy(&self, alloc: Global) -> Result<Description, NoMemory>
        ensures { IfOk result (λ copy. copy ≡ self.now) }
    {
        let _ = &self.text;
        Description::from_str(alloc, self.text.as_str())
    }

    /// Returns the text.
    pub fn as_text(&self) -> &Text
        ensures text { result.now ≡ self.now }
        ensures short { length self.now ≤ 65535 }
    {
        &self.text
    }
}
