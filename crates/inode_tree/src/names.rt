//! Names of nodes. Short ones take no memory of their own.
ghost use Rattle.std.specs.Prelude.{◌≡◌, ◌≤◌, [], length, string_bytes, string_capacity, IfOk};
ghost use Rattle.std.specs.Str.{IsUtf8};
ghost use Rattle.hk_base.specs.Names.{padded};

use hk_base::{NoMemory, Text};
use std::alloc::Global;
use std::marker::Model;
use std::mem;

#[derive(Drop)]
enum Held {
    Short { len: u8, bytes: [u8; 30] },
    Long { text: Text },
}

/// The name of a node: up to 30 bytes in place, or a longer text. Contracts see its bytes.
#[derive(Drop)]
pub struct NodeName {
    held: Held,
}

impl Model for NodeName {
    ghost use Rattle.std.specs.Prelude.{List, ℕ};
    ghost use Rattle.std.specs.Str.{IsUtf8};
    ghost use Rattle.inode_tree.specs.NodeNames.{IsShort, held_bytes};

    ghost Value = { List ℕ };

    ghost view = { λ name. held_bytes name.held };

    ghost invariant = { λ name. IsShort name.held × IsUtf8 (held_bytes name.held) };
}

impl NodeName {
    /// Creates an empty name, as the root has it.
    pub fn empty() -> NodeName
        ensures { result ≡ [] }
    {
        NodeName {
            held: Held::Short {
                len: 0,
                bytes: [0u8; 30],
            },
        }
    }

    pub fn as_bytes(&self) -> &[u8]
        ensures bytes { result.now ≡ self.now }
        ensures text { IsUtf8 self.now }
    {
        match &self.held {
            Held::Short { len, bytes } => &bytes[..*len as usize],
            Held::Long { text } => text.as_str().as_bytes(),
        }
    }
}

fn with_zeros(bytes: &[u8]) -> [u8; 30]
    requires { length bytes.now ≤ 30 }
    ensures { result ≡ padded 30 bytes.now }
{
    let mut all = [0u8; 30];
    let (front, _) = all.split_at_mut(bytes.len());
    front.copy_from_slice(bytes);
    all
}

/// Copies a name. A long one goes into the memory reserved in `ready`, which is then empty.
pub fn name_in(alloc: Global, ready: &mut String, name: &Text) -> NodeName
    requires ready { string_bytes ready.old ≡ [] }
    requires room { length name.now ≤ string_capacity ready.old }
    ensures name { result ≡ name.now }
    ensures ready { string_bytes ready.new ≡ [] }
{
    let bytes = name.as_str().as_bytes();
    if bytes.len() <= 30 {
        return NodeName {
            held: Held::Short {
                len: bytes.len() as u8,
                bytes: with_zeros(bytes),
            },
        };
    }
    let mut text = mem::replace(ready, String::new(alloc));
    let _ = text.push_str(name.as_str());
    NodeName {
        held: Held::Long {
            text: Text::of(text),
        },
    }
}

/// Copies a name into memory of its own. Returns `NoMemory` if allocation fails.
pub fn copy_of(alloc: Global, name: &NodeName) -> Result<Text, NoMemory>
    ensures { IfOk result (λ copy. copy ≡ name.now) }
{
    let bytes = Vec::from_slice(alloc, name.as_bytes())?;
    match Text::from_utf8(bytes) {
        Some(text) => Ok(text),
        None => unreachable!(),
    }
}
