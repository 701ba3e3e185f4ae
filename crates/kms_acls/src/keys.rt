//! Access control lists of single keys.
ghost use Rattle.std.specs.Prelude.{◌≡◌, ℕ, Bool, false, ◌&&◌, ◌||◌, List, Some, None, if◌then◌else◌, OnOk, is_some};
ghost use Rattle.std.specs.Option.{option_copied, option_or, unwrap_or};
ghost use Rattle.std.specs.Str.{bytes_eq};
ghost use Rattle.kms_acls.specs.Lists.{all_of_key, list_of_key, lists_of_key, no_lists};
ghost use Rattle.kms_acls.specs.Verdict.{given_if, same_op};
ghost use Rattle.kms_calls.specs.declared.acl.AclOp.{AclOp};

use crate::lists::{AclsByOp, KeyLists};
use crate::members::Members;
use hk_base::NoMemory;
use kms_calls::AclOp;
use std::alloc::Global;
use std::collections::BTreeMap;
use std::marker::Model;

/// The lists of each key that has lists, by the key's name.
#[derive(Drop)]
pub struct Keys {
    alloc: Global,
    lists: BTreeMap<Vec<u8>, KeyLists>,
}

impl Model for Keys {
    ghost use Rattle.std.specs.Prelude.{ℕ, List, map};
    ghost use Rattle.kms_acls.specs.declared.lists.KeyLists.{KeyLists};

    ghost Value = { List (List ℕ × KeyLists) };

    ghost view = { λ a. map (λ e. (e.0.items, e.1)) a.lists.entries };
}

impl Keys {
    /// Creates a table without lists. Does not allocate.
    pub fn new(alloc: Global) -> Keys
        ensures { (key : List ℕ) → lists_of_key key result ≡ None }
    {
        Keys {
            alloc,
            lists: BTreeMap::new(alloc),
        }
    }

    /// Returns the lists of a key, or `None` if it has none. Takes time logarithmic in the number
    /// of keys that have lists.
    pub fn get(&self, key: &[u8]) -> Option<&KeyLists>
        ensures { option_copied result ≡ lists_of_key key.now self.now }
    {
        self.lists.get(key)
    }

    /// Removes and returns the lists of a key. They are empty if it has none.
    fn take(&mut self, key: &[u8]) -> KeyLists
        ensures taken { result ≡ unwrap_or (lists_of_key key.now self.old) no_lists }
        ensures others { (other : List ℕ) → bytes_eq other key.now ≡ false →
            lists_of_key other self.new ≡ lists_of_key other self.old }
    {
        let none = KeyLists {
            by_op: AclsByOp::new(self.alloc),
            all: None,
        };
        self.lists.remove(key).unwrap_or(none)
    }

    /// Inserts the lists of a key.
    fn put(&mut self, key: &[u8], lists: KeyLists) -> Result<(), NoMemory>
        ensures { OnOk result
            ((other : List ℕ) →
            lists_of_key other self.new ≡
            (if bytes_eq other key.now then Some lists else lists_of_key other self.old)) }
    {
        let key = Vec::from_slice(self.alloc, key)?;
        self.lists.insert(key, lists)?;
        Ok(())
    }

    /// Adds the list of an operation on a key. The first such list counts.
    pub fn add(&mut self, key: &[u8], op: AclOp, members: Members) -> Result<(), NoMemory>
        ensures added { OnOk result
            ((k : List ℕ) (o : AclOp) →
            list_of_key k o self.new ≡
            option_or (list_of_key k o self.old)
            (given_if (bytes_eq k key.now && same_op op o) members)) }
        ensures all { OnOk result ((k : List ℕ) → all_of_key k self.new ≡ all_of_key k self.old) }
        ensures has_lines { OnOk result
            ((k : List ℕ) →
            is_some (lists_of_key k self.new) ≡
            (is_some (lists_of_key k self.old) || bytes_eq k key.now)) }
    {
        let mut lists = self.take(key);
        lists.by_op.add(op, members)?;
        self.put(key, lists)?;
        Ok(())
    }

    /// Adds the list for all operations on a key. The first such list counts.
    pub fn add_all(&mut self, key: &[u8], members: Members) -> Result<(), NoMemory>
        ensures added { OnOk result
            ((k : List ℕ) →
            all_of_key k self.new ≡
            option_or (all_of_key k self.old) (given_if (bytes_eq k key.now) members)) }
        ensures by_op { OnOk result
            ((k : List ℕ) (o : AclOp) → list_of_key k o self.new ≡ list_of_key k o self.old) }
        ensures has_lines { OnOk result
            ((k : List ℕ) →
            is_some (lists_of_key k self.new) ≡
            (is_some (lists_of_key k self.old) || bytes_eq k key.now)) }
    {
        let lists = self.take(key);
        let by_op = lists.by_op;
        let all = lists.all.or(Some(members));
        self.put(key, KeyLists { by_op, all })?;
        Ok(())
    }
}
