//! The groups and their users.
ghost use Rattle.std.specs.Prelude.{◌≡◌, ℕ, List, Option, Some, None, if◌then◌else◌, OnOk, is_some};
ghost use Rattle.std.specs.Option.{option_or};
ghost use Rattle.std.specs.Str.{bytes_eq};
ghost use Rattle.kms_acls.specs.Lists.{users_of};
ghost use Rattle.kms_acls.specs.Verdict.{given_if, names_user};

use hk_base::NoMemory;
use prop_text::NameSet;
use std::alloc::Global;
use std::collections::BTreeMap;
use std::marker::Model;

/// The users of each group, by the group's name.
#[derive(Drop)]
pub struct Groups {
    alloc: Global,
    users: BTreeMap<Vec<u8>, NameSet>,
}

impl Model for Groups {
    ghost use Rattle.std.specs.Prelude.{ℕ, List, map};

    ghost Value = { List (List ℕ × List (List ℕ)) };

    ghost view = { λ a. map (λ e. (e.0.items, e.1)) a.users.entries };
}

impl Groups {
    /// Creates a table without groups. Does not allocate.
    pub fn new(alloc: Global) -> Groups
        ensures { (group : List ℕ) → users_of group result ≡ None }
    {
        Groups {
            alloc,
            users: BTreeMap::new(alloc),
        }
    }

    /// Adds a group, unless there is one with this name. Takes time logarithmic in the number of
    /// groups.
    pub fn add(&mut self, group: &[u8], users: NameSet) -> Result<(), NoMemory>
        ensures { OnOk result
            ((other : List ℕ) →
            users_of other self.new ≡
            option_or (users_of other self.old) (given_if (bytes_eq other group.now) users)) }
    {
        if self.users.contains_key(group) {
            return Ok(());
        }
        let group = Vec::from_slice(self.alloc, group)?;
        self.users.insert(group, users)?;
        Ok(())
    }

    /// Returns whether the group has the user. Takes time logarithmic in the number of groups and
    /// in the number of the group's users.
    pub fn has(&self, group: &[u8], user: &[u8]) -> bool
        ensures { result ≡ names_user user.now (users_of group.now self.now) }
    {
        match self.users.get(group) {
            None => false,
            Some(users) => users.has(user),
        }
    }
}
