//! Lists of users and groups, prepared for lookups.
ghost use Rattle.std.specs.Prelude.{◌≡◌, ℕ, List, IfOk};
ghost use Rattle.prop_text.specs.Properties.{is_among};
ghost use Rattle.kms_acls.specs.Lists.{acl_meaning, members_meaning};

use hk_base::{NoMemory, Text};
use prop_text::{Acl, NameSet, TextList};
use std::alloc::Global;

/// A list of users and groups, with its users in a set.
#[derive(Drop)]
pub struct Members {
    pub everybody: bool,
    pub users: NameSet,
    pub groups: TextList,
}

/// Returns the names of a list as a set.
pub fn set_of(alloc: Global, texts: &TextList) -> Result<NameSet, NoMemory>
    ensures { IfOk result
        (λ names. (name : List ℕ) → is_among name names ≡ is_among name texts.now) }
{
    let mut names = NameSet::new(alloc);
    for text in texts.as_slice() {
        names.add(text.as_str().as_bytes())?;
    }
    Ok(names)
}

/// Copies a list of names.
fn copy_of(alloc: Global, texts: &TextList) -> Result<TextList, NoMemory>
    ensures { IfOk result (λ copy. copy ≡ texts.now) }
{
    let mut copy = TextList::new(alloc);
    for text in texts.as_slice() {
        copy.push(Text::of(String::from_str(alloc, text.as_str())?))?;
    }
    Ok(copy)
}

impl Members {
    /// Prepares an access control list for lookups.
    pub fn of(alloc: Global, acl: &Acl) -> Result<Members, NoMemory>
        ensures { IfOk result (λ members. members_meaning members ≡ acl_meaning acl.now) }
    {
        let users = set_of(alloc, &acl.users)?;
        let groups = copy_of(alloc, &acl.groups)?;
        Ok(Members {
            everybody: acl.everybody,
            users,
            groups,
        })
    }
}
