//! Lists of users for single operations.
ghost use Rattle.std.specs.Prelude.{◌≡◌, ◌∷◌, ◌++◌, [], OnOk};
ghost use Rattle.std.specs.Option.{option_copied};
ghost use Rattle.kms_acls.specs.Lists.{list_of};
ghost use Rattle.kms_acls.specs.Verdict.{same_op};

use crate::members::Members;
use hk_base::NoMemory;
use kms_calls::AclOp;
use std::alloc::Global;
use std::marker::Model;

/// The list of users for an operation.
#[derive(Drop)]
pub struct OpAcl {
    pub op: AclOp,
    pub members: Members,
}

/// Lists for operations. Properties have at most one for each operation, so there are few.
#[derive(Drop)]
pub struct AclsByOp {
    lists: Vec<OpAcl>,
}

impl Model for AclsByOp {
    ghost use Rattle.std.specs.Prelude.{List};
    ghost use Rattle.kms_acls.specs.declared.lists.OpAcl.{OpAcl};

    ghost Value = { List OpAcl };

    ghost view = { λ a. a.lists.items };
}

fn same_op(a: AclOp, b: AclOp) -> bool
    ensures { result ≡ same_op a b }
{
    a == b
}

impl AclsByOp {
    /// Creates an empty collection. Does not allocate.
    pub fn new(alloc: Global) -> AclsByOp
        ensures { result ≡ [] }
    {
        AclsByOp {
            lists: Vec::new(alloc),
        }
    }

    /// Adds the list of an operation. The first list of an operation counts.
    pub fn add(&mut self, op: AclOp, members: Members) -> Result<(), NoMemory>
        ensures { OnOk result (self.new ≡ self.old ++ record { op = op; members = members } ∷ []) }
    {
        self.lists.push(OpAcl { op, members })?;
        Ok(())
    }

    /// Returns the list of an operation, if there is one.
    pub fn get(&self, op: AclOp) -> Option<&Members>
        ensures { option_copied result ≡ list_of op self.now }
    {
        let list = self.lists.iter().find(|list| same_op(list.op, op))?;
        Some(&list.members)
    }
}

/// The lists of a key: those for single operations, and the one for all operations.
#[derive(Drop)]
pub struct KeyLists {
    pub by_op: AclsByOp,
    pub all: Option<Members>,
}
