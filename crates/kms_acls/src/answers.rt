//! Results of a verdict.

use kms_calls::{AclOp, AclTable};

/// What may be shown to a user whose call is allowed.
#[derive(Clone, Copy, Debug, PartialEq, Eq)]
pub struct Shown {
    /// Whether Create and Roll return the material of the new version.
    pub material: bool,
}

/// Why a call is denied: the list that denies it, and the operation.
#[derive(Clone, Copy, Debug, PartialEq, Eq)]
pub struct Denied {
    pub table: AclTable,
    pub op: AclOp,
}
