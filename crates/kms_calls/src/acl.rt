//! The access control lists of the Hadoop KMS, and the operations that they name.
ghost use Rattle.std.specs.Prelude.{◌≡◌};
ghost use Rattle.kms_calls.specs.Acl.{op_text};

/// The access control list that denies a call.
#[derive(Clone, Copy, Debug, PartialEq, Eq)]
pub enum AclTable {
    /// The list of users who may do the operation, `hadoop.kms.acl.OP`, does not have the user.
    ServiceAcl,
    /// The list of users who may not, `hadoop.kms.blacklist.OP`, has the user.
    ServiceBlacklist,
    /// The key has lists of its own, `key.acl.KEY.OP`, and none of them has the user.
    KeyAcl,
    /// The key has no lists of its own, and the default list, `default.key.acl.OP`, does not have
    /// the user.
    DefaultAcl,
    /// There is no list for the operation, neither for the key nor a default one.
    NoAcl,
}

/// An operation that an access control list names. The first nine are operations of the service;
/// MANAGEMENT, GENERATE_EEK, DECRYPT_EEK and READ are operations on a key.
#[derive(Clone, Copy, Debug, PartialEq, Eq)]
pub enum AclOp {
    Create,
    Delete,
    Rollover,
    Get,
    GetKeys,
    GetMetadata,
    SetKeyMaterial,
    GenerateEek,
    DecryptEek,
    Management,
    Read,
}

impl AclOp {
    /// Returns the name of the operation in the properties of the Hadoop KMS.
    pub fn name(&self) -> &'static str
        ensures { result.now ≡ op_text self.now }
    {
        match self {
            AclOp::Create => "CREATE",
            AclOp::Delete => "DELETE",
            AclOp::Rollover => "ROLLOVER",
            AclOp::Get => "GET",
            AclOp::GetKeys => "GET_KEYS",
            AclOp::GetMetadata => "GET_METADATA",
            AclOp::SetKeyMaterial => "SET_KEY_MATERIAL",
            AclOp::GenerateEek => "GENERATE_EEK",
            AclOp::DecryptEek => "DECRYPT_EEK",
            AclOp::Management => "MANAGEMENT",
            AclOp::Read => "READ",
        }
    }
}
