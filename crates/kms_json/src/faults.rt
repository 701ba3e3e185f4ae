//! The faults of a body.
use hk_base::NoMemory;
use std::alloc::AllocError;

/// The member of a body that is at fault.
#[derive(Clone, Copy, Debug, PartialEq, Eq)]
pub enum Member {
    /// `name`, the name of a key.
    Name,
    /// `cipher`, the cipher of a key.
    Cipher,
    /// `length`, the length of a key in bits.
    Length,
    /// `material`, bytes in base64, also within an element of a batch.
    Material,
    /// `description`, the description of a key.
    Description,
    /// `iv`, an initialization vector in base64.
    Iv,
    /// `versionName`, the name of a version, and within an element of a batch the mark `EEK`.
    VersionName,
    /// `encryptedKeyVersion`, the object within an element of a batch.
    EncryptedKeyVersion,
    /// An element of a batch itself.
    Element,
}

/// Why a body is not a call. The members are checked in a fixed order, and the first fault is
/// reported.
#[derive(Clone, Copy, Debug, PartialEq, Eq)]
pub enum JsonFault {
    /// The body is not JSON, or it is not an object (for a batch: an array).
    NotJson,
    /// A required member is absent or null.
    Missing(Member),
    /// The text is not base64, in the standard or the URL-safe alphabet, with or without padding.
    BadBase64(Member),
    /// The value has another type, or it breaks its rule.
    BadValue(Member),
    /// There is no memory to read the body.
    NoMemory,
}

impl From<NoMemory> for JsonFault {
    ghost use Rattle.std.specs.Prelude.{◌≡◌};
    ghost use Rattle.kms_json.specs.declared.faults.JsonFault.TheVariants as fault;

    ghost from_gives = { λ _ given. given ≡ fault.NoMemory };

    fn from(_: NoMemory) -> Self {
        JsonFault::NoMemory
    }
}

impl From<AllocError> for JsonFault {
    ghost use Rattle.std.specs.Prelude.{◌≡◌};
    ghost use Rattle.kms_json.specs.declared.faults.JsonFault.TheVariants as fault;

    ghost from_gives = { λ _ given. given ≡ fault.NoMemory };

    fn from(_: AllocError) -> Self {
        JsonFault::NoMemory
    }
}
