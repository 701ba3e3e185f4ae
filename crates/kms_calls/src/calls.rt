//! The calls of the key management service and its replies, as in the Hadoop KMS guide (REST API
//! v1).
use crate::acl::{AclOp, AclTable};
use crate::description::Description;
use crate::lists::{EdekList, MetaList, NameList, RawEdekList, VersionList};
use hk_base::{ByteList, Dek, Edek, KeyName, NoMemory, VersionName};
use std::marker::Model;

/// An encrypted data encryption key as a client sends it: the key version that is said to have
/// sealed it, and an initialization vector and sealed bytes of any length.
#[derive(Drop)]
pub struct RawEdek {
    pub version: VersionName,
    pub iv: ByteList,
    pub sealed: ByteList,
}

/// A version of a key with its material, or `None` if the material is hidden.
#[derive(Clone, Copy, PartialEq, Eq)]
pub struct KeyVersion {
    pub version: VersionName,
    pub material: Option<Dek>,
}

impl Model for KeyVersion {
    ghost use Rattle.kms_calls.specs.Shown.{Shown};

    ghost Value = { Shown };

    ghost view = { λ a. record { version = a.version; material = a.material } };

    ghost inverse = { λ v. record { version = v.version; material = v.material } };
}

/// A call of the key management service.
#[derive(Drop)]
pub enum KmsCall {
    /// Creates a key of `bits` bits with its first version. If no material is given, it is drawn at
    /// random.
    Create {
        name: KeyName,
        bits: u64,
        material: Option<ByteList>,
        description: Description,
    },
    /// Gives a key its next version. If no material is given, it is drawn at random.
    Roll {
        name: KeyName,
        material: Option<ByteList>,
    },
    /// Deletes a key with all its versions.
    Delete {
        name: KeyName,
    },
    /// Drops what the service holds ready for a key. The key is unchanged.
    Invalidate {
        name: KeyName,
    },
    /// Asks for the metadata of a key.
    Metadata {
        name: KeyName,
    },
    /// Asks for the metadata of several keys.
    Metadatas {
        names: NameList,
    },
    /// Asks for the names of all keys.
    Names,
    /// Asks for the current version of a key, its newest one.
    Current {
        name: KeyName,
    },
    /// Asks for all versions of a key.
    Versions {
        name: KeyName,
    },
    /// Asks for one version of a key.
    Version {
        version: VersionName,
    },
    /// Asks for `count` new data encryption keys, encrypted under the current version of a key.
    Generate {
        name: KeyName,
        count: u32,
    },
    /// Decrypts an encrypted data encryption key under a version of a key.
    Decrypt {
        name: KeyName,
        sent: RawEdek,
    },
    /// Encrypts the same data encryption key under the current version of a key.
    Reencrypt {
        name: KeyName,
        sent: RawEdek,
    },
    /// Encrypts the same data encryption keys under the current version of a key.
    Batch {
        name: KeyName,
        sent: RawEdekList,
    },
}

/// Why a call is refused. If more than one applies, the first of these is answered: NoUser,
/// BadRequest, Denied, KeyExists or NoSuchKey, NoSuchVersion, WrongKey, BadLength, BadMaterial,
/// TooManyKeys, TooManyVersions, TooManyAsked, NoMemory, StoreFault.
#[derive(Clone, Copy, Debug, PartialEq, Eq)]
pub enum KmsRefusal {
    /// The request is not one of the service's, or its body is malformed.
    BadRequest,
    /// The request names no user.
    NoUser,
    /// An access control list denies the user the operation.
    Denied { table: AclTable, op: AclOp },
    /// No key has this name.
    NoSuchKey,
    /// The key has no version with this number.
    NoSuchVersion,
    /// A key with this name exists already.
    KeyExists,
    /// The version that is said to have sealed it belongs to another key.
    WrongKey,
    /// The given material or the sealed bytes are not as long as the key, or an initialization
    /// vector does not have 16 bytes.
    BadMaterial,
    /// The length is not 128, 192 or 256 bits.
    BadLength,
    /// There are 10,000 keys, or the numbers of this start are used up.
    TooManyKeys,
    /// The key has 65,535 versions.
    TooManyVersions,
    /// More than 1,000 data encryption keys are asked for, or sent at once.
    TooManyAsked,
    /// Allocation failed.
    NoMemory,
    /// The disk failed, so the change may or may not be kept.
    StoreFault,
}

impl From<NoMemory> for KmsRefusal {
    ghost use Rattle.std.specs.Prelude.{◌≡◌};
    ghost use Rattle.kms_calls.specs.declared.calls.KmsRefusal.TheVariants as refusal;

    ghost from_gives = { λ _ given. given ≡ refusal.NoMemory };

    fn from(_: NoMemory) -> Self {
        KmsRefusal::NoMemory
    }
}

/// The metadata of a key. `versions` is the number of its versions.
#[derive(Drop)]
pub struct KeyMeta {
    pub name: KeyName,
    pub bits: u16,
    pub description: Description,
    pub created: u64,
    pub versions: u32,
}

/// The reply to a call: Refused if the call is refused, else the variant that names the call.
#[derive(Drop)]
pub enum KmsReply {
    /// To Create, Roll, Current and Version. The material is `None` if it is hidden.
    Version {
        version: VersionName,
        material: Option<Dek>,
    },
    /// To Delete and Invalidate.
    Done,
    /// To Metadata.
    Metadata(KeyMeta),
    /// To Metadatas, in the order of the call; a key that is named twice is answered twice.
    Metadatas(MetaList),
    /// To Names, in byte order.
    Names(NameList),
    /// To Versions, by number.
    Versions(VersionList),
    /// To Generate and Batch.
    Ready(EdekList),
    /// To Reencrypt.
    Resealed(Edek),
    /// To Decrypt.
    Key(Dek),
    Refused(KmsRefusal),
}
