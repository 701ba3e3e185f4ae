//! The lists in calls and replies.
use crate::calls::{KeyMeta, KeyVersion, RawEdek};
use hk_base::{Edek, KeyName, Listing};

/// A list of encrypted data encryption keys.
pub type EdekList = Listing<Edek>;

/// A list of encrypted data encryption keys as a client sends them.
pub type RawEdekList = Listing<RawEdek>;

/// A list of key versions with their materials.
pub type VersionList = Listing<KeyVersion>;

/// A list of keys' metadata.
pub type MetaList = Listing<KeyMeta>;

/// A list of names of keys.
pub type NameList = Listing<KeyName>;
