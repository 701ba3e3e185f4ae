//! Lists of encryption zones.
use crate::paths::NPath;
use hk_base::{KeyName, Listing};

/// An encryption zone in a list: the path of its directory, and the key of its files.
#[derive(Drop)]
pub struct ZonePath {
    pub path: NPath,
    pub key: KeyName,
}

/// A list of encryption zones.
pub type ZoneList = Listing<ZonePath>;
