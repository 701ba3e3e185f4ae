//! The operations of the namesystem.

/// An operation of the namesystem, as named by the path of a request.
#[derive(Clone, Copy, Debug, PartialEq, Eq)]
pub enum Operation {
    /// `POST /nn/v1/mkdir`: makes a directory.
    Mkdir,
    /// `POST /nn/v1/create`: makes a file.
    Create,
    /// `POST /nn/v1/delete`: deletes an entry.
    Delete,
    /// `POST /nn/v1/rename`: moves an entry.
    Rename,
    /// `POST /nn/v1/zone`: makes a directory an encryption zone.
    Zone,
    /// `POST /nn/v1/reencrypt`: has a zone re-encrypted.
    Reencrypt,
    /// `POST /nn/v1/cancel`: cancels a re-encryption.
    Cancel,
    /// `POST /nn/v1/allow`: allows snapshots of a directory.
    Allow,
    /// `POST /nn/v1/disallow`: disallows snapshots of a directory.
    Disallow,
    /// `POST /nn/v1/snapshot`: takes a snapshot.
    Snapshot,
    /// `POST /nn/v1/unsnapshot`: removes a snapshot.
    Unsnapshot,
    /// `GET /nn/v1/info`: returns an entry.
    Info,
    /// `GET /nn/v1/list`: returns the entries of a directory.
    List,
    /// `GET /nn/v1/status`: returns how far a re-encryption is.
    Status,
    /// `GET /nn/v1/zones`: returns the encryption zones.
    Zones,
}
