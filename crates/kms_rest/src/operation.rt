//! The operations of the service.

/// An operation of the service, as named by the method and the path of a request.
#[derive(Clone, Copy, Debug, PartialEq, Eq)]
pub enum Operation {
    /// `POST /kms/v1/keys`: creates a key.
    Create,
    /// `POST /kms/v1/key/K`: gives a key its next version.
    Roll,
    /// `DELETE /kms/v1/key/K`: deletes a key.
    Delete,
    /// `POST /kms/v1/key/K/_invalidatecache`: drops the encrypted keys that are ready for a key.
    Invalidate,
    /// `GET /kms/v1/key/K/_metadata`: returns the metadata of a key.
    Metadata,
    /// `GET /kms/v1/key/K/_currentversion`: returns the newest version of a key.
    Current,
    /// `GET /kms/v1/key/K/_versions`: returns all versions of a key.
    Versions,
    /// `GET /kms/v1/key/K/_eek`: generates encrypted keys.
    Generate,
    /// `POST /kms/v1/key/K/_reencryptbatch`: re-encrypts many encrypted keys.
    Batch,
    /// `GET /kms/v1/keyversion/V`: returns a version.
    Version,
    /// `POST /kms/v1/keyversion/V/_eek`: decrypts or re-encrypts an encrypted key.
    Eek,
    /// `GET /kms/v1/keys/names`: returns the names of all keys.
    Names,
    /// `GET /kms/v1/keys/metadata`: returns the metadata of some keys.
    Metadatas,
}
