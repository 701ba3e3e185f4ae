//! The key `k`, the zone `/z` under it, and the files of the zone.
use crate::callers::{Caller, key, path, text};
use hk_base::{ByteList, Dek, Edek};
use kms_calls::{Description, KmsCall, KmsReply, RawEdek};
use name_calls::{Ask, NameCall, NameRefusal, NameReply, ReadPath};
use std::process::Abort;
use std::sync::Wait;
use turns::Turns;

/// The encrypted data encryption key of a file, and the key that it opens to.
#[derive(Clone, Copy)]
pub struct OpenedFile {
    pub edek: Edek,
    pub dek: Dek,
}

fn bytes(rt: &(impl Abort + AllocGlobal), bytes: &[u8]) -> ByteList {
    ByteList::of(bytes.to_vec(rt.alloc()).expect(rt, "memory"))
}

/// Decrypts an encrypted data encryption key.
fn decrypt(rt: &(impl Abort + AllocGlobal), edek: &Edek) -> KmsCall {
    KmsCall::Decrypt {
        name: edek.version.key,
        sent: RawEdek {
            version: edek.version,
            iv: bytes(rt, edek.iv.as_bytes()),
            sealed: bytes(rt, edek.sealed.as_bytes()),
        },
    }
}

fn version_in(rt: &impl Abort, reply: &KmsReply) -> u16 {
    match reply {
        KmsReply::Version { version, .. } => version.number,
        _ => panic!(rt; "no version"),
    }
}

fn dek_in(rt: &impl Abort, reply: &KmsReply) -> Dek {
    match reply {
        KmsReply::Key(dek) => *dek,
        _ => panic!(rt; "no data encryption key"),
    }
}

fn session_in(rt: &impl Abort, reply: &NameReply) -> u64 {
    match reply {
        NameReply::Status(Some(status)) => status.session,
        _ => panic!(rt; "no status"),
    }
}

/// Returns the encrypted key of a file, or `None` if there is no such file.
fn edek_in(rt: &impl Abort, reply: &NameReply) -> Option<Edek> {
    match reply {
        NameReply::File { edek, .. } => *edek,
        NameReply::Refused(NameRefusal::NoSuchPath) => None,
        _ => panic!(rt; "no file"),
    }
}

impl<S: Turns, R: Wait + Abort + AllocGlobal> Caller<'_, S, R> {
    /// Makes a call that is answered with a version of the key. Returns its number.
    fn version_by(&mut self, call: KmsCall) -> u16 {
        let reply = self.call_keys(call);
        let number = version_in(self.rt, &reply);
        drop(reply);
        number
    }

    /// Creates the key.
    fn create_key(&mut self) {
        let description = Description::empty(self.rt.alloc());
        let created = self.version_by(KmsCall::Create {
            name: key(self.rt),
            bits: 128,
            material: None,
            description,
        });
        assert_eq!(self.rt; created, 0);
    }

    /// Creates the key and the zone.
    pub fn create_zone(&mut self) {
        self.create_key();
        let zone = path(self.rt, "/z");
        self.change_names("hdfs", NameCall::Mkdir { path: zone });
        let ask = Ask::Zone {
            path: path(self.rt, "/z"),
            key: key(self.rt),
        };
        self.carry_out("hdfs", ask);
    }

    /// Gives the key its next version, and returns its number.
    pub fn roll_key(&mut self) -> u16 {
        let name = key(self.rt);
        self.version_by(KmsCall::Roll {
            name,
            material: None,
        })
    }

    /// Returns the number of the current version of the key.
    pub fn current_version(&mut self) -> u16 {
        let name = key(self.rt);
        self.version_by(KmsCall::Current { name })
    }

    /// Submits the re-encryption of the zone.
    pub fn submit(&mut self) {
        let zone = path(self.rt, "/z");
        self.carry_out("hdfs", Ask::Submit { path: zone });
    }

    /// Cancels the re-encryption of the zone.
    pub fn cancel(&mut self) {
        let zone = path(self.rt, "/z");
        self.change_names("hdfs", NameCall::Cancel { path: zone });
    }

    /// Returns the id of the last re-encryption of the zone.
    pub fn last_session(&mut self) -> u64 {
        let zone = path(self.rt, "/z");
        let reply = self.call_names("hdfs", NameCall::Status { path: zone });
        let session = session_in(self.rt, &reply);
        drop(reply);
        session
    }

    /// Creates a file of the zone.
    pub fn create_file(&mut self, file: &str) {
        let file = path(self.rt, file);
        self.carry_out("alice", Ask::Create { path: file });
    }

    /// Deletes a file.
    pub fn delete_file(&mut self, file: &str) {
        let call = NameCall::Delete {
            path: path(self.rt, file),
            recursive: false,
        };
        self.change_names("alice", call);
    }

    /// Returns the encrypted key of a file of the zone, or `None` if there is no such file.
    fn edek_of(&mut self, file: &str) -> Option<Edek> {
        let place = ReadPath {
            path: path(self.rt, file),
            snapshot: None,
        };
        let reply = self.call_names("alice", NameCall::Info { path: place });
        let edek = edek_in(self.rt, &reply);
        drop(reply);
        edek
    }

    /// Returns the key that an encrypted key opens to.
    fn open(&mut self, edek: &Edek) -> Dek {
        let call = decrypt(self.rt, edek);
        let reply = self.call_keys(call);
        let dek = dek_in(self.rt, &reply);
        drop(reply);
        dek
    }

    /// Opens the encrypted keys of those of these files that are there.
    pub fn open_files(&mut self, files: &[&str]) -> Vec<OpenedFile> {
        let mut opened = Vec::new(self.rt.alloc());
        for file in files {
            if let Some(edek) = self.edek_of(*file) {
                let dek = self.open(&edek);
                opened
                    .push(OpenedFile { edek, dek })
                    .expect(self.rt, "memory");
            }
        }
        opened
    }
}
