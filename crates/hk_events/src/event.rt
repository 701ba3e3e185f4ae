//! The events of both services, and their answers.
use eek_seal::Deposit;
use hk_base::{ByteList, KeyName, Text, VersionName};
use kms_calls::{KmsCall, KmsReply};
use name_calls::{AskNote, Delivered, NameRefusal, NameReply};

/// An event: one call of one service. A path and the name of a snapshot are given by their bytes.
/// Kept tickets, asks, batches and replies are numbered from 1, each kind by itself. They are never
/// dropped: each may be used late, again or never.
#[derive(Drop)]
pub enum Event {
    /// A call of the key management service.
    Kms {
        user: Text,
        call: KmsCall,
    },
    /// Asks the key management service for a ticket to seal data encryption keys in advance. If one
    /// is given, it is kept.
    Ticket,
    /// Draws an initialization vector and a data encryption key, seals the key with the kept ticket
    /// of this number and deposits it as a ready key.
    Deposit {
        ticket: u32,
    },
    /// Drops the key management service and opens it again from its log.
    RestartKms,
    /// Drops the namesystem and opens it again from its log. The open asks are dropped.
    RestartName,
    /// Makes a directory of the namesystem.
    Mkdir {
        user: Text,
        path: ByteList,
    },
    /// Deletes the entry at a path of the namesystem, with all below it if `recursive` is set.
    Delete {
        user: Text,
        path: ByteList,
        recursive: bool,
    },
    /// Moves the entry at a path of the namesystem, with all below it, to another path.
    Rename {
        user: Text,
        path: ByteList,
        to: ByteList,
    },
    /// Asks for the entry at a path of the namesystem, or at a path in a snapshot.
    Info {
        user: Text,
        path: ByteList,
    },
    /// Asks for the entries of a directory of the namesystem, or of a directory in a snapshot.
    List {
        user: Text,
        path: ByteList,
    },
    /// Allows snapshots of a directory of the namesystem.
    Allow {
        user: Text,
        path: ByteList,
    },
    /// Disallows snapshots of a directory of the namesystem that has none.
    Disallow {
        user: Text,
        path: ByteList,
    },
    /// Takes a snapshot of a directory of the namesystem under a name.
    Snap {
        user: Text,
        path: ByteList,
        name: ByteList,
    },
    /// Removes the snapshot of a directory of the namesystem with a name.
    Unsnap {
        user: Text,
        path: ByteList,
        name: ByteList,
    },
    /// Cancels the re-encryption of a zone.
    Cancel {
        user: Text,
        path: ByteList,
    },
    /// Asks how far the re-encryption of a zone is.
    Status {
        user: Text,
        path: ByteList,
    },
    /// Asks for the encryption zones.
    Zones {
        user: Text,
    },
    /// Asks the namesystem to make a file. If the ask is accepted, its note is kept.
    AskCreate {
        user: Text,
        path: ByteList,
    },
    /// Asks the namesystem to make a directory a zone with this key. If the ask is accepted, its
    /// note is kept.
    AskZone {
        user: Text,
        path: ByteList,
        key: KeyName,
    },
    /// Asks the namesystem to re-encrypt the files of a zone. If the ask is accepted, its note is
    /// kept.
    AskSubmit {
        user: Text,
        path: ByteList,
    },
    /// Makes the call of the key management service that the kept ask with this number wants, as
    /// the user `hdfs`, and keeps the reply.
    Draw {
        ask: u32,
    },
    /// Finishes the ask that the kept reply with this number answers, if it answers one.
    Finish {
        reply: u32,
    },
    /// Takes the next batch of files of a zone that is being re-encrypted, and keeps it. If no file
    /// is left and no batch is outstanding, the re-encryption is completed.
    Walk {
        path: ByteList,
    },
    /// Has the key management service re-encrypt the encrypted keys of the kept batch with this
    /// number, as the user `hdfs`, and keeps the reply.
    Serve {
        batch: u32,
    },
    /// Gives the files of a batch the encrypted keys that came back with the kept reply of this
    /// number. A refusal counts each file of the batch as failed. The batch is then no longer
    /// outstanding.
    Deliver {
        reply: u32,
    },
    /// Gives up the kept batch with this number: each of its files counts as failed, and the batch is
    /// no longer outstanding.
    GiveUp {
        batch: u32,
    },
}

/// The answer to an event: a line of the transcript.
#[derive(Drop)]
pub enum Line {
    /// The reply of the key management service.
    Kms(KmsReply),
    /// A ticket is kept under this number. It is for this version of a key. `wanted` is the number of
    /// ready keys that the queue of the key lacks.
    Ticket {
        number: u64,
        version: VersionName,
        wanted: u16,
    },
    /// No queue wants ready keys.
    NoTicket,
    /// The answer to a deposit.
    Deposit(Deposit),
    /// A service was opened again; this is the number of the opening.
    Opened {
        opening: u32,
    },
    /// The reply of the namesystem; also the answer to a finish that was done.
    Name(NameReply),
    /// An ask was accepted; its note is kept under this number.
    Asked {
        number: u64,
        note: AskNote,
    },
    /// A reply is kept under this number; `None` if the ask wanted no call.
    Replied {
        number: u64,
        reply: Option<KmsReply>,
    },
    /// A batch of so many files is kept under this number.
    Batch {
        number: u64,
        files: u32,
    },
    /// No file is left to walk, and so many batches are outstanding.
    NoneLeft {
        outstanding: u32,
    },
    /// No file is left and no batch is outstanding: the re-encryption is completed.
    Completed,
    /// What became of a reply that was delivered, or of a batch that was given up.
    Delivered(Delivered),
    /// An ask, a finish, a walk, a delivery or a giving up was refused.
    Refused(NameRefusal),
    /// Nothing is kept under the given number.
    Unknown,
}
