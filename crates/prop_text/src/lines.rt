//! Lines of the properties.
ghost use Rattle.std.specs.Prelude.{◌≡◌, ◌∷◌, ◌++◌, [], OnOk, OnErr};

use crate::acls::{Acl, TextList};
use hk_base::{KeyName, NoMemory, Text};
use kms_calls::AclOp;
use std::alloc::Global;
use std::marker::Model;

/// What a line of the properties sets.
#[derive(Drop)]
pub enum PropLine {
    /// `hadoop.kms.acl.OP`: who may request this operation of the service.
    Service { op: AclOp, acl: Acl },
    /// `hadoop.kms.blacklist.OP`: who may not request it.
    Blacklist { op: AclOp, acl: Acl },
    /// `key.acl.K.OP`: who may do this operation on the key.
    Key { key: KeyName, op: AclOp, acl: Acl },
    /// `key.acl.K.ALL`: who may do any operation on the key.
    KeyAll { key: KeyName, acl: Acl },
    /// `default.key.acl.OP`: who may do this operation on keys without lines of their own.
    Default { op: AclOp, acl: Acl },
    /// `whitelist.key.acl.OP`: who may do this operation on every key.
    Whitelist { op: AclOp, acl: Acl },
    /// `group.G`: the users of a group.
    Group { group: Text, users: TextList },
    /// `hkms.queue.size`: the number of ready keys in a full queue, 1 to 10,000.
    QueueSize { size: u16 },
    /// `hkms.queue.watermark`: the number of ready keys at which a queue is low, 1 to 10,000.
    QueueWatermark { size: u16 },
    /// `hkms.reencrypt.batch`: the number of files in a batch of a re-encryption, 1 to 1,000.
    BatchSize { size: u16 },
    /// `hkms.cache`: the number of cached materials, 1 to 65,535.
    CacheSize { size: u16 },
}

/// Lines of the properties in order. Contracts see a list.
#[derive(Drop)]
pub struct LineList {
    lines: Vec<PropLine>,
}

impl Model for LineList {
    ghost use Rattle.std.specs.Prelude.{List};
    ghost use Rattle.prop_text.specs.declared.lines.PropLine.{PropLine};

    ghost Value = { List PropLine };

    ghost view = { λ list. list.lines.items };
}

impl LineList {
    /// Creates an empty list. Does not allocate.
    pub fn new(alloc: Global) -> LineList
        ensures { result ≡ [] }
    {
        LineList {
            lines: Vec::new(alloc),
        }
    }

    /// Appends a line. Returns `NoMemory` if allocation fails; the list is then unchanged.
    pub fn push(&mut self, line: PropLine) -> Result<(), NoMemory>
        ensures ok { OnOk result (self.new ≡ self.old ++ line ∷ []) }
        ensures err { OnErr result (self.new ≡ self.old) }
    {
        self.lines.push(line)?;
        Ok(())
    }

    pub fn as_slice(&self) -> &[PropLine]
        ensures { result.now ≡ self.now }
    {
        self.lines.as_slice()
    }
}
