//! What the name of a property sets.

use hk_base::KeyName;
use kms_calls::AclOp;

/// The access control list that a name sets.
#[derive(Drop)]
pub enum AclPlace {
    Service { op: AclOp },
    Blacklist { op: AclOp },
    Key { key: KeyName, op: AclOp },
    KeyAll { key: KeyName },
    Default { op: AclOp },
    Whitelist { op: AclOp },
}

/// The size that a name sets.
#[derive(Clone, Copy)]
pub enum SizeName {
    QueueSize,
    QueueWatermark,
    BatchSize,
    CacheSize,
}

/// What a name sets.
#[derive(Drop)]
pub enum Setting {
    List { place: AclPlace },
    Group,
    Size { which: SizeName },
}
