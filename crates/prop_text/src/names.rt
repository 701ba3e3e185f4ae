//! Parsing the names of properties.
ghost use Rattle.std.specs.Prelude.{◌≡◌};
ghost use Rattle.std.specs.List.{list_all};
ghost use Rattle.prop_text.specs.Acls.{is_plain};
ghost use Rattle.prop_text.specs.Names.{acl_name, blacklist_name, default_name, group_name, is_group_name, key_all, key_before, key_name, key_op, key_place, key_with, service_name, service_op, setting_of, size_name, whitelist_name};

use crate::cuts::{before, behind};
use crate::setting::{AclPlace, Setting, SizeName};
use hk_base::KeyName;
use kms_calls::AclOp;

/// Returns the operation of the service with this name.
#[tactic(auto, unfolding(crate::specs::Names::service_op))]
fn service_op(text: &[u8]) -> Option<AclOp>
    ensures { result ≡ service_op text.now }
{
    if text == AclOp::Create.name().as_bytes() {
        return Some(AclOp::Create);
    }
    if text == AclOp::Delete.name().as_bytes() {
        return Some(AclOp::Delete);
    }
    if text == AclOp::Rollover.name().as_bytes() {
        return Some(AclOp::Rollover);
    }
    if text == AclOp::Get.name().as_bytes() {
        return Some(AclOp::Get);
    }
    if text == AclOp::GetKeys.name().as_bytes() {
        return Some(AclOp::GetKeys);
    }
    if text == AclOp::GetMetadata.name().as_bytes() {
        return Some(AclOp::GetMetadata);
    }
    if text == AclOp::SetKeyMaterial.name().as_bytes() {
        return Some(AclOp::SetKeyMaterial);
    }
    if text == AclOp::GenerateEek.name().as_bytes() {
        return Some(AclOp::GenerateEek);
    }
    if text == AclOp::DecryptEek.name().as_bytes() {
        return Some(AclOp::DecryptEek);
    }
    None
}

/// Returns the operation on a key with this name.
#[tactic(auto, unfolding(crate::specs::Names::key_op))]
fn key_op(text: &[u8]) -> Option<AclOp>
    ensures { result ≡ key_op text.now }
{
    if text == AclOp::Management.name().as_bytes() {
        return Some(AclOp::Management);
    }
    if text == AclOp::GenerateEek.name().as_bytes() {
        return Some(AclOp::GenerateEek);
    }
    if text == AclOp::DecryptEek.name().as_bytes() {
        return Some(AclOp::DecryptEek);
    }
    if text == AclOp::Read.name().as_bytes() {
        return Some(AclOp::Read);
    }
    None
}

#[tactic(auto, unfolding(crate::specs::Names::service_name))]
fn service_place(name: &[u8]) -> Option<AclPlace>
    ensures { result ≡ service_name name.now }
{
    let text = behind(b"hadoop.kms.acl.", name)?;
    let op = service_op(text)?;
    Some(AclPlace::Service { op })
}

#[tactic(auto, unfolding(crate::specs::Names::blacklist_name))]
fn blacklist_place(name: &[u8]) -> Option<AclPlace>
    ensures { result ≡ blacklist_name name.now }
{
    let text = behind(b"hadoop.kms.blacklist.", name)?;
    let op = service_op(text)?;
    Some(AclPlace::Blacklist { op })
}

#[tactic(auto, unfolding(crate::specs::Names::default_name))]
fn default_place(name: &[u8]) -> Option<AclPlace>
    ensures { result ≡ default_name name.now }
{
    let text = behind(b"default.key.acl.", name)?;
    let op = key_op(text)?;
    Some(AclPlace::Default { op })
}

#[tactic(auto, unfolding(crate::specs::Names::whitelist_name))]
fn whitelist_place(name: &[u8]) -> Option<AclPlace>
    ensures { result ≡ whitelist_name name.now }
{
    let text = behind(b"whitelist.key.acl.", name)?;
    let op = key_op(text)?;
    Some(AclPlace::Whitelist { op })
}

/// Parses a key name before a dot and a name.
#[tactic(auto, unfolding(crate::specs::Names::key_before))]
fn key_before(name: &[u8], bytes: &[u8]) -> Option<KeyName>
    ensures { result ≡ key_before name.now bytes.now }
{
    let text = before(name, bytes)?;
    let key = before(b".", text)?;
    KeyName::read(key)
}

/// Parses `K.OP` for one operation.
#[tactic(auto, unfolding(crate::specs::Names::key_with))]
fn key_with(op: AclOp, bytes: &[u8]) -> Option<AclPlace>
    ensures { result ≡ key_with op bytes.now }
{
    let key = key_before(op.name().as_bytes(), bytes)?;
    Some(AclPlace::Key { key, op })
}

/// Parses `K.ALL`.
#[tactic(auto, unfolding(crate::specs::Names::key_all))]
fn key_all(bytes: &[u8]) -> Option<AclPlace>
    ensures { result ≡ key_all bytes.now }
{
    let key = key_before(b"ALL", bytes)?;
    Some(AclPlace::KeyAll { key })
}

/// Parses `K.OP` or `K.ALL`.
#[tactic(auto, unfolding(crate::specs::Names::key_place))]
fn key_and_op(bytes: &[u8]) -> Option<AclPlace>
    ensures { result ≡ key_place bytes.now }
{
    if let Some(place) = key_with(AclOp::Management, bytes) {
        return Some(place);
    }
    if let Some(place) = key_with(AclOp::GenerateEek, bytes) {
        return Some(place);
    }
    if let Some(place) = key_with(AclOp::DecryptEek, bytes) {
        return Some(place);
    }
    if let Some(place) = key_with(AclOp::Read, bytes) {
        return Some(place);
    }
    key_all(bytes)
}

#[tactic(auto, unfolding(crate::specs::Names::key_name))]
fn key_place(name: &[u8]) -> Option<AclPlace>
    ensures { result ≡ key_name name.now }
{
    let rest = behind(b"key.acl.", name)?;
    key_and_op(rest)
}

/// Returns the access control list that a name sets.
#[tactic(auto, unfolding(crate::specs::Names::acl_name))]
fn acl_place(name: &[u8]) -> Option<AclPlace>
    ensures { result ≡ acl_name name.now }
{
    if let Some(place) = service_place(name) {
        return Some(place);
    }
    if let Some(place) = blacklist_place(name) {
        return Some(place);
    }
    if let Some(place) = key_place(name) {
        return Some(place);
    }
    if let Some(place) = default_place(name) {
        return Some(place);
    }
    whitelist_place(name)
}

/// Returns whether a byte is neither a space nor a comma.
pub fn is_plain(byte: u8) -> bool
    ensures { result ≡ is_plain byte }
{
    byte != b' ' && byte != b','
}

/// Returns whether no byte is a space or a comma.
pub fn each_is_plain(bytes: &[u8]) -> bool
    ensures { result ≡ list_all is_plain bytes.now }
{
    bytes.iter().all(|byte| is_plain(*byte))
}

#[tactic(auto, unfolding(crate::specs::Names::is_group_name))]
fn is_group_name(bytes: &[u8]) -> bool
    ensures { result ≡ is_group_name bytes.now }
{
    let plain = each_is_plain(bytes);
    let len = bytes.len();
    0 < len && len <= 255 && plain
}

#[tactic(auto, unfolding(crate::specs::Names::group_name))]
fn group_setting(name: &[u8]) -> Option<Setting>
    ensures { result ≡ group_name name.now }
{
    let group = behind(b"group.", name)?;
    if is_group_name(group) {
        Some(Setting::Group)
    } else {
        None
    }
}

/// Returns the size that a name sets.
#[tactic(auto, unfolding(crate::specs::Names::size_name))]
fn size_name(name: &[u8]) -> Option<SizeName>
    ensures { result ≡ size_name name.now }
{
    if name == b"hkms.queue.size".as_slice() {
        return Some(SizeName::QueueSize);
    }
    if name == b"hkms.queue.watermark".as_slice() {
        return Some(SizeName::QueueWatermark);
    }
    if name == b"hkms.reencrypt.batch".as_slice() {
        return Some(SizeName::BatchSize);
    }
    if name == b"hkms.cache".as_slice() {
        return Some(SizeName::CacheSize);
    }
    None
}

/// Returns what a name sets, or `None` if the name is not known.
#[tactic(auto, unfolding(crate::specs::Names::setting_of))]
pub fn read_name(name: &[u8]) -> Option<Setting>
    ensures { result ≡ setting_of name.now }
{
    if let Some(place) = acl_place(name) {
        return Some(Setting::List { place });
    }
    if let Some(setting) = group_setting(name) {
        return Some(setting);
    }
    let which = size_name(name)?;
    Some(Setting::Size { which })
}
