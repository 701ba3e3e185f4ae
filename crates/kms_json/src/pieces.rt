//! The parts of a reply's text: values and members of objects.
ghost use Rattle.std.specs.Prelude.{[], ◌∷◌, OnOk};
ghost use Rattle.std.specs.Str.{IsAscii};
ghost use Rattle.json.specs.Token.{begin_array, begin_object, end_array, end_object, key};
ghost use Rattle.serde_json.specs.Data.{string};
ghost use Rattle.kms_calls.specs.Refusals.{refusal_text};
ghost use Rattle.kms_json.specs.Replies as spec;
ghost use Rattle.kms_json.specs.Writing.{AddsData, AddsMember, AddsTokens};

use base64::engine::general_purpose::URL_SAFE_NO_PAD;
use hk_base::{ByteList, KeyName, NoMemory, VersionName};
use json::Writer;
use kms_calls::KmsRefusal;
use std::alloc::Global;

pub(crate) fn open_object(out: &mut Writer) -> Result<(), NoMemory>
    ensures { OnOk result (AddsTokens (begin_object ∷ []) out.old out.new) }
{
    out.begin_object()?;
    Ok(())
}

pub(crate) fn close_object(out: &mut Writer) -> Result<(), NoMemory>
    ensures { OnOk result (AddsTokens (end_object ∷ []) out.old out.new) }
{
    out.end_object()?;
    Ok(())
}

pub(crate) fn open_array(out: &mut Writer) -> Result<(), NoMemory>
    ensures { OnOk result (AddsTokens (begin_array ∷ []) out.old out.new) }
{
    out.begin_array()?;
    Ok(())
}

pub(crate) fn close_array(out: &mut Writer) -> Result<(), NoMemory>
    ensures { OnOk result (AddsTokens (end_array ∷ []) out.old out.new) }
{
    out.end_array()?;
    Ok(())
}

/// Writes the name of a member. Its value must be written next.
pub(crate) fn write_key(name: &str, out: &mut Writer) -> Result<(), NoMemory>
    ensures { OnOk result (AddsTokens (key name.now ∷ []) out.old out.new) }
{
    out.key(name)?;
    Ok(())
}

pub(crate) fn write_text(text: &str, out: &mut Writer) -> Result<(), NoMemory>
    ensures { OnOk result (AddsData (string text.now) out.old out.new) }
{
    out.string(text)?;
    Ok(())
}

fn write_number(number: u64, out: &mut Writer) -> Result<(), NoMemory>
    ensures { OnOk result (AddsData (spec.number_data number) out.old out.new) }
{
    out.u64(number)?;
    Ok(())
}

fn write_bytes(alloc: Global, bytes: &[u8], out: &mut Writer) -> Result<(), NoMemory>
    ensures { OnOk result (AddsData (spec.bytes_data bytes.now) out.old out.new) }
{
    let text = URL_SAFE_NO_PAD.encode(alloc, bytes)?;
    write_text(text.as_str(), out)
}

fn write_ascii(bytes: &[u8], out: &mut Writer) -> Result<(), NoMemory>
    requires { IsAscii bytes.now }
    ensures { OnOk result (AddsData (string bytes.now) out.old out.new) }
{
    let text = str::from_utf8(bytes).unwrap();
    write_text(text, out)
}

pub(crate) fn write_name(name: &KeyName, out: &mut Writer) -> Result<(), NoMemory>
    ensures { OnOk result (AddsData (string name.now) out.old out.new) }
{
    write_ascii(name.as_bytes(), out)
}

fn write_version(alloc: Global, version: &VersionName, out: &mut Writer) -> Result<(), NoMemory>
    ensures { OnOk result (AddsData (spec.version_data version.now) out.old out.new) }
{
    // Reading both makes their bounds known: the name is a key's name, and the number is below 65,536.
    let _key = version.key.as_bytes();
    let _number = version.number;
    let mut text = ByteList::new(alloc);
    version.write(&mut text)?;
    write_ascii(text.as_slice(), out)
}

fn write_message(alloc: Global, why: &KmsRefusal, out: &mut Writer) -> Result<(), NoMemory>
    ensures { OnOk result (AddsData (string (refusal_text why.now)) out.old out.new) }
{
    let mut text = ByteList::new(alloc);
    why.write(&mut text)?;
    write_ascii(text.as_slice(), out)
}

pub(crate) fn text_member(name: &str, text: &str, out: &mut Writer) -> Result<(), NoMemory>
    ensures { OnOk result (AddsMember name.now (string text.now) out.old out.new) }
{
    write_key(name, out)?;
    write_text(text, out)
}

pub(crate) fn number_member(name: &str, number: u64, out: &mut Writer) -> Result<(), NoMemory>
    ensures { OnOk result (AddsMember name.now (spec.number_data number) out.old out.new) }
{
    write_key(name, out)?;
    write_number(number, out)
}

pub(crate) fn bytes_member(
    alloc: Global,
    name: &str,
    bytes: &[u8],
    out: &mut Writer,
) -> Result<(), NoMemory>
    ensures { OnOk result (AddsMember name.now (spec.bytes_data bytes.now) out.old out.new) }
{
    write_key(name, out)?;
    write_bytes(alloc, bytes, out)
}

pub(crate) fn name_member(name: &str, key: &KeyName, out: &mut Writer) -> Result<(), NoMemory>
    ensures { OnOk result (AddsMember name.now (string key.now) out.old out.new) }
{
    write_key(name, out)?;
    write_name(key, out)
}

pub(crate) fn version_member(
    alloc: Global,
    name: &str,
    version: &VersionName,
    out: &mut Writer,
) -> Result<(), NoMemory>
    ensures { OnOk result (AddsMember name.now (spec.version_data version.now) out.old out.new) }
{
    write_key(name, out)?;
    write_version(alloc, version, out)
}

pub(crate) fn message_member(
    alloc: Global,
    name: &str,
    why: &KmsRefusal,
    out: &mut Writer,
) -> Result<(), NoMemory>
    ensures { OnOk result (AddsMember name.now (string (refusal_text why.now)) out.old out.new) }
{
    write_key(name, out)?;
    write_message(alloc, why, out)
}
