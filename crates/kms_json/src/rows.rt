//! The objects of a reply and arrays of them.
ghost use Rattle.std.specs.Prelude.{◌≡◌, OnOk, codes};
ghost use Rattle.serde_json.specs.Data.{string};
ghost use Rattle.kms_json.specs.Replies as spec;
ghost use Rattle.kms_json.specs.Writing.{AddsData, AddsMember};

use crate::pieces::{
    bytes_member, close_array, close_object, message_member, name_member, number_member,
    open_array, open_object, text_member, version_member, write_key, write_name,
};
use hk_base::{Dek, Edek, NoMemory, VersionName};
use json::Writer;
use kms_calls::{EdekList, KeyMeta, KmsRefusal, MetaList, NameList, VersionList};
use std::alloc::Global;

fn write_bare(alloc: Global, version: &VersionName, out: &mut Writer) -> Result<(), NoMemory>
    ensures { OnOk result (AddsData (spec.shown_data version.now None) out.old out.new) }
{
    open_object(out)?;
    version_member(alloc, "name", version, out)?;
    close_object(out)
}

fn write_with_material(
    alloc: Global,
    version: &VersionName,
    material: &Dek,
    out: &mut Writer,
) -> Result<(), NoMemory>
    ensures { OnOk result
        (AddsData (spec.shown_data version.now (Some material.now)) out.old out.new) }
{
    open_object(out)?;
    bytes_member(alloc, "material", material.as_bytes(), out)?;
    version_member(alloc, "name", version, out)?;
    close_object(out)
}

pub(crate) fn write_shown(
    alloc: Global,
    version: &VersionName,
    material: &Option<Dek>,
    out: &mut Writer,
) -> Result<(), NoMemory>
    ensures { OnOk result (AddsData (spec.shown_data version.now material.now) out.old out.new) }
{
    match material {
        None => write_bare(alloc, version, out),
        Some(material) => write_with_material(alloc, version, material, out),
    }
}

fn write_sealed(alloc: Global, sealed: &Dek, out: &mut Writer) -> Result<(), NoMemory>
    ensures { OnOk result
        (AddsMember (codes "encryptedKeyVersion") (spec.sealed_data sealed.now) out.old out.new) }
{
    write_key("encryptedKeyVersion", out)?;
    open_object(out)?;
    bytes_member(alloc, "material", sealed.as_bytes(), out)?;
    text_member("versionName", "EEK", out)?;
    close_object(out)
}

pub(crate) fn write_edek(alloc: Global, edek: &Edek, out: &mut Writer) -> Result<(), NoMemory>
    ensures { OnOk result (AddsData (spec.edek_data edek.now) out.old out.new) }
{
    open_object(out)?;
    write_sealed(alloc, &edek.sealed, out)?;
    bytes_member(alloc, "iv", edek.iv.as_bytes(), out)?;
    version_member(alloc, "versionName", &edek.version, out)?;
    close_object(out)
}

pub(crate) fn write_opened(alloc: Global, key: &Dek, out: &mut Writer) -> Result<(), NoMemory>
    ensures { OnOk result (AddsData (spec.key_data key.now) out.old out.new) }
{
    open_object(out)?;
    bytes_member(alloc, "material", key.as_bytes(), out)?;
    text_member("name", "EK", out)?;
    close_object(out)
}

pub(crate) fn write_meta(meta: &KeyMeta, out: &mut Writer) -> Result<(), NoMemory>
    ensures { OnOk result (AddsData (spec.meta_data meta.now) out.old out.new) }
{
    open_object(out)?;
    text_member("cipher", "AES/CTR/NoPadding", out)?;
    number_member("created", meta.created, out)?;
    text_member("description", meta.description.as_text().as_str(), out)?;
    number_member("length", meta.bits as u64, out)?;
    name_member("name", &meta.name, out)?;
    number_member("versions", meta.versions as u64, out)?;
    close_object(out)
}

fn refusal_name(why: &KmsRefusal) -> &'static str
    ensures { result.now ≡ spec.refusal_name why.now }
{
    match why {
        KmsRefusal::BadRequest => "BadRequest",
        KmsRefusal::NoUser => "NoUser",
        KmsRefusal::Denied { .. } => "Denied",
        KmsRefusal::NoSuchKey => "NoSuchKey",
        KmsRefusal::NoSuchVersion => "NoSuchVersion",
        KmsRefusal::KeyExists => "KeyExists",
        KmsRefusal::WrongKey => "WrongKey",
        KmsRefusal::BadMaterial => "BadMaterial",
        KmsRefusal::BadLength => "BadLength",
        KmsRefusal::TooManyKeys => "TooManyKeys",
        KmsRefusal::TooManyVersions => "TooManyVersions",
        KmsRefusal::TooManyAsked => "TooManyAsked",
        KmsRefusal::NoMemory => "NoMemory",
        KmsRefusal::StoreFault => "StoreFault",
    }
}

pub(crate) fn write_refusal(
    alloc: Global,
    why: &KmsRefusal,
    out: &mut Writer,
) -> Result<(), NoMemory>
    ensures { OnOk result (AddsData (spec.refusal_data why.now) out.old out.new) }
{
    open_object(out)?;
    write_key("RemoteException", out)?;
    write_exception(alloc, why, out)?;
    close_object(out)
}

fn write_exception(alloc: Global, why: &KmsRefusal, out: &mut Writer) -> Result<(), NoMemory>
    ensures { OnOk result (AddsData (spec.exception_data why.now) out.old out.new) }
{
    open_object(out)?;
    text_member("exception", refusal_name(why), out)?;
    message_member(alloc, "message", why, out)?;
    close_object(out)
}

pub(crate) fn write_names(names: &NameList, out: &mut Writer) -> Result<(), NoMemory>
    ensures { OnOk result (AddsData (spec.list_data string names.now) out.old out.new) }
{
    open_array(out)?;
    for name in names.as_slice() {
        write_name(name, out)?;
    }
    close_array(out)
}

pub(crate) fn write_metas(metas: &MetaList, out: &mut Writer) -> Result<(), NoMemory>
    ensures { OnOk result (AddsData (spec.list_data spec.meta_data metas.now) out.old out.new) }
{
    open_array(out)?;
    for meta in metas.as_slice() {
        write_meta(meta, out)?;
    }
    close_array(out)
}

pub(crate) fn write_versions(
    alloc: Global,
    versions: &VersionList,
    out: &mut Writer,
) -> Result<(), NoMemory>
    ensures { OnOk result (AddsData (spec.list_data spec.row_data versions.now) out.old out.new) }
{
    open_array(out)?;
    for row in versions.as_slice() {
        write_shown(alloc, &row.version, &row.material, out)?;
    }
    close_array(out)
}

pub(crate) fn write_edeks(alloc: Global, edeks: &EdekList, out: &mut Writer) -> Result<(), NoMemory>
    ensures { OnOk result (AddsData (spec.list_data spec.edek_data edeks.now) out.old out.new) }
{
    open_array(out)?;
    for edek in edeks.as_slice() {
        write_edek(alloc, edek, out)?;
    }
    close_array(out)
}
