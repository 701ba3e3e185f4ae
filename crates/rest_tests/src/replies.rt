//! Replies that no request can get at will: at limits, at a given time, and without material.
use hk_base::{KeyName, Text, VersionName};
use kms_calls::{Description, KeyMeta, KeyVersion, KmsReply, MetaList, VersionList};
use kms_json::write_reply;
use std::alloc::Global;
use std::process::Abort;

fn assert_written(rt: &impl Abort, alloc: Global, reply: &KmsReply, text: &str) {
    let found = write_reply(alloc, reply).expect(rt, "memory");
    assert_eq!(rt; found.as_slice(), text.as_bytes());
}

fn version(rt: &impl Abort, number: u16) -> VersionName {
    let key = KeyName::read(b"k").expect(rt, "a name");
    VersionName { key, number }
}

fn hidden(rt: &impl Abort, number: u16) -> KmsReply {
    KmsReply::Version {
        version: version(rt, number),
        material: None,
    }
}

/// Both versions of a key without their material.
fn hidden_versions(rt: &impl Abort, alloc: Global) -> KmsReply {
    let mut versions = VersionList::with_room(alloc, 2).expect(rt, "memory");
    for number in 0..2 {
        let row = KeyVersion {
            version: version(rt, number),
            material: None,
        };
        versions.push(row).expect(rt, "memory");
    }
    KmsReply::Versions(versions)
}

#[test]
fn versions_without_material(rt: HostRuntime) {
    let alloc = rt.alloc();
    assert_written(&rt, alloc, &hidden(&rt, 65535), "{\"name\":\"k@65535\"}");
    let versions = hidden_versions(&rt, alloc);
    let text = "[{\"name\":\"k@0\"},{\"name\":\"k@1\"}]";
    assert_written(&rt, alloc, &versions, text);
}

/// The metadata of a key that was created at the last moment that has a number.
fn meta(rt: &impl Abort, alloc: Global, description: &str) -> KeyMeta {
    let text = String::from_str(alloc, description).expect(rt, "memory");
    KeyMeta {
        name: KeyName::read(b"k").expect(rt, "a name"),
        bits: 192,
        description: Description::of(Text::of(text)).expect(rt, "a description"),
        created: 18446744073709551615,
        versions: 2,
    }
}

fn metadatas(rt: &impl Abort, alloc: Global) -> KmsReply {
    let mut metas = MetaList::with_room(alloc, 1).expect(rt, "memory");
    metas.push(meta(rt, alloc, "")).expect(rt, "memory");
    KmsReply::Metadatas(metas)
}

#[test]
fn descriptions_are_escaped_and_times_are_numbers(rt: HostRuntime) {
    let alloc = rt.alloc();
    let one = KmsReply::Metadata(meta(&rt, alloc, "a\"b\\c\n\u{1}/\u{7f}\u{e4}"));
    let text =
        "{\"cipher\":\"AES/CTR/NoPadding\",\"created\":18446744073709551615,\"description\":\"a\\\"b\\\\c\\n\\u0001/\u{7f}\u{e4}\",\"length\":192,\"name\":\"k\",\"versions\":2}";
    assert_written(&rt, alloc, &one, text);
    let list =
        "[{\"cipher\":\"AES/CTR/NoPadding\",\"created\":18446744073709551615,\"description\":\"\",\"length\":192,\"name\":\"k\",\"versions\":2}]";
    assert_written(&rt, alloc, &metadatas(&rt, alloc), list);
}
