//! The lists and texts of the calls and replies of the key management service.
use hk_base::{ByteList, Dek, Edek, Iv, KeyName, VersionName};
use kms_calls::{
    AclOp, AclTable, Description, EdekList, KeyMeta, KeyVersion, KmsRefusal, MetaList, RawEdek,
    RawEdekList, VersionList,
};
use std::alloc::Global;
use std::process::Abort;

/// The operations by their names in the properties of the Hadoop KMS.
const OPERATIONS: [(AclOp, &str); 11] = [
    (AclOp::Create, "CREATE"),
    (AclOp::Delete, "DELETE"),
    (AclOp::Rollover, "ROLLOVER"),
    (AclOp::Get, "GET"),
    (AclOp::GetKeys, "GET_KEYS"),
    (AclOp::GetMetadata, "GET_METADATA"),
    (AclOp::SetKeyMaterial, "SET_KEY_MATERIAL"),
    (AclOp::GenerateEek, "GENERATE_EEK"),
    (AclOp::DecryptEek, "DECRYPT_EEK"),
    (AclOp::Management, "MANAGEMENT"),
    (AclOp::Read, "READ"),
];

/// Refusals by their texts.
const REFUSALS: [(KmsRefusal, &str); 3] = [
    (
        KmsRefusal::Denied {
            table: AclTable::ServiceBlacklist,
            op: AclOp::DecryptEek,
        },
        "K3 Denied ServiceBlacklist DECRYPT_EEK",
    ),
    (KmsRefusal::BadRequest, "K1 BadRequest"),
    (KmsRefusal::StoreFault, "K14 StoreFault"),
];

fn has_name(rt: &impl Abort, op: AclOp, name: &str) {
    assert_eq!(rt; op.name(), name);
}

#[test]
fn operations_have_their_names(rt: HostRuntime) {
    for (op, name) in OPERATIONS {
        has_name(&rt, op, name);
    }
}

fn has_text(rt: &impl Abort, alloc: Global, why: KmsRefusal, text: &str) {
    let mut out = ByteList::new(alloc);
    why.write(&mut out).expect(rt, "memory");
    assert_eq!(rt; out.as_slice(), text.as_bytes());
}

#[test]
fn refusals_have_their_texts(rt: HostRuntime) {
    for (why, text) in REFUSALS {
        has_text(&rt, rt.alloc(), why, text);
    }
}

fn version(rt: &impl Abort, number: u16) -> VersionName {
    let key = KeyName::read(b"k").expect(rt, "a name");
    VersionName { key, number }
}

fn list_of_metadata(rt: &impl Abort, alloc: Global) -> MetaList {
    let mut metas = MetaList::with_room(alloc, 1).expect(rt, "memory");
    let known = KeyMeta {
        name: KeyName::read(b"k").expect(rt, "a name"),
        bits: 192,
        description: Description::empty(alloc),
        created: 7,
        versions: 2,
    };
    metas.push(known).expect(rt, "memory");
    metas
}

fn has_the_metadata(rt: &impl Abort, metas: &MetaList) {
    assert_eq!(rt; metas.len(), 1);
    assert_eq!(rt; metas.as_slice()[0].bits, 192);
}

#[test]
fn metadata_is_added_at_the_end(rt: HostRuntime) {
    let metas = list_of_metadata(&rt, rt.alloc());
    has_the_metadata(&rt, &metas);
}

fn list_of_sent_keys(rt: &impl Abort, alloc: Global) -> RawEdekList {
    let mut edeks = RawEdekList::with_room(alloc, 1).expect(rt, "memory");
    let edek = RawEdek {
        version: version(rt, 3),
        iv: ByteList::new(alloc),
        sealed: ByteList::new(alloc),
    };
    edeks.push(edek).expect(rt, "memory");
    edeks
}

fn has_the_sent_key(rt: &impl Abort, edeks: &RawEdekList) {
    assert_eq!(rt; edeks.len(), 1);
    assert!(rt; edeks.as_slice()[0].iv.as_slice().is_empty());
}

#[test]
fn sent_keys_are_added_at_the_end(rt: HostRuntime) {
    let edeks = list_of_sent_keys(&rt, rt.alloc());
    has_the_sent_key(&rt, &edeks);
}

fn hidden_version(rt: &impl Abort) -> KeyVersion {
    KeyVersion {
        version: version(rt, 0),
        material: None,
    }
}

fn shown_version(rt: &impl Abort) -> KeyVersion {
    KeyVersion {
        version: version(rt, 1),
        material: Some(Dek::of(&[1; 16])),
    }
}

fn list_of_versions(rt: &impl Abort, alloc: Global) -> VersionList {
    let mut versions = VersionList::with_room(alloc, 1).expect(rt, "memory");
    versions.push(hidden_version(rt)).expect(rt, "memory");
    versions.push(shown_version(rt)).expect(rt, "memory");
    versions
}

fn has_both_versions(rt: &impl Abort, versions: &VersionList) {
    assert_eq!(rt; versions.len(), 2);
    assert!(rt; versions.as_slice()[0] == hidden_version(rt));
    assert!(rt; versions.as_slice()[1] == shown_version(rt));
}

#[test]
fn versions_are_added_at_the_end(rt: HostRuntime) {
    let versions = list_of_versions(&rt, rt.alloc());
    has_both_versions(&rt, &versions);
}

fn sealed_key(rt: &impl Abort) -> Edek {
    Edek {
        version: version(rt, 3),
        iv: Iv([9; 16]),
        sealed: Dek::of(&[1; 16]),
    }
}

fn list_of_sealed_keys(rt: &impl Abort, alloc: Global) -> EdekList {
    let mut edeks = EdekList::with_room(alloc, 1).expect(rt, "memory");
    edeks.push(sealed_key(rt)).expect(rt, "memory");
    edeks.push(sealed_key(rt)).expect(rt, "memory");
    edeks
}

fn has_both_sealed_keys(rt: &impl Abort, edeks: &EdekList) {
    assert_eq!(rt; edeks.len(), 2);
    assert!(rt; edeks.as_slice()[1] == sealed_key(rt));
}

#[test]
fn sealed_keys_are_added_at_the_end(rt: HostRuntime) {
    let edeks = list_of_sealed_keys(&rt, rt.alloc());
    has_both_sealed_keys(&rt, &edeks);
}
