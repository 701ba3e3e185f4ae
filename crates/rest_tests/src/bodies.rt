//! The faults of bodies. The responses to requests don't tell them apart.
use hk_base::{KeyName, VersionName};
use kms_json::{JsonFault, Member, read_batch, read_create, read_eek};
use std::alloc::Global;
use std::process::Abort;

/// A body, and its fault if it has one.
type Case = (&'static str, Option<JsonFault>);

const NOT_JSON: Option<JsonFault> = Some(JsonFault::NotJson);

const NO_NAME: Option<JsonFault> = Some(JsonFault::Missing(Member::Name));

const BAD_NAME: Option<JsonFault> = Some(JsonFault::BadValue(Member::Name));

const BAD_LENGTH: Option<JsonFault> = Some(JsonFault::BadValue(Member::Length));

/// Bodies that create a key.
const CREATE: &[Case] = &[
    ("", NOT_JSON),
    ("[]", NOT_JSON),
    ("\"k\"", NOT_JSON),
    ("{\"name\":\"k\"", NOT_JSON),
    ("{}", NO_NAME),
    ("{\"name\":null}", NO_NAME),
    ("{\"name\":1}", BAD_NAME),
    ("{\"name\":\"a b\"}", BAD_NAME),
    ("{\"length\":\"x\",\"name\":1}", BAD_NAME),
    (
        "{\"name\":\"k\",\"cipher\":\"AES\",\"length\":1.5}",
        Some(JsonFault::BadValue(Member::Cipher)),
    ),
    (
        "{\"name\":\"k\",\"description\":7,\"material\":\"!\"}",
        Some(JsonFault::BadBase64(Member::Material)),
    ),
    (
        "{\"name\":\"k\",\"material\":[]}",
        Some(JsonFault::BadValue(Member::Material)),
    ),
    (
        "{\"name\":\"k\",\"description\":7}",
        Some(JsonFault::BadValue(Member::Description)),
    ),
    ("{\"name\":\"k\",\"x\":[1]}", None),
    (
        " {\"name\":\"k\",\"cipher\":null,\"length\":null,\"material\":null,\"description\":null} ",
        None,
    ),
    ("{\"name\":\"k\",\"cipher\":\"AES/CTR/NoPadding\"}", None),
    ("{\"name\":1,\"name\":\"k\"}", None),
    ("{\"name\":\"k\",\"length\":18446744073709551615}", None),
    (
        "{\"name\":\"k\",\"length\":18446744073709551616}",
        BAD_LENGTH,
    ),
    ("{\"name\":\"k\",\"length\":128.0}", BAD_LENGTH),
    ("{\"name\":\"k\",\"length\":1e2}", BAD_LENGTH),
    ("{\"name\":\"k\",\"length\":-0}", BAD_LENGTH),
    ("{\"name\":\"k\",\"length\":-1}", BAD_LENGTH),
    ("{\"name\":\"k\",\"length\":\"128\"}", BAD_LENGTH),
    ("{\"name\":\"k\",\"length\":256,\"length\":null}", None),
    ("{\"name\":\"k\",\"length\":1e400}", NOT_JSON),
    ("{\"name\":\"k\",\"x\":1e400}", NOT_JSON),
    ("{\"name\":\"k\",\"length\":01}", NOT_JSON),
    ("{\"name\":\"k\",\"description\":\"\\ud83d\\ude00\"}", None),
    ("{\"name\":\"k\",\"description\":\"\\ud83d\"}", NOT_JSON),
    ("{\"name\":\"k\",\"x\":\"\\ude00\"}", NOT_JSON),
    ("{\"name\":\"k\",\"x\":\"\t\"}", NOT_JSON),
    ("{\"name\":\"k\",\"x\":\"\u{e4}\"}", None),
    ("{\"name\":\"k\"}{}", NOT_JSON),
];

/// Bodies with an encrypted key.
const EEK: &[Case] = &[
    ("[]", NOT_JSON),
    ("{\"iv\":1}", NO_NAME),
    ("{\"name\":\"k\"}", Some(JsonFault::Missing(Member::Iv))),
    (
        "{\"name\":\"k\",\"iv\":1,\"material\":2}",
        Some(JsonFault::BadValue(Member::Iv)),
    ),
    (
        "{\"name\":\"k\",\"iv\":\"AA\"}",
        Some(JsonFault::Missing(Member::Material)),
    ),
    (
        "{\"name\":\"k\",\"iv\":\"AA\",\"material\":\"A\"}",
        Some(JsonFault::BadBase64(Member::Material)),
    ),
    ("{\"name\":\"k\",\"iv\":\"AA\",\"material\":\"\"}", None),
];

/// Elements of a batch.
const ELEMENTS: &[Case] = &[
    ("null", Some(JsonFault::BadValue(Member::Element))),
    ("7", Some(JsonFault::BadValue(Member::Element))),
    ("{}", Some(JsonFault::Missing(Member::VersionName))),
    (
        "{\"versionName\":\"k\"}",
        Some(JsonFault::BadValue(Member::VersionName)),
    ),
    (
        "{\"versionName\":\"k@01\"}",
        Some(JsonFault::BadValue(Member::VersionName)),
    ),
    (
        "{\"versionName\":\"k@1\"}",
        Some(JsonFault::Missing(Member::Iv)),
    ),
    (
        "{\"versionName\":\"k@1\",\"iv\":\"AA\",\"encryptedKeyVersion\":\"EEK\"}",
        Some(JsonFault::BadValue(Member::EncryptedKeyVersion)),
    ),
    (
        "{\"versionName\":\"k@1\",\"iv\":\"AA\",\"encryptedKeyVersion\":{\"versionName\":\"EK\"}}",
        Some(JsonFault::BadValue(Member::VersionName)),
    ),
    (
        "{\"versionName\":\"k@1\",\"iv\":\"AA\",\"encryptedKeyVersion\":{\"versionName\":\"EEK\"}}",
        Some(JsonFault::Missing(Member::Material)),
    ),
    // The null after it is at fault.
    (SENT, Some(JsonFault::BadValue(Member::Element))),
];

const SENT: &str =
    "{\"versionName\":\"k@1\",\"iv\":\"AA\",\"encryptedKeyVersion\":{\"versionName\":\"EEK\",\"material\":\"AQI\"}}";

fn key(rt: &impl Abort) -> KeyName {
    KeyName::read(b"k").expect(rt, "a name")
}

fn create_fault(alloc: Global, body: &str) -> Option<JsonFault> {
    read_create(alloc, body.as_bytes()).err()
}

fn eek_fault(alloc: Global, version: VersionName, body: &str) -> Option<JsonFault> {
    read_eek(alloc, version, body.as_bytes()).err()
}

/// The fault of a batch: an element that has none, this one, and a null.
fn batch_fault(rt: &impl Abort, alloc: Global, element: &str) -> Option<JsonFault> {
    let body = format!(in alloc; "[{SENT},{element},null]").expect(rt, "memory");
    read_batch(alloc, key(rt), body.as_str().as_bytes()).err()
}

fn assert_fault(rt: &impl Abort, found: Option<JsonFault>, case: &Case) {
    let (body, wanted) = *case;
    assert_eq!(rt; found, wanted, "{body}");
}

#[test]
fn members_are_checked_in_order(rt: HostRuntime) {
    for case in CREATE {
        assert_fault(&rt, create_fault(rt.alloc(), case.0), case);
    }
}

#[test]
fn members_of_an_encrypted_key_are_checked_in_order(rt: HostRuntime) {
    let version = VersionName {
        key: key(&rt),
        number: 7,
    };
    for case in EEK {
        assert_fault(&rt, eek_fault(rt.alloc(), version, case.0), case);
    }
}

#[test]
fn elements_of_a_batch_are_checked_in_order(rt: HostRuntime) {
    for case in ELEMENTS {
        assert_fault(&rt, batch_fault(&rt, rt.alloc(), case.0), case);
    }
}
