//! The forms of names, versions and numbers.
use hk_base::{ByteList, Dek, Iv, KeyName, VersionName, read_number};
use std::process::Abort;

/// Bytes, and whether they have the form that is read.
struct Form {
    bytes: &'static [u8],
    good: bool,
}

const NAMES: &[Form] = &[
    Form {
        bytes: b"k",
        good: true,
    },
    Form {
        bytes: b"Key_1.a-b",
        good: true,
    },
    Form {
        bytes: b"kkkkkkkkkkkkkkkkkkkkkkkkkkkkkkkkkkkkkkkkkkkkkkkkkkkkkkkkkkkkkkkk",
        good: true,
    },
    Form {
        bytes: b"kkkkkkkkkkkkkkkkkkkkkkkkkkkkkkkkkkkkkkkkkkkkkkkkkkkkkkkkkkkkkkkkk",
        good: false,
    },
    Form {
        bytes: b"",
        good: false,
    },
    Form {
        bytes: b"a@b",
        good: false,
    },
    Form {
        bytes: b"a b",
        good: false,
    },
    Form {
        bytes: b"a/b",
        good: false,
    },
    Form {
        bytes: b"\xc3\xa4",
        good: false,
    },
];

const VERSIONS: &[Form] = &[
    Form {
        bytes: b"k@0",
        good: true,
    },
    Form {
        bytes: b"Key.1@65535",
        good: true,
    },
    Form {
        bytes: b"k@65536",
        good: false,
    },
    Form {
        bytes: b"k@07",
        good: false,
    },
    Form {
        bytes: b"k@+7",
        good: false,
    },
    Form {
        bytes: b"k@",
        good: false,
    },
    Form {
        bytes: b"@1",
        good: false,
    },
    Form {
        bytes: b"k",
        good: false,
    },
    Form {
        bytes: b"k@1@2",
        good: false,
    },
];

/// A text, and the number that it spells, if it spells one.
struct Spelling {
    text: &'static [u8],
    number: Option<u64>,
}

const NUMBERS: &[Spelling] = &[
    Spelling {
        text: b"0",
        number: Some(0),
    },
    Spelling {
        text: b"7",
        number: Some(7),
    },
    Spelling {
        text: b"65536",
        number: Some(65536),
    },
    Spelling {
        text: b"18446744073709551615",
        number: Some(18446744073709551615),
    },
    Spelling {
        text: b"18446744073709551616",
        number: None,
    },
    Spelling {
        text: b"007",
        number: None,
    },
    Spelling {
        text: b"+7",
        number: None,
    },
    Spelling {
        text: b"-7",
        number: None,
    },
    Spelling {
        text: b"7 ",
        number: None,
    },
    Spelling {
        text: b"",
        number: None,
    },
    Spelling {
        text: b"\xff",
        number: None,
    },
];

fn check_name(rt: &impl Abort, form: &Form) {
    match KeyName::read(form.bytes) {
        Some(name) => assert_eq!(rt; name.as_bytes(), form.bytes),
        None => assert!(rt; !form.good, "{:?}", form.bytes),
    }
}

fn is_name(form: &Form) -> bool {
    KeyName::read(form.bytes).is_some()
}

/// A name is read exactly if it has the form, and keeps its bytes.
#[test]
fn key_names(rt: HostRuntime) {
    for form in NAMES {
        check_name(&rt, form);
        assert_eq!(rt; is_name(form), form.good);
    }
}

fn rewritten(rt: &(impl Abort + AllocGlobal), version: &VersionName) -> ByteList {
    let mut out = ByteList::new(rt.alloc());
    version.write(&mut out).expect(rt, "memory");
    out
}

fn check_version(rt: &(impl Abort + AllocGlobal), form: &Form) {
    match VersionName::read(form.bytes) {
        Some(version) => {
            assert_eq!(rt; rewritten(rt, &version).as_slice(), form.bytes);
            assert!(rt; form.good);
        }
        None => assert!(rt; !form.good, "{:?}", form.bytes),
    }
}

/// A version is written as it is read, and no other bytes are read.
#[test]
fn versions(rt: HostRuntime) {
    for form in VERSIONS {
        check_version(&rt, form);
    }
}

fn check_number(rt: &impl Abort, spelling: &Spelling) {
    let number = read_number(spelling.text);
    assert_eq!(rt; number, spelling.number, "{:?}", spelling.text);
}

#[test]
fn numbers(rt: HostRuntime) {
    for spelling in NUMBERS {
        check_number(&rt, spelling);
    }
}

fn check_lengths(rt: &impl Abort, bytes: &[u8]) {
    let len = bytes.len();
    let is_key = len == 16 || len == 24 || len == 32;
    assert_eq!(rt; Dek::read(bytes).is_some(), is_key, "{len} bytes");
    assert_eq!(rt; Iv::read(bytes).is_some(), len == 16, "{len} bytes");
}

#[test]
fn lengths_of_keys_and_vectors(rt: HostRuntime) {
    let bytes = [7u8; 40];
    for len in 0..40usize {
        check_lengths(&rt, &bytes[..len]);
    }
}
