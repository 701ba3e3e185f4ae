//! Texts of properties at the limits of the grammar, which fault comes first, and the sizes.
use prop_text::{PropFault, Sizes, read_props};
use std::process::Abort;

const BAD_1: Option<PropFault> = Some(PropFault::BadLine { number: 1 });

const UNKNOWN_1: Option<PropFault> = Some(PropFault::UnknownName { number: 1 });

/// A text, and the fault that it is refused for, if it is.
struct Case {
    text: &'static [u8],
    fault: Option<PropFault>,
}

const CASES: &[Case] = &[
    Case {
        text: b"hadoop.kms.acl.GET=a  b",
        fault: BAD_1,
    },
    Case {
        text: b"hadoop.kms.acl.GET=a b c",
        fault: BAD_1,
    },
    Case {
        text: b"hadoop.kms.acl.GET=a,,b",
        fault: BAD_1,
    },
    Case {
        text: b"hadoop.kms.acl.GET=a, b",
        fault: BAD_1,
    },
    Case {
        text: b"hadoop.kms.acl.GET=,",
        fault: BAD_1,
    },
    Case {
        text: b"hadoop.kms.acl.GET=a b,",
        fault: BAD_1,
    },
    Case {
        text: b"hadoop.kms.acl.GET=\xff",
        fault: BAD_1,
    },
    Case {
        text: b"group.\xff=a",
        fault: BAD_1,
    },
    Case {
        text: b"group.g=a b",
        fault: BAD_1,
    },
    Case {
        text: b"hadoop.kms.acl.GET",
        fault: BAD_1,
    },
    Case {
        text: b"=a",
        fault: UNKNOWN_1,
    },
    Case {
        text: b" hadoop.kms.acl.GET=a",
        fault: UNKNOWN_1,
    },
    Case {
        text: b"hadoop.kms.acl.READ=a",
        fault: UNKNOWN_1,
    },
    Case {
        text: b"hadoop.kms.acl.get=a",
        fault: UNKNOWN_1,
    },
    Case {
        text: b"key.acl.READ=a",
        fault: UNKNOWN_1,
    },
    Case {
        text: b"key.acl..READ=a",
        fault: UNKNOWN_1,
    },
    Case {
        text: b"key.acl.k.CREATE=a",
        fault: UNKNOWN_1,
    },
    Case {
        text: b"default.key.acl.ALL=a",
        fault: UNKNOWN_1,
    },
    Case {
        text: b"group.=a",
        fault: UNKNOWN_1,
    },
    Case {
        text: b"group.a b=a",
        fault: UNKNOWN_1,
    },
    Case {
        text: b"hkms.queue=1",
        fault: UNKNOWN_1,
    },
    Case {
        text: b"hkms.queue.size=1",
        fault: None,
    },
    Case {
        text: b"hkms.queue.size=10000",
        fault: None,
    },
    Case {
        text: b"hkms.queue.size=10001",
        fault: BAD_1,
    },
    Case {
        text: b"hkms.queue.size=0",
        fault: BAD_1,
    },
    Case {
        text: b"hkms.queue.watermark=10000",
        fault: None,
    },
    Case {
        text: b"hkms.queue.watermark=10001",
        fault: BAD_1,
    },
    Case {
        text: b"hkms.reencrypt.batch=1000",
        fault: None,
    },
    Case {
        text: b"hkms.reencrypt.batch=1001",
        fault: BAD_1,
    },
    Case {
        text: b"hkms.cache=65535",
        fault: None,
    },
    Case {
        text: b"hkms.cache=65536",
        fault: BAD_1,
    },
    Case {
        text: b"hkms.cache=07",
        fault: BAD_1,
    },
    Case {
        text: b"hkms.cache=",
        fault: BAD_1,
    },
    Case {
        text: b"hkms.cache=7\r",
        fault: BAD_1,
    },
    Case {
        text: b"hkms.cache=7\r\r\n",
        fault: BAD_1,
    },
    Case {
        text: b"hkms.cache=1\nx=1\nx=1",
        fault: Some(PropFault::UnknownName { number: 2 }),
    },
    Case {
        text: b"hkms.cache=1\n#\nhkms.cache=0",
        fault: Some(PropFault::Repeated { number: 3 }),
    },
    Case {
        text: b"hkms.cache=0\nhkms.cache=0",
        fault: BAD_1,
    },
    Case {
        text: b"hkms.cache=1\nhkms.cache",
        fault: Some(PropFault::BadLine { number: 2 }),
    },
];

fn check(rt: &(impl Abort + AllocGlobal), text: &[u8], fault: Option<PropFault>) {
    let found = read_props(rt.alloc(), text).err();
    assert_eq!(rt; found, fault, "{text:?}");
}

#[test]
fn texts_and_their_faults(rt: HostRuntime) {
    for case in CASES {
        check(&rt, case.text, case.fault);
    }
}

/// A text of many lines, and the sizes that it sets.
struct Setting {
    text: &'static [u8],
    lines: usize,
    queue: u16,
    watermark: u16,
    batch: u16,
    cache: u16,
}

const SETTINGS: &[Setting] = &[
    Setting {
        text: b"",
        lines: 0,
        queue: 500,
        watermark: 150,
        batch: 1000,
        cache: 1000,
    },
    Setting {
        text: b"# a comment\r\n\r\nhkms.cache=7\r\nhkms.queue.size=8\n\nhkms.reencrypt.batch=9",
        lines: 3,
        queue: 8,
        watermark: 150,
        batch: 9,
        cache: 7,
    },
    Setting {
        text: b"hkms.queue.watermark=6\n",
        lines: 1,
        queue: 500,
        watermark: 6,
        batch: 1000,
        cache: 1000,
    },
];

fn check_sizes(rt: &impl Abort, sizes: &Sizes, setting: &Setting) {
    assert_eq!(rt; sizes.queue, setting.queue);
    assert_eq!(rt; sizes.watermark, setting.watermark);
    assert_eq!(rt; sizes.batch, setting.batch);
    assert_eq!(rt; sizes.cache, setting.cache);
}

fn check_setting(rt: &(impl Abort + AllocGlobal), setting: &Setting) {
    let props = read_props(rt.alloc(), setting.text).expect(rt, "properties");
    assert_eq!(rt; props.lines.as_slice().len(), setting.lines);
    check_sizes(rt, &props.sizes, setting);
}

#[test]
fn sizes_are_set_or_have_their_defaults(rt: HostRuntime) {
    for setting in SETTINGS {
        check_setting(&rt, setting);
    }
}

/// A line that lists a user with a name of `len` letters.
fn line_with_name(rt: &(impl Abort + AllocGlobal), len: usize) -> Vec<u8> {
    let mut text = b"hadoop.kms.acl.GET="
        .to_vec(rt.alloc())
        .expect(rt, "memory");
    for _ in 0..len {
        text.push(b'a').expect(rt, "memory");
    }
    text
}

#[test]
fn names_have_255_bytes_at_most(rt: HostRuntime) {
    check(&rt, &line_with_name(&rt, 255), None);
    check(&rt, &line_with_name(&rt, 256), BAD_1);
}
