//! Byte lists and texts.
use hk_base::{ByteList, NoMemory, Text};
use kms_calls::Description;
use std::process::Abort;

fn check_bytes(rt: &impl Abort, list: &ByteList, bytes: &[u8]) {
    assert_eq!(rt; list.as_slice(), bytes);
    assert_eq!(rt; list.len(), bytes.len());
    assert_eq!(rt; list.is_empty(), bytes.is_empty());
}

fn fill(rt: &impl Abort, list: &mut ByteList) {
    list.append(b"key").expect(rt, "memory");
    list.push(b'@').expect(rt, "memory");
    list.append(b"12").expect(rt, "memory");
}

#[test]
fn lists_grow_and_shrink(rt: HostRuntime) {
    let mut list = ByteList::new(rt.alloc());
    fill(&rt, &mut list);
    check_bytes(&rt, &list, b"key@12");
    list.truncate(3);
    check_bytes(&rt, &list, b"key");
    list.clear();
    check_bytes(&rt, &list, b"");
}

fn text_of(rt: &(impl Abort + AllocGlobal), bytes: &[u8]) -> Option<Text> {
    Text::from_utf8(bytes.to_vec(rt.alloc()).expect(rt, "memory"))
}

fn check_text(rt: &(impl Abort + AllocGlobal), bytes: &[u8], good: bool) {
    match text_of(rt, bytes) {
        Some(text) => assert_eq!(rt; text.as_str().as_bytes(), bytes),
        None => assert!(rt; !good, "{bytes:?}"),
    }
}

fn check_message(rt: &(impl Abort + AllocGlobal)) {
    let message = NoMemory.to_string(rt.alloc()).expect(rt, "memory");
    assert_eq!(rt; message.as_str(), "no memory");
}

#[test]
fn texts_are_utf8(rt: HostRuntime) {
    check_text(&rt, b"\xc3\xa4", true);
    check_text(&rt, b"", true);
    assert!(rt; text_of(&rt, b"\xc3").is_none());
    check_message(&rt);
}

/// The description with `len` letters, if that is not too long.
fn description(rt: &(impl Abort + AllocGlobal), len: usize) -> Option<Description> {
    let bytes = vec![in rt.alloc(); b'd'; len].expect(rt, "memory");
    let text = Text::from_utf8(bytes).expect(rt, "a text");
    Description::of(text)
}

fn check_copy(rt: &(impl Abort + AllocGlobal), description: &Description, len: usize) {
    let copy = description.copy(rt.alloc()).expect(rt, "memory");
    assert_eq!(rt; copy.as_text().as_str().len(), len);
}

#[test]
fn descriptions_have_65535_bytes_at_most(rt: HostRuntime) {
    let longest = description(&rt, 65535).expect(&rt, "a description");
    check_copy(&rt, &longest, 65535);
    assert!(rt; description(&rt, 65536).is_none());
    check_copy(&rt, &Description::empty(rt.alloc()), 0);
}
