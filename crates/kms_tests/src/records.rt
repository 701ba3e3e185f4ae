//! Records of the key log, written by hand from the format.
use hk_base::{ByteList, RecordFault};
use key_rows::KeyCommand;
use std::process::Abort;

const OPENED: &[u8] = &[1, 0, 0, 1, 2];

const CREATED_128: &[u8] = &[
    2, 0, 0, 0, 1, 0, 0, 0, 7, 1, b'k', 0, 128, 0, 2, 0xc3, 0xa4, 0, 0, 1, 2, 3, 4, 5, 6, 1, 1, 1,
    1, 1, 1, 1, 1, 1, 1, 1, 1, 1, 1, 1, 1,
];

const CREATED_192: &[u8] = &[
    2, 0, 0, 0, 1, 0, 0, 0, 7, 1, b'k', 0, 192, 0, 0, 0, 0, 1, 2, 3, 4, 5, 6, 2, 2, 2, 2, 2, 2, 2,
    2, 2, 2, 2, 2, 2, 2, 2, 2, 2, 2, 2, 2, 2, 2, 2, 2,
];

const CREATED_256: &[u8] = &[
    2, 0, 0, 0, 1, 0, 0, 0, 7, 3, b'a', b'.', b'b', 1, 0, 0, 0, 0, 0, 1, 2, 3, 4, 5, 6, 3, 3, 3, 3,
    3, 3, 3, 3, 3, 3, 3, 3, 3, 3, 3, 3, 3, 3, 3, 3, 3, 3, 3, 3, 3, 3, 3, 3, 3, 3, 3, 3,
];

const ROLLED: &[u8] = &[
    3, 0, 0, 0, 1, 0, 0, 0, 7, 1, 2, 4, 4, 4, 4, 4, 4, 4, 4, 4, 4, 4, 4, 4, 4, 4, 4,
];

const DELETED: &[u8] = &[4, 0, 0, 0, 1, 0, 0, 0, 7];

const RECORDS: &[&[u8]] = &[
    OPENED,
    CREATED_128,
    CREATED_192,
    CREATED_256,
    ROLLED,
    DELETED,
];

/// The record written again, or `None` if the bytes are not a record.
#[tactic(auto, using(crate::proofs::RecordLemmas::can_be_written))]
fn rewritten(rt: &(impl Abort + AllocGlobal), bytes: &[u8]) -> Option<ByteList> {
    let mut out = ByteList::new(rt.alloc());
    match KeyCommand::read(rt.alloc(), bytes) {
        Ok(command) => command.write(&mut out).expect(rt, "memory"),
        Err(fault) => {
            assert_eq!(rt; fault, RecordFault::NoRecord);
            return None;
        }
    }
    Some(out)
}

fn check_record(rt: &(impl Abort + AllocGlobal), record: &[u8]) {
    let out = rewritten(rt, record).expect(rt, "a record");
    assert_eq!(rt; out.as_slice(), record);
}

fn check_none(rt: &(impl Abort + AllocGlobal), bytes: &[u8]) {
    assert!(rt; rewritten(rt, bytes).is_none(), "{bytes:?}");
}

/// A record with a byte too many is not a record.
fn check_longer(rt: &(impl Abort + AllocGlobal), record: &[u8]) {
    let mut bytes = record.to_vec(rt.alloc()).expect(rt, "memory");
    bytes.push(0).expect(rt, "memory");
    check_none(rt, &bytes);
}

fn check_shorter(rt: &(impl Abort + AllocGlobal), record: &[u8]) {
    for len in 0..record.len() {
        check_none(rt, &record[..len]);
    }
}

/// Each record is written as it is read, and no record with a byte less or more.
#[test]
fn records_are_written_as_they_are_read(rt: HostRuntime) {
    for record in RECORDS {
        check_record(&rt, record);
        check_longer(&rt, record);
        check_shorter(&rt, record);
    }
}
