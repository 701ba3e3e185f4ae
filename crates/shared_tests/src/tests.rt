//! The tests.
use crate::cases::{Case, Outcome};
use crate::cells::{Left, run};
use crate::gates::Change;
use crate::services::Disks;
use crate::zones::OpenedFile;
use name_calls::Delivered;
use std::process::Abort;
use std::sync::Wait;

/// Runs a case over empty disks, and drops these afterwards.
fn outcome_of<R: Wait + Abort + AllocGlobal>(rt: &R, case: Case) -> Outcome {
    let Left { outcome, disks } = run(rt, Disks::empty(rt), 1, case);
    drop(disks);
    outcome
}

/// The encrypted key of a file is of this version. It is the one that the file had before, which is of
/// version 0, or opens to the same key.
fn check_file(rt: &impl Abort, file: &OpenedFile, before: &OpenedFile, number: u16) {
    assert!(rt; file.edek.version.number == number);
    assert!(rt; before.edek.version.number == 0);
    assert!(rt; file.dek == before.dek);
    assert!(rt; number > 0 || file.edek == before.edek);
}

/// The encrypted keys of the first `count` files are of this version, and no other file is left.
fn check_files(
    rt: &impl Abort,
    files: &[OpenedFile],
    before: &[OpenedFile],
    count: usize,
    number: u16,
) {
    assert_eq!(rt; files.len(), count);
    for (file, before) in files.iter().zip(before) {
        check_file(rt, file, before, number);
    }
}

/// The deliveries were answered so, and the files at the end are as `check_files` says.
fn check(
    rt: &impl Abort,
    outcome: &Outcome,
    answers: [Option<Delivered>; 2],
    count: usize,
    number: u16,
) {
    assert_eq!(rt; outcome.answers, answers);
    let files = outcome.after.files.as_slice();
    check_files(rt, files, outcome.before.files.as_slice(), count, number);
}

/// The answer if these files got other keys, these were skipped, and none failed.
fn applied(changed: u32, skipped: u32) -> Option<Delivered> {
    Some(Delivered::Applied {
        changed,
        skipped,
        failed: 0,
    })
}

fn ignored(session: u64) -> Option<Delivered> {
    Some(Delivered::Ignored { session })
}

#[test]
fn a_delivery_waits_while_the_key_is_rolled(rt: HostRuntime) {
    let outcome = outcome_of(&rt, Case::Changed(Change::RollKey));
    check(&rt, &outcome, [applied(3, 0), None], 3, 1);
    assert_eq!(rt; outcome.current, 2);
    drop(outcome);
}

#[test]
fn a_delivery_waits_while_the_zone_is_submitted_again(rt: HostRuntime) {
    let outcome = outcome_of(&rt, Case::Changed(Change::SubmitAgain));
    let second = outcome.after.session;
    assert!(rt; second != outcome.before.session);
    check(&rt, &outcome, [ignored(second), None], 3, 0);
    drop(outcome);
}

#[test]
fn a_delivery_waits_while_its_file_is_deleted(rt: HostRuntime) {
    let outcome = outcome_of(&rt, Case::Changed(Change::DeleteFile));
    check(&rt, &outcome, [applied(2, 1), None], 2, 1);
    drop(outcome);
}

#[test]
fn batches_are_delivered_in_either_order(rt: HostRuntime) {
    let outcome = outcome_of(&rt, Case::EitherOrder);
    check(&rt, &outcome, [applied(3, 0), applied(3, 0)], 6, 1);
    assert_eq!(rt; outcome.outstanding, Some(0));
    drop(outcome);
}

#[test]
fn a_delivery_with_another_front_is_ignored(rt: HostRuntime) {
    let outcome = outcome_of(&rt, Case::OtherFront);
    check(&rt, &outcome, [ignored(outcome.before.session), None], 3, 0);
    assert_eq!(rt; outcome.outstanding, Some(1));
    drop(outcome);
}

#[test]
fn every_file_opens_after_the_cells_were_closed(rt: HostRuntime) {
    let first = run(&rt, Disks::empty(&rt), 1, Case::EitherOrder);
    let Left { outcome, disks } = first;
    let left = run(&rt, disks, 2, Case::Read);
    let files = left.outcome.after.files.as_slice();
    check_files(&rt, files, outcome.before.files.as_slice(), 6, 1);
    drop(outcome);
    drop(left);
}
