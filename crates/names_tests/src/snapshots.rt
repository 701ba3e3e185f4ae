//! Snapshots that are taken, read and removed, and their limits.
use crate::bench::{Bench, Case, assert_case};
use snap_store::MOST_SNAPSHOTS;
use std::alloc::Global;
use std::process::Abort;

/// A snapshot stays as it was when the tree changes.
const KEPT: Case = &[
    ("mkdir /a 1", "yes"),
    ("mkdir /a/d 2", "yes"),
    ("file /a/d/e 3", "yes"),
    ("file /a/f 4", "yes"),
    ("mkdir /a! 5", "yes"),
    ("take 1 s", "no"),
    ("allow 1", "yes"),
    ("list 1 s /", "-"),
    ("take 1 s", "yes"),
    ("file /a/g 6", "yes"),
    ("take 1 t", "yes"),
    ("remove /a/d", "5"),
    ("look 1 s /", "directory 1"),
    ("look 1 s /d/e", "file 3"),
    ("look 1 s /f", "file 4"),
    ("look 1 s /g", "-"),
    ("look 1 t /g", "file 6"),
    ("look 1 u /", "-"),
    ("list 1 s /", "d/f"),
    ("list 1 t /", "d/f g"),
    ("list 1 s /d", "e"),
    ("list 1 s /d/e", "-"),
    ("list 1 s /x", "-"),
];

/// The zone in a snapshot is the deepest mark of then at or above the path.
const ZONES: Case = &[
    ("mkdir /a 1", "yes"),
    ("mkdir /a/d 2", "yes"),
    ("file /a/f 3", "yes"),
    ("allow 1", "yes"),
    ("take 1 before", "yes"),
    ("mark 1", "yes"),
    ("mark 2", "yes"),
    ("take 1 s", "yes"),
    ("remove /a/d", "3"),
    ("zone 1 before /d", "-"),
    ("zone 1 s /", "0"),
    ("zone 1 s /f", "0"),
    ("zone 1 s /d", "1"),
    ("zone 1 s /d/e", "1"),
    ("zone 1 s /d/x/y", "1"),
];

/// The names of snapshots are ordered by directory, then by their bytes, each once in a directory.
const NAMES: Case = &[
    ("mkdir /a 1", "yes"),
    ("mkdir /a! 5", "yes"),
    ("allow 5", "yes"),
    ("allow 1", "yes"),
    ("allow 5", "yes"),
    ("take 1 b", "yes"),
    ("take 5 b", "yes"),
    ("take 1 a!", "yes"),
    ("take 1 a", "yes"),
    ("take 1 B", "yes"),
    ("take 1 a", "no"),
    ("drop 1 a!", "3"),
    ("count 5", "1"),
    ("name 1 0", "B"),
    ("name 1 1", "a"),
    ("name 1 2", "b"),
    ("name 1 3", "-"),
];

/// A directory with snapshots is not disallowed, and one that was disallowed has no count.
const DISALLOWED: Case = &[
    ("mkdir /a 1", "yes"),
    ("allow 1", "yes"),
    ("take 1 s", "yes"),
    ("disallow 1", "no"),
    ("drop 1 s", "0"),
    ("disallow 1", "yes"),
    ("count 1", "-"),
    ("take 1 s", "no"),
];

/// Directories at and below a path are disallowed together, unless one has a snapshot.
const DISALLOWED_BELOW: Case = &[
    ("mkdir /a 1", "yes"),
    ("mkdir /a/d 2", "yes"),
    ("mkdir /b 3", "yes"),
    ("allow 1", "yes"),
    ("allow 2", "yes"),
    ("allow 3", "yes"),
    ("disallow-below /a/d", "yes"),
    ("count 2", "-"),
    ("count 1", "0"),
    ("take 1 s", "yes"),
    ("disallow-below /", "no"),
    ("drop 1 s", "0"),
    ("disallow-below /a", "yes"),
    ("count 1", "-"),
    ("count 3", "0"),
];

/// For a path: whether snapshots are allowed above it, whether below it, whether it holds one.
const PLACES: Case = &[
    ("mkdir /a 1", "yes"),
    ("mkdir /a/d 2", "yes"),
    ("file /a/d/e 3", "yes"),
    ("mkdir /a! 5", "yes"),
    ("allow 2", "yes"),
    ("take 2 s", "yes"),
    ("places /", "no\nyes\nyes"),
    ("places /a", "no\nyes\nyes"),
    ("places /a/d", "no\nno\nyes"),
    ("places /a/d/e", "yes\nno\nno"),
    ("places /a!", "no\nno\nno"),
];

/// What was reserved is taken as the tree is then.
const RESERVED: Case = &[
    ("mkdir /a 1", "yes"),
    ("file /a/f 2", "yes"),
    ("allow 1", "yes"),
    ("reserve 1 s", "yes"),
    ("count 1", "0"),
    ("look 1 s /", "-"),
    ("take 1 s", "yes"),
    ("list 1 s /", "f"),
    ("reserve 1 t", "yes"),
    ("file /a/g 3", "yes"),
    ("take 1 t", "yes"),
    ("look 1 t /g", "file 3"),
    ("look 1 s /g", "-"),
];

const CASES: [Case; 7] = [
    KEPT,
    ZONES,
    NAMES,
    DISALLOWED,
    DISALLOWED_BELOW,
    PLACES,
    RESERVED,
];

#[test]
fn each_line_is_answered_so(rt: HostRuntime) {
    for case in CASES {
        assert_case(&rt, rt.alloc(), case);
    }
}

/// Takes snapshots of the directory with id 1 with the names 00000, 00001 and so on.
fn fill(rt: &impl Abort, alloc: Global, bench: &mut Bench) {
    for i in 0..MOST_SNAPSHOTS {
        let name = format!(in alloc; "{i:05}").expect(rt, "memory");
        bench.take(rt, 1, name.as_str());
    }
}

fn assert_ends(rt: &impl Abort, answers: &str, wanted: &str) {
    assert!(rt; answers.ends_with(wanted));
}

/// Asks for the count, tries to take one more, and asks for the last name.
fn assert_full(rt: &impl Abort, bench: &mut Bench) {
    for line in ["count 1", "take 1 more", "name 1 65535"] {
        bench.line(rt, line);
    }
    assert_ends(rt, bench.answers(), "yes\n65536\nno\n65535\n");
}

/// Takes a snapshot whose name has 255 bytes, and finds it by its place and by its name.
fn assert_long_name(rt: &impl Abort, alloc: Global, bench: &mut Bench) {
    let long = format!(in alloc; "{0:x>255}", "x").expect(rt, "memory");
    let take = format!(in alloc; "take 2 {long}").expect(rt, "memory");
    let look = format!(in alloc; "look 2 {long} /").expect(rt, "memory");
    let wanted = format!(in alloc; "yes\n{long}\ndirectory 2\n").expect(rt, "memory");
    for line in [
        "mkdir /f 2",
        "allow 2",
        take.as_str(),
        "name 2 0",
        look.as_str(),
    ] {
        bench.line(rt, line);
    }
    assert_ends(rt, bench.answers(), wanted.as_str());
}

#[test]
fn a_directory_has_at_most_65536_snapshots(rt: HostRuntime) {
    let alloc = rt.alloc();
    let mut bench = Bench::new(&rt, alloc);
    bench.line(&rt, "mkdir /e 1");
    bench.line(&rt, "allow 1");
    fill(&rt, alloc, &mut bench);
    assert_full(&rt, &mut bench);
    assert_long_name(&rt, alloc, &mut bench);
}
