//! Rows that move to other paths.
use crate::bench::{Bench, Case, assert_case};
use std::alloc::Global;
use std::process::Abort;

/// A file moves, and a directory with what is below it, also into a deeper directory.
const MOVED: Case = &[
    ("mkdir /a 1", "yes"),
    ("mkdir /a/d 2", "yes"),
    ("file /a/d/e 3", "yes"),
    ("mkdir /b 4", "yes"),
    ("file /c 5", "yes"),
    ("mkdir /a! 6", "yes"),
    ("rename /c /b/f", "yes"),
    ("find /c", "-"),
    ("find /b/f", "file 5"),
    ("rename /a /b/x", "yes"),
    ("find /a", "-"),
    ("find /a/d/e", "-"),
    ("find /a!", "directory 6"),
    ("find /b/x", "directory 1"),
    ("find /b/x/d/e", "file 3"),
    ("mkdir /a 7", "yes"),
    ("file /b/x/d/g 8", "yes"),
    ("rename /b/x/d /a/d", "yes"),
    ("find /a/d/g", "file 8"),
    ("remove /a", "5"),
    ("find /b/x", "directory 1"),
    ("remove /b", "2"),
];

/// A row does not move to its own path or below it, onto another row, into no directory or below a
/// file; and the root stays.
const STAYS: Case = &[
    ("mkdir /a 1", "yes"),
    ("mkdir /a/d 2", "yes"),
    ("file /f 3", "yes"),
    ("rename /a /a", "no"),
    ("rename /a /a/d/x", "no"),
    ("rename /f /a/d", "no"),
    ("rename /f /b/g", "no"),
    ("rename /a /f/a", "no"),
    ("rename /b /c", "no"),
    ("rename / /c", "no"),
    ("find /a/d", "directory 2"),
    ("find /f", "file 3"),
];

/// A zone moves with its directory.
const MARKED: Case = &[
    ("mkdir /a 1", "yes"),
    ("mkdir /b 2", "yes"),
    ("mark 1", "yes"),
    ("allow 2", "yes"),
    ("rename /a /b/c", "yes"),
    ("take 2 s", "yes"),
    ("zone 2 s /c/e", "1"),
    ("zone 2 s /e", "-"),
];

const CASES: [Case; 3] = [MOVED, STAYS, MARKED];

#[test]
fn rows_move_so(rt: HostRuntime) {
    for case in CASES {
        assert_case(&rt, rt.alloc(), case);
    }
}

/// Makes a directory with 1,500 files, more than a piece of the order holds.
fn fill(rt: &impl Abort, alloc: Global, bench: &mut Bench, name: &str, first: u64) {
    let line = format!(in alloc; "mkdir /{name} {first}").expect(rt, "memory");
    bench.line(rt, line.as_str());
    for i in 0..1500u64 {
        let id = first.saturating_add(1).saturating_add(i);
        let line = format!(in alloc; "file /{name}/f{i:04} {id}").expect(rt, "memory");
        bench.line(rt, line.as_str());
    }
}

fn assert_ends(rt: &impl Abort, answers: &str, wanted: &str) {
    assert!(rt; answers.ends_with(wanted), "{wanted}");
}

#[test]
fn directories_of_many_rows_move(rt: HostRuntime) {
    let alloc = rt.alloc();
    let mut bench = Bench::new(&rt, alloc);
    for (name, first) in [("a", 10_000), ("m", 20_000), ("z", 30_000)] {
        fill(&rt, alloc, &mut bench, name, first);
    }
    for line in [
        "rename /m /z/m",
        "find /m/f0000",
        "find /z/m/f0000",
        "find /z/m/f1499",
        "rename /z/m /a/m",
        "find /a/m/f0700",
        "rename /a /n",
        "file /n/m/x 1",
        "remove /n/m",
        "remove /n",
        "find /z/f1499",
    ] {
        bench.line(&rt, line);
    }
    assert_ends(
        &rt,
        bench.answers(),
        "yes\n-\nfile 20001\nfile 21500\nyes\nfile 20701\nyes\nyes\n3003\n1502\nfile 31500\n",
    );
}
