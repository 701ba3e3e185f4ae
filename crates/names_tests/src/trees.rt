//! Many rows that are made and removed.
use crate::bench::Bench;
use std::alloc::Global;
use std::process::Abort;

/// The `i`-th of a thousand rows: ten directories, in each 98 files, and beside each directory a file
/// whose name begins with the name of the directory. The ids are the places in path order.
fn nth(rt: &impl Abort, alloc: Global, i: u64) -> String {
    if i < 10 {
        let d = i * 7 % 10;
        return format!(in alloc; "mkdir /d{d} {}", 1 + d * 100).expect(rt, "memory");
    }
    if i < 990 {
        let j = i * 549 % 980;
        let d = j / 98;
        let n = j % 98;
        let id = 2 + d * 100 + n;
        return format!(in alloc; "file /d{d}/f{n:03} {id}").expect(rt, "memory");
    }
    let d = i % 10 * 3 % 10;
    format!(in alloc; "file /d{d}! {}", 100 + d * 100).expect(rt, "memory")
}

fn make_all(rt: &impl Abort, alloc: Global, bench: &mut Bench) {
    for i in 0..1000 {
        bench.line(rt, nth(rt, alloc, i).as_str());
    }
}

fn assert_ends(rt: &impl Abort, answers: &str, wanted: &str) {
    assert!(rt; answers.ends_with(wanted), "{wanted}");
}

#[test]
fn a_thousand_rows_are_found_and_removed(rt: HostRuntime) {
    let alloc = rt.alloc();
    let mut bench = Bench::new(&rt, alloc);
    make_all(&rt, alloc, &mut bench);
    for line in [
        "find /d3/f097",
        "find /d3!",
        "remove /d3",
        "find /d3/f097",
        "find /d3!",
        "find /d4/f000",
    ] {
        bench.line(&rt, line);
    }
    assert_ends(
        &rt,
        bench.answers(),
        "yes\nfile 399\nfile 400\n902\n-\nfile 400\nfile 402\n",
    );
}
