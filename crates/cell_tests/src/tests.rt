ghost use Rattle.std.specs.Prelude.{◌≡◌};

use crate::counter::Counter;
use crate::issuer::Issuer;
use crate::registering::{Registrations, run_registry};
use crate::workers::run_workers;
use hist_cell::{Cell, Naming, Opened, Pass};
use std::marker::Brand;
use std::process::Abort;
use std::sync::Wait;
use std::thread::{Threads, join};

fn check(rt: &impl Abort, found: u64, wanted: u64) {
    assert_eq!(rt; found, wanted);
}

// Each of two callers got one of these numbers.
fn check_pair(rt: &impl Abort, a: u64, b: u64, low: u64, high: u64) {
    check(rt, a.min(b), low);
    check(rt, a.max(b), high);
}

fn check_ends(rt: &impl Abort, issuer: &Issuer, counter: &Counter) {
    check(rt, issuer.next, 7);
    check(rt, counter.count, 12);
}

#[test]
fn two_threads_use_two_cells(rt: HostRuntime) {
    let issuer = Opened::new(rt.alloc(), Issuer { next: 5 }).expect(&rt, "memory");
    let counter = Opened::new(rt.alloc(), Counter { count: 1 }).expect(&rt, "memory");
    let (issuer, counter, a, b) = run_workers::<Brand, Brand, _>(&rt, issuer, counter);
    check_ends(&rt, &issuer, &counter);
    let a = a.expect(&rt, "a number");
    let b = b.expect(&rt, "a number");
    check_pair(&rt, a, b, 5, 6);
}

// Adds 1 as often as this, and adds up the replies.
fn count_up<N: Naming, R: Wait>(
    rt: &R,
    cell: &Cell<Counter, N>,
    mut pass: Pass<Counter, N>,
    calls: u32,
) -> (Pass<Counter, N>, u64) {
    let mut sum: u64 = 0;
    for _ in 0..calls {
        let before = cell.act(rt, &mut pass, 1);
        sum = sum.wrapping_add(before);
    }
    (pass, sum)
}

// Counts in two threads, and adds up the replies of both.
fn count_in_two<N: Naming + Send + Sync, R: Threads + Wait + Sync>(
    rt: &R,
    cell: &Cell<Counter, N>,
    mut one: Pass<Counter, N>,
    calls: u32,
) -> (Pass<Counter, N>, u64) {
    let two = cell.split(rt, &mut one);
    let ((mut mine, first), (other, second)) = join(
        rt,
        || count_up(rt, cell, one, calls),
        || count_up(rt, cell, two, calls),
    );
    cell.meet(rt, &mut mine, other);
    (mine, first.wrapping_add(second))
}

// The count at the end, how many calls the closing pass has seen, and the sum of the replies.
#[derive(Clone, Copy)]
struct Counted {
    count: u64,
    seen: u64,
    sum: u64,
}

fn count_in_threads<N: Naming + Send + Sync, R: Threads + Wait + Sync>(
    rt: &R,
    opened: Opened<Counter>,
    calls: u32,
) -> Counted
    requires name { opened.table ≡ N.table }
{
    let (cell, pass) = opened.named::<N>();
    let (pass, sum) = count_in_two(rt, &cell, pass, calls);
    let seen = pass.count();
    let count = cell.close(pass).count;
    Counted { count, seen, sum }
}

fn check_counted(rt: &impl Abort, found: Counted, wanted: Counted) {
    check(rt, found.count, wanted.count);
    check(rt, found.seen, wanted.seen);
    check(rt, found.sum, wanted.sum);
}

// Each reply from 0 to 9,999 is given to one caller.
#[test]
fn ten_thousand_calls(rt: HostRuntime) {
    let opened = Opened::new(rt.alloc(), Counter { count: 0 }).expect(&rt, "memory");
    let counted = count_in_threads::<Brand, _>(&rt, opened, 5_000);
    let wanted = Counted {
        count: 10_000,
        seen: 10_000,
        sum: 49_995_000,
    };
    check_counted(&rt, counted, wanted);
}

// Counts by two passes, of which one is then met and the other one is dropped.
fn drop_one_of_two<N: Naming, R: Wait>(
    rt: &R,
    cell: &Cell<Counter, N>,
    mine: &mut Pass<Counter, N>,
    calls: u32,
) {
    let one = cell.split(rt, mine);
    let two = cell.split(rt, mine);
    let (kept, _) = count_up(rt, cell, one, calls);
    let (lost, _) = count_up(rt, cell, two, calls);
    cell.meet(rt, mine, kept);
    drop(lost);
}

// Returns what was counted, with how many calls the closing pass had seen before it made one.
fn count_and_drop<N: Naming, R: Wait>(rt: &R, opened: Opened<Counter>, calls: u32) -> (Counted, u64)
    requires name { opened.table ≡ N.table }
{
    let (cell, mut mine) = opened.named::<N>();
    drop_one_of_two(rt, &cell, &mut mine, calls);
    let met = mine.count();
    let sum = cell.act(rt, &mut mine, 1);
    let seen = mine.count();
    let count = cell.close(mine).count;
    (Counted { count, seen, sum }, met)
}

// The calls of a pass that is dropped stay in the history.
#[test]
fn a_dropped_pass_leaves_its_calls(rt: HostRuntime) {
    let opened = Opened::new(rt.alloc(), Counter { count: 0 }).expect(&rt, "memory");
    let (counted, met) = count_and_drop::<Brand, _>(&rt, opened, 100);
    let wanted = Counted {
        count: 201,
        seen: 201,
        sum: 200,
    };
    check_counted(&rt, counted, wanted);
    check(&rt, met, 100);
}

fn check_registrations(rt: &impl Abort, all: &Registrations) {
    check(rt, all.count, 3);
    check(rt, all.seen, 3);
    check_pair(rt, all.one.number, all.two.number, 3, 4);
    check(rt, all.one.seen.max(all.two.seen), 2);
}

fn check_last(rt: &impl Abort, all: &Registrations) {
    check(rt, all.last.number, 5);
    check(rt, all.last.lent, 2);
    check(rt, all.last.seen, 3);
}

// Each number that is registered was issued by a call that the registry's own pass has then seen, and a
// pass that it lends has seen as much.
#[test]
fn a_registry_sees_what_was_issued(rt: HostRuntime) {
    let opened = Opened::new(rt.alloc(), Issuer { next: 3 }).expect(&rt, "memory");
    let ran = run_registry::<Brand, _>(&rt, rt.alloc(), opened);
    let (issuer, all) = ran.expect(&rt, "memory");
    check(&rt, issuer.next, 6);
    check_registrations(&rt, &all);
    check_last(&rt, &all);
}
