//! Threads that use two cells.
ghost use Rattle.std.specs.Prelude.{◌≡◌, IfSome};
ghost use Rattle.cell_tests.specs.Issuing.{Issued};

use crate::counter::Counter;
use crate::issuer::{Issuer, IssuerCall};
use hist_cell::{Cell, Naming, Opened, Pass};
use std::sync::Wait;
use std::thread::{Threads, join};

/// What a worker is given, and hands back: its passes, and the number that it drew.
#[derive(Drop)]
pub struct Worker<N: Naming, M: Naming> {
    pub numbers: Pass<Issuer, N>,
    pub counts: Pass<Counter, M>,
    pub number: Option<u64>,
}

/// Draws a number and adds it to the count.
pub fn work<N: Naming, M: Naming, R: Wait>(
    rt: &R,
    issuer: &Cell<Issuer, N>,
    counter: &Cell<Counter, M>,
    worker: Worker<N, M>,
) -> Worker<N, M>
    ensures drawn { IfSome result.number (λ n. Issued n result.numbers.seen) }
    ensures same { (result.numbers.number ≡ worker.numbers.number) ×
        (result.counts.number ≡ worker.counts.number) }
{
    let Worker {
        mut numbers,
        mut counts,
        number: _,
    } = worker;
    let Some(n) = issuer.act(rt, &mut numbers, IssuerCall::Issue) else {
        return Worker {
            numbers,
            counts,
            number: None,
        };
    };
    counter.act(rt, &mut counts, n);
    Worker {
        numbers,
        counts,
        number: Some(n),
    }
}

/// Meets the pass of a worker into another one, and gives back the number that the worker drew.
pub fn meet_and_give_back<N: Naming, R: Wait>(
    rt: &R,
    issuer: &Cell<Issuer, N>,
    pass: &mut Pass<Issuer, N>,
    other: Pass<Issuer, N>,
    number: Option<u64>,
)
    requires drawn { IfSome number (λ n. Issued n other.seen) }
{
    issuer.meet(rt, pass, other);
    let Some(number) = number else {
        return;
    };
    issuer.act(rt, pass, IssuerCall::Redeem(number));
}

/// Lets two threads work, gives back the numbers that they drew, and returns both services and the
/// numbers.
pub fn run_workers<N: Naming + Send + Sync, M: Naming + Send + Sync, R: Threads + Wait + Sync>(
    rt: &R,
    issuer: Opened<Issuer>,
    counter: Opened<Counter>,
) -> (Issuer, Counter, Option<u64>, Option<u64>)
    requires issuer { issuer.table ≡ N.table }
    requires counter { counter.table ≡ M.table }
{
    let (issuer, mut one) = issuer.named::<N>();
    let (counter, mut two) = counter.named::<M>();
    let first = Worker {
        numbers: issuer.split(rt, &mut one),
        counts: counter.split(rt, &mut two),
        number: None,
    };
    let second = Worker {
        numbers: issuer.split(rt, &mut one),
        counts: counter.split(rt, &mut two),
        number: None,
    };
    let (a, b) = join(
        rt,
        || work(rt, &issuer, &counter, first),
        || work(rt, &issuer, &counter, second),
    );
    meet_and_give_back(rt, &issuer, &mut one, a.numbers, a.number);
    meet_and_give_back(rt, &issuer, &mut one, b.numbers, b.number);
    counter.meet(rt, &mut two, a.counts);
    counter.meet(rt, &mut two, b.counts);
    (issuer.close(one), counter.close(two), a.number, b.number)
}
