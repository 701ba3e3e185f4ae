//! Queues of ready keys, and which of them is filled next.
use eek_queues::Queues;
use hk_base::{Dek, Edek, Iv, KeyName, NoMemory, VersionName};
use std::alloc::Global;
use std::process::Abort;

/// Returns a ready key that differs from others by its number.
fn ready(rt: &impl Abort, number: u16) -> Edek {
    let key = KeyName::read(b"k").expect(rt, "a name");
    Edek {
        version: VersionName { key, number },
        iv: Iv([9; 16]),
        sealed: Dek::read(&[7; 16]).expect(rt, "a key"),
    }
}

/// Makes the queue of a birth that has none, and returns whether it did.
fn offer(queues: &mut Queues, birth: u64) -> Result<bool, NoMemory> {
    if queues.has(birth) {
        return Ok(false);
    }
    queues.make(birth)?;
    Ok(true)
}

/// Puts a ready key into the queue of a birth, and returns whether it was kept.
fn fill(rt: &impl Abort, queues: &mut Queues, birth: u64, number: u16) -> bool {
    if !queues.has(birth) {
        return false;
    }
    queues.put(birth, ready(rt, number)).is_ok()
}

/// What is done to the queues, and what comes of it.
#[derive(Clone, Copy)]
enum Step {
    /// The queue of a birth is made, if it has none yet.
    Make(u64, bool),
    /// A ready key of a birth is put, and is kept unless the queue is full or there is none.
    Put(u64, u16, bool),
    /// The oldest ready key of a birth is taken.
    Take(u64, Option<u16>),
    Drain(u64),
    DropQueue(u64),
    /// The birth has a queue.
    Has(u64, bool),
    /// The birth has a number of ready keys.
    Length(u64, u16),
    /// The birth whose queue is filled next.
    Low(Option<u64>),
}

/// Returns the number of the ready key that is taken, if one is.
fn taken(rt: &impl Abort, queues: &mut Queues, birth: u64) -> Option<u16> {
    let found = queues.take(birth)?;
    let number = found.version.number;
    if found != ready(rt, number) {
        panic!(rt; "another key than was put");
    }
    Some(number)
}

/// Does a step, and returns whether what came of it is what the step says.
fn holds(rt: &impl Abort, queues: &mut Queues, step: Step) -> bool {
    match step {
        Step::Make(birth, made) => offer(queues, birth).expect(rt, "memory") == made,
        Step::Put(birth, number, kept) => fill(rt, queues, birth, number) == kept,
        Step::Take(birth, number) => taken(rt, queues, birth) == number,
        Step::Drain(birth) => {
            queues.drain(birth);
            true
        }
        Step::DropQueue(birth) => {
            queues.drop_queue(birth);
            true
        }
        Step::Has(birth, has) => queues.has(birth) == has,
        Step::Length(birth, length) => queues.length(birth) == length,
        Step::Low(birth) => queues.low() == birth,
    }
}

fn assert_step(rt: &impl Abort, queues: &mut Queues, at: usize, step: Step) {
    let held = holds(rt, queues, step);
    assert!(rt; held, "step {at}");
}

fn assert_steps(rt: &impl Abort, alloc: Global, size: u16, watermark: u16, steps: &[Step]) {
    let mut queues = Queues::new(alloc, size, watermark);
    for (at, step) in steps.iter().enumerate() {
        assert_step(rt, &mut queues, at, *step);
    }
}

/// Queues of three keys that are low below two.
const IN_ORDER: &[Step] = &[
    Step::Low(None),
    Step::Make(5, true),
    Step::Make(5, false),
    Step::Low(Some(5)),
    Step::Put(5, 1, true),
    Step::Put(5, 2, true),
    Step::Low(None),
    Step::Put(5, 3, true),
    Step::Length(5, 3),
    Step::Take(5, Some(1)),
    Step::Put(5, 4, true),
    Step::Put(5, 5, false),
    Step::Take(5, Some(2)),
    Step::Take(5, Some(3)),
    Step::Low(Some(5)),
    Step::Drain(5),
    Step::Has(5, true),
    Step::Take(5, None),
    Step::DropQueue(5),
    Step::Has(5, false),
    Step::Low(None),
    Step::Put(5, 6, false),
    Step::Take(5, None),
];

/// Queues of one key, with a watermark above their size.
const OF_ONE_KEY: &[Step] = &[
    Step::Make(1, true),
    Step::Low(Some(1)),
    Step::Put(1, 1, true),
    Step::Low(None),
    Step::Put(1, 2, false),
    Step::Take(1, Some(1)),
    Step::Low(Some(1)),
];

#[test]
fn ready_keys_are_taken_in_the_order_in_which_they_came(rt: HostRuntime) {
    assert_steps(&rt, rt.alloc(), 3, 2, IN_ORDER);
    assert_steps(&rt, rt.alloc(), 1, 10_000, OF_ONE_KEY);
}

/// Fills the queue of birth 1 with ten thousand keys, and takes them again.
fn fill_and_take(rt: &impl Abort, queues: &mut Queues) {
    for number in 0..10_000 {
        assert_step(rt, queues, number as usize, Step::Low(Some(1)));
        assert_step(rt, queues, number as usize, Step::Put(1, number, true));
    }
    assert_step(rt, queues, 10_000, Step::Low(None));
    assert_step(rt, queues, 10_000, Step::Put(1, 0, false));
    for number in 0..10_000 {
        assert_step(rt, queues, number as usize, Step::Take(1, Some(number)));
    }
    assert_step(rt, queues, 10_000, Step::Take(1, None));
}

#[test]
fn a_queue_may_hold_ten_thousand_keys(rt: HostRuntime) {
    let mut queues = Queues::new(rt.alloc(), 10_000, 10_000);
    assert_step(&rt, &mut queues, 0, Step::Make(1, true));
    fill_and_take(&rt, &mut queues);
}

/// Puts a ready key into each of ten thousand queues, always the one that is filled next.
fn fill_each(rt: &impl Abort, queues: &mut Queues, number: u16) {
    for birth in 0..10_000 {
        assert_step(rt, queues, birth as usize, Step::Low(Some(birth)));
        assert_step(rt, queues, birth as usize, Step::Put(birth, number, true));
    }
}

/// Two queues become low after all were filled.
const LOW_AGAIN: &[Step] = &[
    Step::Low(None),
    Step::DropQueue(17),
    Step::Take(18, Some(0)),
    Step::Low(Some(18)),
    Step::Drain(4_000),
    Step::Low(Some(4_000)),
];

/// The births come in no order, and each round puts a key into every queue.
#[test]
fn of_ten_thousand_equal_queues_the_least_birth_is_low(rt: HostRuntime) {
    let mut queues = Queues::new(rt.alloc(), 2, 2);
    for step in 0..10_000u64 {
        let birth = (step * 7919) % 10_000;
        assert_step(&rt, &mut queues, step as usize, Step::Make(birth, true));
    }
    fill_each(&rt, &mut queues, 0);
    fill_each(&rt, &mut queues, 1);
    for (at, step) in LOW_AGAIN.iter().enumerate() {
        assert_step(&rt, &mut queues, at, *step);
    }
}
