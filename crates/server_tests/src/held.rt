//! Threads that are held until others have come to a certain point.
use crate::gates::{Hold, Moment, Tally};
use crate::requests::{Client, Request};
use crate::services::serve;
use std::process::Abort;
use std::sync::Wait;
use std::thread::Threads;
use std::time;

/// What clients ask, and which threads are held meanwhile.
struct Case {
    clients: &'static [Client],
    holds: &'static [Hold],
}

const GENERATE: Request = Request {
    line: "GET /kms/v1/key/k/_eek?eek_op=generate&user.name=alice",
    body: "",
    status: 200,
    answer: "[{\"encryptedKeyVersion\":{\"material\":\"",
};

const ROLL: Request = Request {
    line: "POST /kms/v1/key/k?user.name=alice",
    body: "",
    status: 200,
    answer: "{\"material\":\"",
};

const DELETE_KEY: Request = Request {
    line: "DELETE /kms/v1/key/k?user.name=alice",
    body: "",
    status: 200,
    answer: "",
};

const CREATE_KEY: Request = Request {
    line: "POST /kms/v1/keys?user.name=alice",
    body: "{\"name\":\"k\"}",
    status: 201,
    answer: "{\"material\":\"",
};

const LIST: Request = Request {
    line: "GET /nn/v1/list?path=/&user.name=bob",
    body: "",
    status: 200,
    answer: "{\"answer\":\"list\"}",
};

const MAKE_DIRECTORY: Request = Request {
    line: "POST /nn/v1/mkdir?path=/z&user.name=alice",
    body: "",
    status: 200,
    answer: "",
};

const MAKE_ZONE: Request = Request {
    line: "POST /nn/v1/zone?path=/z&key=k&user.name=hdfs",
    body: "",
    status: 200,
    answer: "",
};

const MAKE_FILE: Request = Request {
    line: "POST /nn/v1/create?path=/z/f&user.name=alice",
    body: "",
    status: 201,
    answer: "",
};

const DELETE_FILE: Request = Request {
    line: "POST /nn/v1/delete?path=/z/f&user.name=alice",
    body: "",
    status: 200,
    answer: "",
};

const SUBMIT: Request = Request {
    line: "POST /nn/v1/reencrypt?path=/z&user.name=hdfs",
    body: "",
    status: 200,
    answer: "",
};

/// The first reply has the entries of the root. It is held until the other client's key is being generated,
/// which is held at its first random word until there is a second reply: the directory is made meanwhile.
/// Four words were drawn for the material of the key `k`.
const DIRECTORY: Case = Case {
    clients: &[&[GENERATE], &[LIST, MAKE_DIRECTORY]],
    holds: &[
        Hold {
            at: Moment::Reply,
            number: 1,
            until: Moment::Draw,
            times: 5,
        },
        Hold {
            at: Moment::Draw,
            number: 5,
            until: Moment::Reply,
            times: 2,
        },
    ],
};

/// The reply to the generate is held until a filler seals, which is held until the key was deleted and
/// created again.
const FILLER: Case = Case {
    clients: &[&[GENERATE, DELETE_KEY, CREATE_KEY, GENERATE]],
    holds: &[
        Hold {
            at: Moment::Reply,
            number: 1,
            until: Moment::Seal,
            times: 1,
        },
        Hold {
            at: Moment::Seal,
            number: 1,
            until: Moment::Reply,
            times: 3,
        },
    ],
};

/// The reply to the submission is held until a batch is delivered, which is held until the key was rolled
/// once more and the file deleted.
const DELIVERY: Case = Case {
    clients: &[&[
        MAKE_DIRECTORY,
        MAKE_ZONE,
        MAKE_FILE,
        ROLL,
        SUBMIT,
        ROLL,
        DELETE_FILE,
    ]],
    holds: &[
        Hold {
            at: Moment::Reply,
            number: 5,
            until: Moment::Delivery,
            times: 1,
        },
        Hold {
            at: Moment::Delivery,
            number: 1,
            until: Moment::Reply,
            times: 7,
        },
    ],
};

/// Serves the clients of a case. All threads that are to be held are held, and come free in time.
fn check_case<R: Threads + Wait + Abort + AllocGlobal + Sync, C: time::Clock + Sync + Drop>(
    rt: &R,
    clock: C,
    case: &Case,
) {
    let tally = Tally::new(clock, case.holds);
    serve(rt, case.clients, &tally);
    assert_eq!(rt; tally.in_time() as usize, case.holds.len());
}

#[test]
fn a_directory_is_made_while_a_key_is_generated(rt: HostRuntime) {
    check_case(&rt, rt, &DIRECTORY);
}

#[test]
fn a_key_is_replaced_while_a_filler_seals(rt: HostRuntime) {
    check_case(&rt, rt, &FILLER);
}

#[test]
fn a_file_is_deleted_while_a_batch_is_delivered(rt: HostRuntime) {
    check_case(&rt, rt, &DELIVERY);
}
