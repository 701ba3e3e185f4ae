//! The status of each refusal and of each fault, including those that no request can bring about.
use kms_calls::{AclOp, AclTable, KmsRefusal, KmsReply};
use kms_rest::{RestFault, respond, respond_fault};
use std::alloc::Global;
use std::process::Abort;

const REFUSALS: &[(KmsRefusal, u16)] = &[
    (KmsRefusal::BadRequest, 400),
    (KmsRefusal::NoUser, 401),
    (
        KmsRefusal::Denied {
            table: AclTable::KeyAcl,
            op: AclOp::Management,
        },
        403,
    ),
    (KmsRefusal::NoSuchKey, 404),
    (KmsRefusal::NoSuchVersion, 404),
    (KmsRefusal::KeyExists, 409),
    (KmsRefusal::WrongKey, 400),
    (KmsRefusal::BadMaterial, 400),
    (KmsRefusal::BadLength, 400),
    (KmsRefusal::TooManyKeys, 409),
    (KmsRefusal::TooManyVersions, 409),
    (KmsRefusal::TooManyAsked, 400),
    (KmsRefusal::NoMemory, 503),
    (KmsRefusal::StoreFault, 500),
];

/// A refusal has its status whether the call was to create a key or another one.
fn assert_status(rt: &impl Abort, alloc: Global, why: KmsRefusal, created: bool, status: u16) {
    let found = respond(alloc, &KmsReply::Refused(why), created).expect(rt, "memory");
    assert_eq!(rt; found.status, status);
}

#[test]
fn each_refusal_has_its_status(rt: HostRuntime) {
    for (why, status) in REFUSALS {
        assert_status(&rt, rt.alloc(), *why, true, *status);
        assert_status(&rt, rt.alloc(), *why, false, *status);
    }
}

const FAULTS: &[(RestFault, u16, &str)] = &[
    (
        RestFault::NoRoute,
        404,
        "{\"RemoteException\":{\"exception\":\"NoRoute\",\"message\":\"NoRoute\"}}",
    ),
    (
        RestFault::BadMethod,
        405,
        "{\"RemoteException\":{\"exception\":\"BadMethod\",\"message\":\"BadMethod\"}}",
    ),
    (
        RestFault::NoUser,
        401,
        "{\"RemoteException\":{\"exception\":\"NoUser\",\"message\":\"K2 NoUser\"}}",
    ),
    (
        RestFault::BadRequest,
        400,
        "{\"RemoteException\":{\"exception\":\"BadRequest\",\"message\":\"K1 BadRequest\"}}",
    ),
    (
        RestFault::NoMemory,
        503,
        "{\"RemoteException\":{\"exception\":\"NoMemory\",\"message\":\"K13 NoMemory\"}}",
    ),
];

fn assert_fault(rt: &impl Abort, alloc: Global, fault: RestFault, status: u16, body: &str) {
    let found = respond_fault(alloc, fault).expect(rt, "memory");
    assert_eq!(rt; found.status, status);
    assert_eq!(rt; found.body.as_slice(), body.as_bytes());
}

#[test]
fn each_fault_has_its_status_and_its_body(rt: HostRuntime) {
    for (fault, status, body) in FAULTS {
        assert_fault(&rt, rt.alloc(), *fault, *status, body);
    }
}
