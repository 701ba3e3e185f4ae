//! The responses of the namesystem: their statuses, and the texts in their bodies. Nothing serves them
//! yet.
use hk_base::{Dek, Edek, Iv, KeyName, Text, VersionName};
use kms_calls::{AclOp, AclTable, KmsRefusal};
use name_calls::{
    Child, ChildList, NPath, NameRefusal, NameReply, State, ZoneList, ZonePath, ZoneStatus,
};
use name_rest::{NameRestFault, respond_name, respond_name_fault};
use std::alloc::Global;
use std::process::Abort;

fn assert_answer(rt: &impl Abort, alloc: Global, reply: &NameReply, body: &str) {
    let found = respond_name(alloc, reply, false).expect(rt, "memory");
    assert_eq!(rt; found.status, 200);
    assert_eq!(rt; found.body.as_slice(), body.as_bytes());
}

fn key(rt: &impl Abort) -> KeyName {
    KeyName::read(b"k").expect(rt, "a name")
}

fn version(rt: &impl Abort, number: u16) -> VersionName {
    VersionName {
        key: key(rt),
        number,
    }
}

fn path(rt: &impl Abort, alloc: Global, text: &str) -> NPath {
    NPath::read(alloc, text.as_bytes()).expect(rt, "a path")
}

fn file(rt: &impl Abort, alloc: Global, edek: Option<Edek>) -> NameReply {
    NameReply::File {
        id: 4294967299,
        zone: Some(path(rt, alloc, "/z")),
        edek,
    }
}

fn edek(rt: &impl Abort) -> Edek {
    Edek {
        version: version(rt, 0),
        iv: Iv([1u8; 16]),
        sealed: Dek::read([254u8; 16].as_slice()).expect(rt, "a key"),
    }
}

#[test]
fn files_are_shown_with_their_keys(rt: HostRuntime) {
    let alloc = rt.alloc();
    let text =
        "{\"answer\":\"file 4294967299 /z k@0:01010101010101010101010101010101:fefefefefefefefefefefefefefefefe\"}";
    let with_key = file(&rt, alloc, Some(edek(&rt)));
    assert_answer(&rt, alloc, &with_key, text);
    let without_key = file(&rt, alloc, None);
    assert_answer(
        &rt,
        alloc,
        &without_key,
        "{\"answer\":\"file 4294967299 /z -\"}",
    );
}

#[test]
fn directories_are_shown_with_their_zones(rt: HostRuntime) {
    let alloc = rt.alloc();
    let root = NameReply::Dir {
        id: 1,
        zone: None,
        key: None,
    };
    assert_answer(&rt, alloc, &root, "{\"answer\":\"dir 1 - -\"}");
    let zone = NameReply::Dir {
        id: 18446744073709551615,
        zone: Some(path(&rt, alloc, "/a b/100%")),
        key: Some(key(&rt)),
    };
    let text = "{\"answer\":\"dir 18446744073709551615 /a%20b/100%25 k\"}";
    assert_answer(&rt, alloc, &zone, text);
}

fn add_child(rt: &impl Abort, alloc: Global, name: &str, directory: bool, list: &mut ChildList) {
    let text = String::from_str(alloc, name).expect(rt, "memory");
    let child = Child {
        name: Text::of(text),
        directory,
    };
    list.push(child).expect(rt, "memory");
}

#[test]
fn names_are_escaped_for_the_text_and_then_for_json(rt: HostRuntime) {
    let alloc = rt.alloc();
    let mut list = ChildList::new(alloc);
    add_child(&rt, alloc, "say \"\u{e4}\"", true, &mut list);
    add_child(&rt, alloc, "a\\b,c%20\n", false, &mut list);
    let text = "{\"answer\":\"list say%20\\\"%C3%A4\\\"/ a\\\\b%2Cc%2520%0A\"}";
    assert_answer(&rt, alloc, &NameReply::List(list), text);
    let none = NameReply::List(ChildList::new(alloc));
    assert_answer(&rt, alloc, &none, "{\"answer\":\"list\"}");
}

#[test]
fn zones_are_listed_with_their_keys(rt: HostRuntime) {
    let alloc = rt.alloc();
    let mut zones = ZoneList::new(alloc);
    let zone = ZonePath {
        path: path(&rt, alloc, "/z/y"),
        key: key(&rt),
    };
    zones.push(zone).expect(&rt, "memory");
    let text = "{\"answer\":\"zones /z/y:k\"}";
    assert_answer(&rt, alloc, &NameReply::Zones(zones), text);
}

#[test]
fn statuses_are_shown_with_the_mark_in_the_zone(rt: HostRuntime) {
    let alloc = rt.alloc();
    let status = ZoneStatus {
        session: 7,
        noted: version(&rt, 2),
        state: State::Processing,
        cancelled: false,
        reencrypted: 5,
        failed: 1,
        mark: Some(path(&rt, alloc, "/d/f g")),
    };
    let text = "{\"answer\":\"status Processing k@2 5 1 no d/f%20g\"}";
    assert_answer(&rt, alloc, &NameReply::Status(Some(status)), text);
    let none = NameReply::Status(None);
    assert_answer(&rt, alloc, &none, "{\"answer\":\"status None\"}");
}

#[test]
fn what_is_done_has_no_body(rt: HostRuntime) {
    let alloc = rt.alloc();
    assert_answer(&rt, alloc, &NameReply::Done, "");
    let made = respond_name(alloc, &NameReply::Done, true).expect(&rt, "memory");
    assert_eq!(rt; made.status, 201);
    assert!(rt; made.body.is_empty());
    // Only what is done can be made.
    let shown = respond_name(alloc, &file(&rt, alloc, None), true).expect(&rt, "memory");
    assert_eq!(rt; shown.status, 200);
}

const REFUSALS: &[(NameRefusal, u16, &str)] = &[
    (
        NameRefusal::RootOrInside,
        400,
        "{\"RemoteException\":{\"exception\":\"RootOrInside\",\"message\":\"N25 RootOrInside\"}}",
    ),
    (
        NameRefusal::NotSuperuser,
        403,
        "{\"RemoteException\":{\"exception\":\"NotSuperuser\",\"message\":\"N6 NotSuperuser\"}}",
    ),
    (
        NameRefusal::NoSuchPath,
        404,
        "{\"RemoteException\":{\"exception\":\"NoSuchPath\",\"message\":\"N2 NoSuchPath\"}}",
    ),
    (
        NameRefusal::NotAZoneRoot,
        404,
        "{\"RemoteException\":{\"exception\":\"NotAZoneRoot\",\"message\":\"N8 NotAZoneRoot\"}}",
    ),
    (
        NameRefusal::Exists,
        409,
        "{\"RemoteException\":{\"exception\":\"Exists\",\"message\":\"N3 Exists\"}}",
    ),
    (
        NameRefusal::AskGone {
            opening: 1,
            next: 2,
        },
        409,
        "{\"RemoteException\":{\"exception\":\"AskGone\",\"message\":\"N16 AskGone 1 2\"}}",
    ),
    (
        NameRefusal::StoreFault,
        500,
        "{\"RemoteException\":{\"exception\":\"StoreFault\",\"message\":\"N23 StoreFault\"}}",
    ),
    (
        NameRefusal::NoMemory,
        503,
        "{\"RemoteException\":{\"exception\":\"NoMemory\",\"message\":\"N22 NoMemory\"}}",
    ),
    (
        NameRefusal::KeyRefused(KmsRefusal::NoSuchKey),
        404,
        "{\"RemoteException\":{\"exception\":\"KeyRefused\",\"message\":\"N21 KeyRefused K4 NoSuchKey\"}}",
    ),
    (
        NameRefusal::KeyRefused(KmsRefusal::Denied {
            table: AclTable::KeyAcl,
            op: AclOp::GenerateEek,
        }),
        403,
        "{\"RemoteException\":{\"exception\":\"KeyRefused\",\"message\":\"N21 KeyRefused K3 Denied KeyAcl GENERATE_EEK\"}}",
    ),
];

/// A refusal has its status whether something was to be made or not.
fn assert_refused(
    rt: &impl Abort,
    alloc: Global,
    why: NameRefusal,
    created: bool,
    wanted: (u16, &str),
) {
    let (status, body) = wanted;
    let found = respond_name(alloc, &NameReply::Refused(why), created).expect(rt, "memory");
    assert_eq!(rt; found.status, status);
    assert_eq!(rt; found.body.as_slice(), body.as_bytes());
}

#[test]
fn refusals_have_their_statuses_and_texts(rt: HostRuntime) {
    for (why, status, body) in REFUSALS {
        assert_refused(&rt, rt.alloc(), *why, true, (*status, body));
        assert_refused(&rt, rt.alloc(), *why, false, (*status, body));
    }
}

const FAULTS: &[(NameRestFault, u16, &str)] = &[
    (
        NameRestFault::NoRoute,
        404,
        "{\"RemoteException\":{\"exception\":\"NoRoute\",\"message\":\"NoRoute\"}}",
    ),
    (
        NameRestFault::BadMethod,
        405,
        "{\"RemoteException\":{\"exception\":\"BadMethod\",\"message\":\"BadMethod\"}}",
    ),
    (
        NameRestFault::NoUser,
        401,
        "{\"RemoteException\":{\"exception\":\"NoUser\",\"message\":\"K2 NoUser\"}}",
    ),
    (
        NameRestFault::BadRequest,
        400,
        "{\"RemoteException\":{\"exception\":\"BadRequest\",\"message\":\"K1 BadRequest\"}}",
    ),
    (
        NameRestFault::BadPath,
        400,
        "{\"RemoteException\":{\"exception\":\"BadPath\",\"message\":\"N1 BadPath\"}}",
    ),
    (
        NameRestFault::NoMemory,
        503,
        "{\"RemoteException\":{\"exception\":\"NoMemory\",\"message\":\"N22 NoMemory\"}}",
    ),
];

fn assert_fault(rt: &impl Abort, alloc: Global, fault: NameRestFault, status: u16, body: &str) {
    let found = respond_name_fault(alloc, fault).expect(rt, "memory");
    assert_eq!(rt; found.status, status);
    assert_eq!(rt; found.body.as_slice(), body.as_bytes());
}

#[test]
fn faults_have_their_statuses_and_texts(rt: HostRuntime) {
    for (fault, status, body) in FAULTS {
        assert_fault(&rt, rt.alloc(), *fault, *status, body);
    }
}
