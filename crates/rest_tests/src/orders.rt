//! The orders of requests to the namesystem, and the first fault of each request. Nothing serves them
//! yet.
use disk_kinds::MemSource;
use hk_base::Text;
use http_wire::{ReadBuffer, read_request};
use name_calls::{Ask, NameCall};
use name_rest::{NameOrder, NameRestFault, to_name};
use std::alloc::Global;
use std::process::Abort;

/// Reads the order of a request with this line, up to the version.
fn read(rt: &impl Abort, alloc: Global, line: &str) -> Result<(Text, NameOrder), NameRestFault> {
    let mut bytes = Vec::from_slice(alloc, line.as_bytes()).expect(rt, "memory");
    let more = bytes.extend_from_slice(b" HTTP/1.1\r\n\r\n");
    more.expect(rt, "memory");
    let mut source = MemSource::new(bytes, 4096, Vec::new(alloc));
    let mut buffer = ReadBuffer::new();
    let request = read_request(alloc, &mut source, &mut buffer).expect(rt, "a request");
    to_name(alloc, &request)
}

fn call_text(call: &NameCall) -> &'static str {
    match call {
        NameCall::Mkdir { .. } => "mkdir",
        NameCall::Delete {
            recursive: true,
            ..
        } => "delete all",
        NameCall::Delete {
            recursive: false,
            ..
        } => "delete",
        NameCall::Rename { .. } => "rename",
        NameCall::Info { .. } => "info",
        NameCall::List { .. } => "list",
        NameCall::Allow { .. } => "allow",
        NameCall::Disallow { .. } => "disallow",
        NameCall::Snap { .. } => "snap",
        NameCall::Unsnap { .. } => "unsnap",
        NameCall::Cancel { .. } => "cancel",
        NameCall::Status { .. } => "status",
        NameCall::Zones => "zones",
    }
}

fn ask_text(ask: &Ask) -> &'static str {
    match ask {
        Ask::Create { .. } => "create",
        Ask::Zone { .. } => "zone",
        Ask::Submit { .. } => "submit",
    }
}

fn order_text(order: &NameOrder) -> &'static str {
    match order {
        NameOrder::Call(call) => call_text(call),
        NameOrder::Ask(ask) => ask_text(ask),
    }
}

const ORDERS: &[(&str, &str)] = &[
    ("POST /nn/v1/mkdir?path=/a&user.name=alice", "mkdir"),
    ("POST /nn/v1/create?user.name=alice&path=%2Fa%2Fb", "create"),
    ("POST /nn/v1/delete?path=/a&user.name=alice", "delete"),
    (
        "POST /nn/v1/delete?path=/a&recursive=false&user.name=alice",
        "delete",
    ),
    (
        "POST /nn/v1/delete?path=/a&recursive=true&user.name=alice",
        "delete all",
    ),
    ("POST /nn/v1/rename?path=/a&to=/b&user.name=alice", "rename"),
    ("POST /nn/v1/zone?path=/a&key=k&user.name=hdfs", "zone"),
    ("POST /nn/v1/reencrypt?path=/a&user.name=hdfs", "submit"),
    ("POST /nn/v1/cancel?path=/a&user.name=hdfs", "cancel"),
    ("POST /nn/v1/allow?path=/a&user.name=hdfs", "allow"),
    ("POST /nn/v1/disallow?path=/a&user.name=hdfs", "disallow"),
    (
        "POST /nn/v1/snapshot?path=/a&name=s&user.name=alice",
        "snap",
    ),
    (
        "POST /nn/v1/unsnapshot?path=/a&name=s&user.name=alice",
        "unsnap",
    ),
    ("GET /nn/v1/info?path=/&user.name=alice", "info"),
    (
        "GET /nn/v1/info?path=/a/.snapshot/s/b&user.name=alice",
        "info",
    ),
    (
        "GET /nn/v1/list?path=/a/.snapshot/s&user.name=alice",
        "list",
    ),
    ("GET /nn/v1/status?path=/a&user.name=hdfs", "status"),
    ("GET /nn/v1/zones?user.name=hdfs", "zones"),
    ("GET /nn/v1/zones?user.name=hdfs&path=a&path=b", "zones"),
];

fn assert_order(rt: &impl Abort, alloc: Global, line: &str, text: &str) {
    match read(rt, alloc, line) {
        Ok((_, order)) => assert_eq!(rt; order_text(&order), text),
        Err(_) => assert!(rt; false),
    }
}

#[test]
fn each_route_has_its_order(rt: HostRuntime) {
    for (line, text) in ORDERS {
        assert_order(&rt, rt.alloc(), line, text);
    }
}

const FAULTS: &[(&str, NameRestFault)] = &[
    ("POST /nn/v1", NameRestFault::NoRoute),
    ("POST /nn/v1/mkdir/", NameRestFault::NoRoute),
    ("POST /nn/v1/%6dkdir", NameRestFault::NoRoute),
    ("GET /nn/v1/mkdir", NameRestFault::BadMethod),
    ("POST /nn/v1/zones", NameRestFault::BadMethod),
    ("DELETE /nn/v1/delete", NameRestFault::BadMethod),
    ("POST /nn/v1/mkdir", NameRestFault::NoUser),
    ("POST /nn/v1/mkdir?user.name=", NameRestFault::NoUser),
    ("POST /nn/v1/mkdir?user.name=a", NameRestFault::BadRequest),
    (
        "POST /nn/v1/mkdir?path=/a&path=/a&user.name=a",
        NameRestFault::BadRequest,
    ),
    (
        "POST /nn/v1/mkdir?path=/a&user.name=a&doAs=b",
        NameRestFault::BadRequest,
    ),
    (
        "POST /nn/v1/delete?path=a&recursive=1&user.name=a",
        NameRestFault::BadRequest,
    ),
    (
        "POST /nn/v1/rename?path=a&user.name=a",
        NameRestFault::BadRequest,
    ),
    (
        "POST /nn/v1/zone?path=a&key=a%2Fb&user.name=a",
        NameRestFault::BadRequest,
    ),
    (
        "POST /nn/v1/snapshot?path=a&user.name=a",
        NameRestFault::BadRequest,
    ),
    ("GET /nn/v1/info?user.name=a", NameRestFault::BadRequest),
    (
        "POST /nn/v1/mkdir?path=a&user.name=a",
        NameRestFault::BadPath,
    ),
    (
        "POST /nn/v1/mkdir?path=/a/.snapshot/s&user.name=a",
        NameRestFault::BadPath,
    ),
    (
        "POST /nn/v1/rename?path=/a&to=b&user.name=a",
        NameRestFault::BadPath,
    ),
    (
        "POST /nn/v1/snapshot?path=/a&name=a%2Fb&user.name=a",
        NameRestFault::BadPath,
    ),
    (
        "GET /nn/v1/list?path=/a/.snapshot/&user.name=a",
        NameRestFault::BadPath,
    ),
];

fn assert_fault(rt: &impl Abort, alloc: Global, line: &str, wanted: NameRestFault) {
    match read(rt, alloc, line) {
        Ok(_) => assert!(rt; false),
        Err(fault) => assert_eq!(rt; fault, wanted),
    }
}

#[test]
fn the_first_fault_counts(rt: HostRuntime) {
    for (line, fault) in FAULTS {
        assert_fault(&rt, rt.alloc(), line, *fault);
    }
}
