//! The length of a request, and a response that only a lack of memory brings.
use disk_kinds::{MemSink, MemSource};
use http_wire::{ReadBuffer, read_request, write_response};
use std::alloc::Global;
use std::process::Abort;

/// Two requests, of 42 and 19 bytes.
const REQUESTS: &[u8] = b"POST /1 HTTP/1.1\r\nContent-Length: 3\r\n\r\nabcGET /2 HTTP/1.1\r\n\r\n";

fn assert_size(
    rt: &impl Abort,
    alloc: Global,
    source: &mut MemSource,
    buffer: &mut ReadBuffer,
    size: u64,
) {
    let request = read_request(alloc, source, buffer).expect(rt, "a request");
    assert_eq!(rt; request.size, size);
}

#[test]
fn a_request_counts_its_own_bytes(rt: HostRuntime) {
    let bytes = Vec::from_slice(rt.alloc(), REQUESTS).expect(&rt, "memory");
    let mut source = MemSource::new(bytes, 4096, Vec::new(rt.alloc()));
    let mut buffer = ReadBuffer::new();
    assert_size(&rt, rt.alloc(), &mut source, &mut buffer, 42);
    assert_size(&rt, rt.alloc(), &mut source, &mut buffer, 19);
}

fn assert_written(rt: &impl Abort, sink: &MemSink, text: &[u8]) {
    assert_eq!(rt; sink.as_slice(), text);
}

#[test]
fn a_lack_of_memory_has_a_response(rt: HostRuntime) {
    let mut sink = MemSink::new(rt.alloc(), 1000, Vec::new(rt.alloc()));
    let given = write_response(rt.alloc(), &mut sink, 503, b"");
    given.expect(&rt, "a sink that takes all");
    assert_written(
        &rt,
        &sink,
        b"HTTP/1.1 503 Service Unavailable\r\nContent-Length: 0\r\n\r\n",
    );
}
