//! Serving a connection.
ghost use Rattle.std.specs.Prelude.{◌≡◌, ◌≤◌, ◌<◌, ◌^◌, ◌↔◌, [], ℕ, List, Err, Some, IfOk, OnErr, OnOk, IsTrue};
ghost use Rattle.std.specs.Io.KnownBytes.{Appends};
ghost use Rattle.hk_base.specs.Faults.{Rose};
ghost use Rattle.hk_base.specs.Writing.{WroteFront};
ghost use Rattle.http_wire.specs.Reading.{ahead};
ghost use Rattle.http_wire.specs.Responses.{IsStatus};
ghost use Rattle.kms_rest.specs.Requests.{Says};
ghost use Rattle.hk_serve.specs.Exchanges.{IsForNames, IsForPage, IsForServices, IsGet, Leaves, RequestOutcome, ServicesSay, sent_text};
ghost use Rattle.hk_serve.specs.Served.{Served};
ghost use Rattle.hk_serve.specs.Turns.{Answered, Responds, GoesOnAfter, SendsSo, ServicesAnswered, Turns};

use crate::asks::{ask_keys, ask_names};
use crate::desk::Desk;
use crate::pages::{is_get, page_of, send_text};
use crate::refusals::{ended_by, stop};
use hk_base::{Ended, NoMemory, Sink, Source};
use http_wire::{
    ReadBuffer, Request, Response, SendFault, read_request, write_head, write_response,
};
use kms_rest::{LazyRouter as KeysRouter, RestFault, respond_fault, to_call_with};
use name_rest::{LazyRouter as NamesRouter, respond_name_fault, to_name_with};
use service_health::{Page, method_response, page_response};
use std::alloc::Global;

/// The number of bytes at which a connection ends: 2^40 in all its requests.
const LONGEST_CONNECTION: u64 = 1 << 40;

/// A connection between two requests.
#[derive(Drop)]
struct Connection {
    alloc: Global,
    buffer: ReadBuffer,
    keys: KeysRouter,
    names: NamesRouter,
    /// The length of its requests so far.
    bytes: u64,
}

fn is_no_route(fault: RestFault) -> bool
    ensures { IsTrue result ↔ (fault ≡ RestFault.NoRoute) }
{
    matches!(fault, RestFault::NoRoute)
}

/// Writes a response, or its head alone.
fn send<K: Sink>(
    alloc: Global,
    sink: &mut K,
    head: bool,
    response: &Response,
) -> Result<(), SendFault>
    requires { IsStatus response.now.status }
    ensures ok { OnOk result
        (Appends (K.written sink.old) (K.written sink.new)
        (sent_text head response.now.status response.now.body)) }
    ensures err { OnErr result
        (WroteFront (K.written sink.old) (K.written sink.new)
        (sent_text head response.now.status response.now.body)) }
    ensures no_memory { result ≡ Err SendFault.NoMemory → K.written sink.new ≡ K.written sink.old }

    ensures later { K.faults sink.old ≤ K.faults sink.new }
    ensures write_fault { result ≡ Err SendFault.WriteFault →
        Rose (K.faults sink.old) (K.faults sink.new) }
{
    let body = response.body.as_slice();
    if head {
        return write_head(alloc, sink, response.status, body);
    }
    write_response(alloc, sink, response.status, body)
}

impl Connection {
    fn new(alloc: Global) -> Connection
        ensures buffer { result.buffer ≡ [] }
        ensures bytes { result.bytes ≡ 0 }
    {
        Connection {
            alloc,
            buffer: ReadBuffer::new(),
            keys: KeysRouter::new(alloc),
            names: NamesRouter::new(alloc),
            bytes: 0,
        }
    }

    /// Returns the response to a request. If the request is a call or an order, it is passed to the
    /// desk. It is one of the namesystem if the key management service has no route with its path.
    fn response_to<E: Desk>(
        &mut self,
        request: &Request,
        desk: &mut E,
    ) -> Result<Response, NoMemory>
        requires { E.ready desk.old }
        ensures comes { (outcome : RequestOutcome) ×
            (ServicesSay request.now outcome ×
            (Leaves E.answers desk.old outcome desk.new × IfOk result (Responds outcome))) }
        ensures ready { E.ready desk.new }
        ensures same { (self.new.buffer ≡ self.old.buffer) × (self.new.bytes ≡ self.old.bytes) }
    {
        match to_call_with(self.alloc, &mut self.keys, request) {
            Ok((user, call)) => ask_keys(self.alloc, desk, user, call),
            Err(fault) => self.response_without_call(request, desk, fault),
        }
    }

    /// Returns the response to a request that is not a call of the key management service.
    fn response_without_call<E: Desk>(
        &mut self,
        request: &Request,
        desk: &mut E,
        fault: RestFault,
    ) -> Result<Response, NoMemory>
        requires ready { E.ready desk.old }
        requires says { Says request.now (Err fault) }
        ensures comes { (outcome : RequestOutcome) ×
            (ServicesSay request.now outcome ×
            (Leaves E.answers desk.old outcome desk.new × IfOk result (Responds outcome))) }
        ensures ready { E.ready desk.new }
        ensures same { (self.new.buffer ≡ self.old.buffer) × (self.new.bytes ≡ self.old.bytes) }
    {
        if is_no_route(fault) {
            return self.names_response_to(request, desk);
        }
        respond_fault(self.alloc, fault)
    }

    /// Returns the response to a request of the namesystem.
    fn names_response_to<E: Desk>(
        &mut self,
        request: &Request,
        desk: &mut E,
    ) -> Result<Response, NoMemory>
        requires ready { E.ready desk.old }
        requires names { IsForNames request.now }
        ensures comes { (outcome : RequestOutcome) ×
            (ServicesSay request.now outcome ×
            (Leaves E.answers desk.old outcome desk.new × IfOk result (Responds outcome))) }
        ensures ready { E.ready desk.new }
        ensures same { (self.new.buffer ≡ self.old.buffer) × (self.new.bytes ≡ self.old.bytes) }
    {
        match to_name_with(self.alloc, &mut self.names, request) {
            Ok((user, order)) => ask_names(self.alloc, desk, user, order),
            Err(fault) => respond_name_fault(self.alloc, fault),
        }
    }

    /// Counts the bytes of a request that was answered. Returns `None` if the connection goes on.
    fn after(&mut self, request: &Request) -> Option<Ended>
        requires { self.old.bytes < 2 ^ 40 }
        ensures goes_on { GoesOnAfter request.now self.old.bytes self.new.bytes result }
        ensures same { self.new.buffer ≡ self.old.buffer }
    {
        self.bytes = self.bytes.saturating_add(request.size);
        if !request.keep {
            return Some(Ended::Closed);
        }
        if self.bytes >= LONGEST_CONNECTION {
            return Some(Ended::TooLong);
        }
        None
    }

    /// Answers a request for the services. Returns `None` if the connection goes on.
    fn answer_by_services<K: Sink, E: Desk>(
        &mut self,
        request: &Request,
        sink: &mut K,
        desk: &mut E,
    ) -> Option<Ended>
        requires ready { E.ready desk.old }
        requires few { self.old.bytes < 2 ^ 40 }
        ensures answered { ServicesAnswered E.answers request.now self.old.bytes self.new.bytes
            desk.old desk.new (K.written sink.old) (K.written sink.new) result }
        ensures ready { E.ready desk.new }
        ensures same { self.new.buffer ≡ self.old.buffer }
        ensures later { K.faults sink.old ≤ K.faults sink.new }
        ensures write_fault { result ≡ Some Ended.WriteFault →
            Rose (K.faults sink.old) (K.faults sink.new) }
        ensures no_read_fault { result ≡ Some Ended.ReadFault → ⊥ }
    {
        let Ok(response) = self.response_to(request, desk) else {
            return Some(Ended::NoMemory);
        };
        let sent = send(self.alloc, sink, request.is_head(), &response);
        drop(response);
        match sent {
            Ok(()) => self.after(request),
            Err(fault) => Some(ended_by(fault)),
        }
    }

    /// Writes the text of the response to a request. Returns `None` if the connection goes on.
    fn send_page<K: Sink>(&mut self, request: &Request, sink: &mut K, text: &[u8]) -> Option<Ended>
        requires few { self.old.bytes < 2 ^ 40 }
        ensures sends { SendsSo request.now text.now self.old.bytes self.new.bytes
            (K.written sink.old) (K.written sink.new) result }
        ensures same { self.new.buffer ≡ self.old.buffer }
        ensures later { K.faults sink.old ≤ K.faults sink.new }
        ensures write_fault { result ≡ Some Ended.WriteFault →
            Rose (K.faults sink.old) (K.faults sink.new) }
        ensures no_read_fault { result ≡ Some Ended.ReadFault → ⊥ }
    {
        match send_text(sink, text) {
            Ok(()) => self.after(request),
            Err(fault) => Some(ended_by(fault)),
        }
    }

    /// Answers a request for a page by another method than GET, without the desk. Returns `None` if the
    /// connection goes on.
    fn refuse_method<K: Sink, E: Desk>(
        &mut self,
        page: Page,
        request: &Request,
        sink: &mut K,
        _desk: &mut E,
    ) -> Option<Ended>
        requires page { IsForPage request.now page }
        requires method { ¬ IsGet request.now }
        requires ready { E.ready _desk.old }
        requires few { self.old.bytes < 2 ^ 40 }
        ensures answered { Answered E.answers request.now self.old.bytes self.new.bytes _desk.old
            _desk.new (K.written sink.old) (K.written sink.new) result }
        ensures ready { E.ready _desk.new }
        ensures same { self.new.buffer ≡ self.old.buffer }
        ensures later { K.faults sink.old ≤ K.faults sink.new }
        ensures write_fault { result ≡ Some Ended.WriteFault →
            Rose (K.faults sink.old) (K.faults sink.new) }
        ensures no_read_fault { result ≡ Some Ended.ReadFault → ⊥ }
    {
        let Ok(text) = method_response(self.alloc, request.is_head()) else {
            return Some(Ended::NoMemory);
        };
        let ended = self.send_page(request, sink, text.as_slice());
        drop(text);
        ended
    }

    /// Answers a request for a page. Returns `None` if the connection goes on.
    fn show_page<K: Sink, E: Desk>(
        &mut self,
        page: Page,
        request: &Request,
        sink: &mut K,
        desk: &mut E,
    ) -> Option<Ended>
        requires page { IsForPage request.now page }
        requires method { IsGet request.now }
        requires ready { E.ready desk.old }
        requires few { self.old.bytes < 2 ^ 40 }
        ensures answered { Answered E.answers request.now self.old.bytes self.new.bytes desk.old
            desk.new (K.written sink.old) (K.written sink.new) result }
        ensures ready { E.ready desk.new }
        ensures same { self.new.buffer ≡ self.old.buffer }
        ensures later { K.faults sink.old ≤ K.faults sink.new }
        ensures write_fault { result ≡ Some Ended.WriteFault →
            Rose (K.faults sink.old) (K.faults sink.new) }
        ensures no_read_fault { result ≡ Some Ended.ReadFault → ⊥ }
    {
        let counts = desk.look(page);
        let Ok(text) = page_response(self.alloc, page, &counts) else {
            return Some(Ended::NoMemory);
        };
        let ended = self.send_page(request, sink, text.as_slice());
        drop(text);
        ended
    }

    /// Answers a request for a page by its method. Returns `None` if the connection goes on.
    fn answer_page<K: Sink, E: Desk>(
        &mut self,
        page: Page,
        request: &Request,
        sink: &mut K,
        desk: &mut E,
    ) -> Option<Ended>
        requires page { IsForPage request.now page }
        requires ready { E.ready desk.old }
        requires few { self.old.bytes < 2 ^ 40 }
        ensures answered { Answered E.answers request.now self.old.bytes self.new.bytes desk.old
            desk.new (K.written sink.old) (K.written sink.new) result }
        ensures ready { E.ready desk.new }
        ensures same { self.new.buffer ≡ self.old.buffer }
        ensures later { K.faults sink.old ≤ K.faults sink.new }
        ensures write_fault { result ≡ Some Ended.WriteFault →
            Rose (K.faults sink.old) (K.faults sink.new) }
        ensures no_read_fault { result ≡ Some Ended.ReadFault → ⊥ }
    {
        if is_get(request) {
            return self.show_page(page, request, sink, desk);
        }
        self.refuse_method(page, request, sink, desk)
    }

    /// Answers a request. Returns `None` if the connection goes on.
    #[tactic(auto, using(crate::proofs::PageLemmas::services_answered))]
    fn answer<K: Sink, E: Desk>(
        &mut self,
        request: &Request,
        sink: &mut K,
        desk: &mut E,
    ) -> Option<Ended>
        requires ready { E.ready desk.old }
        requires few { self.old.bytes < 2 ^ 40 }
        ensures answered { Answered E.answers request.now self.old.bytes self.new.bytes desk.old
            desk.new (K.written sink.old) (K.written sink.new) result }
        ensures ready { E.ready desk.new }
        ensures same { self.new.buffer ≡ self.old.buffer }
        ensures later { K.faults sink.old ≤ K.faults sink.new }
        ensures write_fault { result ≡ Some Ended.WriteFault →
            Rose (K.faults sink.old) (K.faults sink.new) }
        ensures no_read_fault { result ≡ Some Ended.ReadFault → ⊥ }
    {
        match page_of(request) {
            Some(page) => self.answer_page(page, request, sink, desk),
            None => self.answer_by_services(request, sink, desk),
        }
    }

    /// Reads a request and answers it. Returns `None` if the connection goes on.
    fn turn<S: Source, K: Sink, E: Desk>(
        &mut self,
        source: &mut S,
        sink: &mut K,
        desk: &mut E,
    ) -> Option<Ended>
        requires ready { E.ready desk.old }
        requires few { self.old.bytes < 2 ^ 40 }
        ensures turns { Turns E.answers self.old.bytes self.new.bytes
            (record {
              ahead = ahead self.old.buffer (S.left source.old);
              desk = desk.old;
              written = K.written sink.old;
            }) result
            (record {
              ahead = ahead self.new.buffer (S.left source.new);
              desk = desk.new;
              written = K.written sink.new;
            }) }
        ensures ready { E.ready desk.new }
        ensures read_later { S.faults source.old ≤ S.faults source.new }
        ensures read_fault { result ≡ Some Ended.ReadFault →
            Rose (S.faults source.old) (S.faults source.new) }
        ensures write_later { K.faults sink.old ≤ K.faults sink.new }
        ensures write_fault { result ≡ Some Ended.WriteFault →
            Rose (K.faults sink.old) (K.faults sink.new) }
    {
        match read_request(self.alloc, source, &mut self.buffer) {
            Ok(request) => self.answer(&request, sink, desk),
            Err(fault) => Some(stop(self.alloc, sink, fault)),
        }
    }

    /// Serves the connection to its end.
    fn run<S: Source, K: Sink, E: Desk>(
        &mut self,
        source: &mut S,
        sink: &mut K,
        desk: &mut E,
    ) -> Ended
        requires ready { E.ready desk.old }
        requires fresh { self.old.bytes ≡ 0 }
        ensures served { Served E.answers
            (record {
              ahead = ahead self.old.buffer (S.left source.old);
              desk = desk.old;
              written = K.written sink.old;
            })
            (record {
              ahead = ahead self.new.buffer (S.left source.new);
              desk = desk.new;
              written = K.written sink.new;
            }) result }
        ensures ready { E.ready desk.new }
        ensures read_later { S.faults source.old ≤ S.faults source.new }
        ensures read_fault { result ≡ Ended.ReadFault →
            Rose (S.faults source.old) (S.faults source.new) }
        ensures write_later { K.faults sink.old ≤ K.faults sink.new }
        ensures write_fault { result ≡ Ended.WriteFault →
            Rose (K.faults sink.old) (K.faults sink.new) }
    {
        'requests: loop {
            match self.turn(source, sink, desk) {
                None => {}
                Some(ended) => return ended,
            }
        }
    }
}

/// Serves the requests of a connection in order (RFC 9112). It reads a request from the source, passes
/// its call or order to the desk, and writes the response to the sink before it reads the next request.
/// A request with the method HEAD gets the head of its response alone (RFC 9110).
/// The desk gets no others, but it is asked to look at both services for a GET of `/`, `/health` or
/// `/metrics`. Another method is answered there by 405. A request is one of the namesystem if the key management service has no
/// route with its path. A request that is neither a call nor an order is answered without the desk. If
/// there is no memory to read it, the answer is K13 or N22 with status 503.
///
/// The connection ends:
/// - at the end of the input;
/// - after the response to a request that closes it, or with which its requests have 2^40 bytes or more;
/// - at bytes that are not a request. They are answered as `docs/rest.md` says, unless the input ended
///   within them;
/// - if the source or the sink fails. A prefix of the response may have been written;
/// - if there is no memory for a request or for a response. Nothing more is written.
///
/// A call or an order that the desk answered keeps its effect even if its response was not written.
pub fn serve_conn<S: Source, K: Sink, E: Desk>(
    alloc: Global,
    source: &mut S,
    sink: &mut K,
    desk: &mut E,
) -> Ended
    requires { E.ready desk.old }
    // Bytes that were read past the last request are unused.
    ensures served { (unused : List ℕ) × Served E.answers
        (record { ahead = S.left source.old; desk = desk.old; written = K.written sink.old })
        (record {
          ahead = ahead unused (S.left source.new);
          desk = desk.new;
          written = K.written sink.new;
        }) result }
    ensures ready { E.ready desk.new }

    ensures read_later { S.faults source.old ≤ S.faults source.new }
    ensures read_fault { result ≡ Ended.ReadFault →
        Rose (S.faults source.old) (S.faults source.new) }
    ensures write_later { K.faults sink.old ≤ K.faults sink.new }
    ensures write_fault { result ≡ Ended.WriteFault → Rose (K.faults sink.old) (K.faults sink.new) }
{
    let mut connection = Connection::new(alloc);
    connection.run(source, sink, desk)
}
