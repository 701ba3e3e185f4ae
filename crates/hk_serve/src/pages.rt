//! The pages of a server, among the requests of a connection.
ghost use Rattle.std.specs.Prelude.{◌≡◌, ◌≢◌, ◌≤◌, ◌↔◌, Err, IsTrue, MatchOption, OnErr, OnOk};
ghost use Rattle.std.specs.Io.KnownBytes.{Appends};
ghost use Rattle.hk_base.specs.Faults.{Rose};
ghost use Rattle.hk_base.specs.Writing.{WroteFront};
ghost use Rattle.hk_serve.specs.Exchanges.{IsForPage, IsForServices, IsGet};

use hk_base::{Sink, write_all};
use http_wire::{Request, SendFault};
use path_routes::path_of;
use service_health::{Page, page_at};

/// Returns the page that a request is for, or `None` if it is for the services.
pub(crate) fn page_of(request: &Request) -> Option<Page>
    ensures { MatchOption result (IsForServices request.now) (λ page. IsForPage request.now page) }
{
    page_at(path_of(request.target_text()))
}

/// Returns whether the method is GET.
pub(crate) fn is_get(request: &Request) -> bool
    ensures { IsTrue result ↔ IsGet request.now }
{
    request.method.as_slice() == b"GET".as_slice()
}

/// Writes the text of a response.
pub(crate) fn send_text<K: Sink>(sink: &mut K, text: &[u8]) -> Result<(), SendFault>
    ensures ok { OnOk result (Appends (K.written sink.old) (K.written sink.new) text.now) }
    ensures err { OnErr result (WroteFront (K.written sink.old) (K.written sink.new) text.now) }
    ensures no_memory { result ≢ Err SendFault.NoMemory }
    ensures later { K.faults sink.old ≤ K.faults sink.new }
    ensures write_fault { result ≡ Err SendFault.WriteFault →
        Rose (K.faults sink.old) (K.faults sink.new) }
{
    match write_all(sink, text) {
        Ok(()) => Ok(()),
        Err(_) => Err(SendFault::WriteFault),
    }
}
