//! The key management service over REST: the call of a request, and the response of a reply. Bodies
//! are read and written by `kms_json`, messages by `http_wire`.
#![tactic(auto)]

mod calls;
mod faults;
mod laws;
mod lazy_router;
mod operation;
mod place;
mod query;
mod requests;
mod responses;
mod routes;

pub use faults::RestFault;
pub use http_wire::Response;
pub use laws::requests_have_one_answer;
pub use lazy_router::LazyRouter;
pub use operation::Operation;
pub use requests::{to_call, to_call_with};
pub use responses::{refusal_status, respond, respond_fault};
