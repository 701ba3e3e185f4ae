//! The namesystem over REST: the order of a request, a call of the namesystem or an ask, and the
//! response of a reply. Messages are read and written by `http_wire`.
#![tactic(auto)]

mod bodies;
mod faults;
mod laws;
mod lazy_router;
mod operation;
mod order;
mod orders;
mod query;
mod requests;
mod responses;
mod routes;

pub use faults::NameRestFault;
pub use http_wire::Response;
pub use laws::requests_have_one_answer;
pub use lazy_router::LazyRouter;
pub use order::NameOrder;
pub use requests::{to_name, to_name_with};
pub use responses::{respond_name, respond_name_fault};
