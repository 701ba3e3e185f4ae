//! The pages on which a server tells of itself, for health checks and monitoring: each as text, made from
//! counts of both services. A page has no name and no material of a key, and no path of a file.
#![tactic(auto)]

mod counts;
mod health;
mod home;
mod metrics;
mod pages;
mod pieces;
mod responses;

pub use counts::{CallCounts, CallEnd, CallNote, CallTotals, Service, ServiceCounts};
pub use pages::{Page, page_at};
pub use responses::{method_response, page_response};
