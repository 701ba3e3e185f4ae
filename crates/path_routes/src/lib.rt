//! The targets of REST requests: the routes of paths, the parameters of queries, and the user that a
//! request names.
#![tactic(auto)]

mod query;
mod routes;
mod target;
mod user;

pub use query::{Given, Parameter, Query, decoded};
pub use routes::add_route;
pub use target::{path_of, query_of};
pub use user::{UserFault, read_user};
