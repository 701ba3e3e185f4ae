//! Both services as threads share them: the calls and the turns that connections and workers make. docs/threads.md has
//! the whole picture.
#![tactic(auto)]

mod lent;
mod notices;
mod services;

pub use lent::Lent;
pub use notices::{NoNotices, Notices};
pub use services::Turns;
