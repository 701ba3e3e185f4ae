//! What a request asks of the namesystem.
use name_calls::{Ask, NameCall};

/// What a request asks of the namesystem: a call, or an ask, which is a change with a call of the key
/// management service in between.
#[derive(Drop)]
pub enum NameOrder {
    Call(NameCall),
    Ask(Ask),
}
