//! How a server ends.

/// How a server ended.
#[derive(Clone, Copy, Debug, PartialEq, Eq)]
pub enum ServeEnd {
    /// As many connections were served as it was told.
    Served,
    /// The door took no more connections.
    Closed,
    /// The door failed.
    DoorFault,
    /// Allocation failed.
    NoMemory,
}
