//! Lists of the entries of a directory.
use hk_base::{Listing, Text};

/// An entry of a directory: its name, and whether it is a directory.
#[derive(Drop)]
pub struct Child {
    pub name: Text,
    pub directory: bool,
}

/// The entries of a directory.
pub type ChildList = Listing<Child>;
