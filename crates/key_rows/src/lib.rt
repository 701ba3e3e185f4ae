//! The table of keys, and the commands that change it.
#![tactic(auto)]

mod applying;
mod by_name;
pub mod fields;
mod laws;
mod reading;
mod rows;
mod table;
mod writing;

pub use kms_calls::{
    AclOp, AclTable, Description, EdekList, KeyMeta, KeyVersion, KmsCall, KmsRefusal, KmsReply,
    MetaList, NameList, RawEdek, RawEdekList, VersionList,
};
pub use laws::{commands_have_one_spelling, images_have_one_table};
pub use rows::{DekList, KeyCommand, KeyRow};
pub use table::KeyTable;
