//! The calls and replies of the key management service.
#![tactic(auto)]

mod acl;
mod calls;
mod description;
mod lists;
mod refusals;

pub use acl::{AclOp, AclTable};
pub use calls::{KeyMeta, KeyVersion, KmsCall, KmsRefusal, KmsReply, RawEdek};
pub use description::Description;
pub use lists::{EdekList, MetaList, NameList, RawEdekList, VersionList};
