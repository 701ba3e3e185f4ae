//! Calls that change a service wait for each other before they wait for its cell. So a call that reads
//! waits for the change that is being written, and seldom for those behind it.
use kms_calls::KmsCall;
use name_calls::NameCall;
use std::sync::{Mutex, MutexGuard, Wait};

/// Returns whether a call may write to the key log.
pub(crate) fn changes_keys(call: &KmsCall) -> bool {
    matches!(
        call,
        KmsCall::Create { .. } | KmsCall::Roll { .. } | KmsCall::Delete { .. }
    )
}

/// Returns whether a call may write to the edit log.
pub(crate) fn changes_names(call: &NameCall) -> bool {
    !matches!(
        call,
        NameCall::Info { .. } | NameCall::List { .. } | NameCall::Status { .. } | NameCall::Zones
    )
}

/// Waits for the calls that change a service, if the caller is one of them.
pub(crate) fn lock_if<'a, R: Wait>(
    rt: &R,
    changes: &'a Mutex<()>,
    wanted: bool,
) -> Option<MutexGuard<'a, ()>> {
    if wanted { Some(changes.lock(rt)) } else { None }
}
