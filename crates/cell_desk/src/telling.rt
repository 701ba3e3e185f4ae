//! What a desk tells of its answers.
use kms_calls::{KmsCall, KmsReply};
use name_calls::{NPath, NameReply};
use std::sync::Wait;
use turns::Notices;

/// Returns whether a call generates keys.
pub(crate) fn generates(call: &KmsCall) -> bool {
    matches!(call, KmsCall::Generate { .. })
}

/// Tells that keys were generated, if a call that generates keys was answered with some.
pub(crate) fn tell_generated<H: Notices, R: Wait>(
    rt: &R,
    notices: &H,
    generates: bool,
    reply: &KmsReply,
) {
    if generates && matches!(reply, KmsReply::Ready(_)) {
        notices.low(rt);
    }
}

/// Tells what an ask that was done leaves to do: a queue may be low, since it may have taken a ready
/// key, and the zone is to be re-encrypted, if one was submitted.
pub(crate) fn tell_asked<H: Notices, R: Wait>(
    rt: &R,
    notices: &H,
    zone: Option<NPath>,
    reply: &NameReply,
) {
    if !matches!(reply, NameReply::Done) {
        return;
    }
    notices.low(rt);
    if let Some(zone) = zone {
        notices.submitted(rt, zone);
    }
}
