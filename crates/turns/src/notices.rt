//! What a desk tells the workers.
use name_calls::NPath;
use service_health::{CallCounts, CallNote};
use std::sync::Wait;

/// What a desk tells of the requests that it answered, before the response is written. A server sends
/// its workers what they shall do then. Telling cannot fail, it may wait, and nothing else follows from
/// it.
pub trait Notices {
    /// Keys were generated, so a queue of ready keys may be low.
    fn low<R: Wait>(&self, rt: &R);

    /// The zone at a path is to be re-encrypted.
    fn submitted<R: Wait>(&self, rt: &R, zone: NPath);

    /// A call was answered.
    fn answered<R: Wait>(&self, rt: &R, note: CallNote);

    /// Returns the counts of the calls that were answered.
    fn counts<R: Wait>(&self, rt: &R) -> CallCounts;
}

/// Tells nobody, and counts nothing.
#[derive(Clone, Copy, Debug)]
pub struct NoNotices;

impl Notices for NoNotices {
    fn low<R: Wait>(&self, _rt: &R) {}

    fn submitted<R: Wait>(&self, _rt: &R, _zone: NPath) {}

    fn answered<R: Wait>(&self, _rt: &R, _note: CallNote) {}

    fn counts<R: Wait>(&self, _rt: &R) -> CallCounts {
        CallCounts::new()
    }
}
