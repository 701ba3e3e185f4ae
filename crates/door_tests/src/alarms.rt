//! Alarms for tests.
use disk_kinds::Alarm;
use std::alloc::Global;
use std::process::Abort;
use std::sync::Arc;

/// Creates an alarm that is not raised.
pub fn new_alarm(rt: &(impl Abort + AllocGlobal)) -> Arc<Alarm, Global> {
    match Arc::new(rt.alloc(), Alarm::new()) {
        Ok(alarm) => alarm,
        Err(_) => rt.abort(),
    }
}
