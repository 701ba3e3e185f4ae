//! Handles on connections that run.
use server_parts::HangUp;
use std::alloc::Global;
use std::sync::{Arc, Mutex, Wait};

/// A share in the handle on a connection. The acceptor and the thread of the connection have one each.
/// The thread drops the handle when the connection has ended, since it may hold a descriptor.
#[derive(Drop)]
pub struct SharedHandle<H: Drop> {
    /// Nothing if there was no memory to share the handle.
    shared: Option<Arc<Mutex<Option<H>>, Global>>,
}

impl<H: HangUp + Drop> SharedHandle<H> {
    /// Returns two shares in a handle.
    pub fn pair(alloc: Global, handle: H) -> (SharedHandle<H>, SharedHandle<H>) {
        let first = Arc::new(alloc, Mutex::new(Some(handle))).ok();
        let second = match &first {
            Some(shared) => Arc::try_clone(shared).ok(),
            None => None,
        };
        (
            SharedHandle { shared: first },
            SharedHandle { shared: second },
        )
    }

    /// Ends the connection, as `HangUp::hang_up` does.
    pub fn hang_up<R: Wait>(&self, rt: &R) {
        if let Some(shared) = &self.shared {
            if let Some(handle) = shared.lock(rt).as_ref() {
                handle.hang_up();
            }
        }
    }

    /// Returns since when the connection has waited for a request, if it waits.
    pub fn waits_since<R: Wait>(&self, rt: &R) -> Option<u64> {
        let shared = self.shared.as_ref()?;
        let since = match shared.lock(rt).as_ref() {
            Some(handle) => handle.waits_since(),
            None => None,
        };
        since
    }

    /// Returns whether the connection is known to have ended.
    pub fn has_ended<R: Wait>(&self, rt: &R) -> bool {
        match &self.shared {
            Some(shared) => shared.lock(rt).is_none(),
            None => false,
        }
    }

    /// Drops the handle: the connection has ended.
    pub fn end<R: Wait>(&self, rt: &R) {
        if let Some(shared) = &self.shared {
            let handle = shared.lock(rt).take();
            drop(handle);
        }
    }
}
