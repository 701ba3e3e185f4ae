//! Why a service could not be opened.
use frame_log::StartFault;

/// Why a service could not be opened: the number of the file of its log, and the fault.
#[derive(Clone, Copy, Debug, PartialEq, Eq)]
pub struct WorldFault {
    pub file: u8,
    pub fault: StartFault,
}
