//! Errors of a log and of a store over a log.
ghost use Rattle.std.specs.Prelude.{◌≡◌};
ghost use Rattle.frame_log.specs.declared.fault.LogFault.TheVariants.{StoreFault, NoMemory};

use hk_base::{Failed, NoMemory};
use std::alloc::{AllocError, AllocFailed};

/// Why a call of a log failed.
#[derive(Clone, Copy, Debug, PartialEq, Eq)]
pub enum LogFault {
    /// The file is not a log. At this offset is a gate byte 1 that no frame follows or, if the offset
    /// is 0, the magic is wrong.
    Damaged { at: u64 },
    /// The disk failed and counted the fault.
    StoreFault,
    NoMemory,
}

/// Why a store over a log can't start.
#[derive(Clone, Copy, Debug, PartialEq, Eq)]
pub enum StartFault {
    /// The file is not a log, or the frame whose gate is at this offset holds no record that applies.
    Damaged { at: u64 },
    /// The disk failed and counted the fault.
    StoreFault,
    NoMemory,
    /// Every opening number has been used.
    Spent,
}

/// Why a store over a log refused a change.
#[derive(Clone, Copy, Debug, PartialEq, Eq)]
pub enum StoreRefusal {
    /// The disk failed and counted the fault.
    StoreFault,
    NoMemory,
}

impl From<Failed> for LogFault {
    ghost from_gives = { λ _ e. e ≡ StoreFault };

    fn from(_: Failed) -> Self {
        LogFault::StoreFault
    }
}

impl From<AllocError> for LogFault {
    ghost from_gives = { λ _ e. e ≡ NoMemory };

    fn from(_: AllocError) -> Self {
        LogFault::NoMemory
    }
}

impl<T: Drop> From<AllocFailed<T>> for LogFault {
    ghost from_gives = { λ _ e. e ≡ NoMemory };

    fn from(_: AllocFailed<T>) -> Self {
        LogFault::NoMemory
    }
}

impl From<NoMemory> for LogFault {
    ghost use Rattle.frame_log.specs.declared.fault.LogFault.TheVariants as log;

    ghost from_gives = { λ _ given. given ≡ log.NoMemory };

    fn from(_: NoMemory) -> Self {
        LogFault::NoMemory
    }
}

impl From<LogFault> for StartFault {
    ghost use Rattle.frame_log.specs.Faults.{start_fault};

    ghost from_gives = { λ fault given. given ≡ start_fault fault };

    fn from(fault: LogFault) -> Self {
        match fault {
            LogFault::Damaged { at } => StartFault::Damaged { at },
            LogFault::StoreFault => StartFault::StoreFault,
            LogFault::NoMemory => StartFault::NoMemory,
        }
    }
}

impl From<NoMemory> for StartFault {
    ghost use Rattle.frame_log.specs.declared.fault.StartFault.TheVariants as start;

    ghost from_gives = { λ _ given. given ≡ start.NoMemory };

    fn from(_: NoMemory) -> Self {
        StartFault::NoMemory
    }
}

impl From<NoMemory> for StoreRefusal {
    ghost use Rattle.frame_log.specs.declared.fault.StoreRefusal.TheVariants as store;

    ghost from_gives = { λ _ given. given ≡ store.NoMemory };

    fn from(_: NoMemory) -> Self {
        StoreRefusal::NoMemory
    }
}
