//! The open asks.
ghost use Rattle.std.specs.Prelude.{◌≡◌, ◌∷◌, ◌++◌, ◌<◌, [], None, Some, MatchOption, OnOk, OnErr};
ghost use Rattle.std.specs.List.{AllByRecursion};
ghost use Rattle.name_core.specs.Asks.{note_of, open_ask, without};

use hk_base::NoMemory;
use name_calls::{Ask, AskNote, Want};
use std::alloc::Global;
use std::collections::BTreeMap;
use std::marker::Model;

/// An ask that was accepted and is not finished yet: its id, what was asked, the directory of the
/// zone that its path lay in, and the call that it wanted.
#[derive(Drop)]
pub struct OpenAsk {
    pub id: u64,
    pub ask: Ask,
    pub zone: Option<u64>,
    pub want: Want,
}

impl OpenAsk {
    /// Returns the note that the ask was answered with.
    pub fn note(&self) -> AskNote
        ensures { result ≡ note_of self.now }
    {
        AskNote {
            id: self.id,
            want: self.want,
        }
    }
}

/// The open asks by their ids. In contracts their value is the list of the asks in the order of
/// their ids.
#[derive(Drop)]
pub struct OpenAsks {
    asks: BTreeMap<u64, OpenAsk>,
}

impl Model for OpenAsks {
    ghost use Rattle.std.specs.Prelude.{List};
    ghost use Rattle.std.specs.BTreeMap.{values};
    ghost use Rattle.name_core.specs.declared.asks.OpenAsk.{OpenAsk};
    ghost use Rattle.name_core.specs.State.{AreAsksRising};
    ghost use Rattle.name_core.specs.Steps.{AreKeyed};

    ghost Value = { List OpenAsk };

    ghost view = { λ list. values list.asks };

    ghost invariant = { λ list. AreAsksRising (values list.asks) × AreKeyed list.asks.entries };
}

impl OpenAsks {
    /// Creates an empty set of open asks. It does not allocate.
    pub fn new(alloc: Global) -> OpenAsks
        ensures { result ≡ [] }
    {
        OpenAsks {
            asks: BTreeMap::new(alloc),
        }
    }

    /// Adds an ask, whose id must be above those of the others. Returns `NoMemory` if allocation
    /// fails; the asks are then unchanged. Takes time logarithmic in the number of open asks.
    pub fn push(&mut self, ask: OpenAsk) -> Result<(), NoMemory>
        requires { AllByRecursion (λ (a : OpenAsk). a.id < ask.id) self.old }
        ensures ok { OnOk result (self.new ≡ self.old ++ ask ∷ []) }
        ensures err { OnErr result (self.new ≡ self.old) }
    {
        self.asks.insert(ask.id, ask)?;
        Ok(())
    }

    /// Returns the ask with the id, or `None` if there is none. Takes time logarithmic in the
    /// number of open asks.
    pub fn get(&self, id: u64) -> Option<&OpenAsk>
        ensures { MatchOption result (open_ask self.now id ≡ None)
            (λ ask. open_ask self.now id ≡ Some ask.now) }
    {
        self.asks.get(&id)
    }

    /// Removes the ask with the id, if there is one. Takes time logarithmic in the number of open
    /// asks.
    pub fn remove(&mut self, id: u64)
        ensures { self.new ≡ without self.old id }
    {
        let _ = self.asks.remove(&id);
    }
}
