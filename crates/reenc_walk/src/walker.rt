//! The walk of a session.
ghost use Rattle.std.specs.Prelude.{◌≡◌, ◌≤◌, ◌<◌, [], length, is_some, IfOk, IsTrue};
ghost use Rattle.reenc_walk.specs.Adding.{AddsBatch};
ghost use Rattle.reenc_walk.specs.Walks.{Walks, has_batch, mark_after, outstanding, retire};

use crate::batches::{self, WalkedBatch};
use crate::files::{Files, next_files};
use crate::sent::{BatchNote, SentList};
use hk_base::NoMemory;
use inode_tree::Tree;
use name_calls::NPath;
use std::alloc::Global;
use std::collections::VecDeque;
use std::marker::Model;

/// What a walk answers.
#[derive(Drop)]
pub enum Walk {
    /// The next files, in a batch that is outstanding from now on.
    Batch(BatchNote),
    /// No file comes after those that have been walked.
    NoneLeft,
    /// Allocation failed.
    NoMemory,
}

/// The walk through the files of a zone in a re-encryption session. Contracts see the session, the
/// path in the zone up to which files have been walked, and the batches of this walk from the
/// earliest outstanding one on.
///
/// Paths are relative to the directory of the zone. So a walk goes on if the zone is moved.
#[derive(Drop)]
pub struct Walker {
    alloc: Global,
    session: u64,
    cursor: Option<NPath>,
    batches: VecDeque<WalkedBatch>,
}

impl Model for Walker {
    ghost use Rattle.std.specs.Prelude.{◌<◌, ◌^◌, length};
    ghost use Rattle.reenc_walk.specs.Walks.{StartsOutstanding, WalkState};

    ghost Value = { WalkState };

    ghost view = { λ walker.
        record {
          session = walker.session;
          cursor = walker.cursor;
          batches = walker.batches.items;
        } };

    ghost invariant = { λ walker. StartsOutstanding walker.batches.items ×
        (length walker.batches.items < 4294967296) };
}

impl Walker {
    /// Creates the walk of a session, with no batches. It starts after the mark, or with the first
    /// file if there is no mark. It does not allocate.
    pub fn new(alloc: Global, session: u64, mark: Option<NPath>) -> Walker
        ensures { result ≡ record { session = session; cursor = mark; batches = [] } }
    {
        Walker {
            alloc,
            session,
            cursor: mark,
            batches: VecDeque::new(alloc),
        }
    }

    /// Returns the id of the session.
    pub fn session(&self) -> u64
        ensures { result ≡ self.now.session }
    {
        self.session
    }

    /// Returns whether a file has been walked, or the walk starts after a mark.
    pub fn has_begun(&self) -> bool
        ensures { result ≡ is_some self.now.cursor }
    {
        self.cursor.is_some()
    }

    /// Returns the next batch: the first files of the zone after those that have been walked, at most
    /// `size`. The batch is outstanding until it is retired. `size` must be 1 to 1,000. Returns
    /// `NoneLeft` if there are no more files, and `NoMemory` if allocation fails; the walk is then
    /// unchanged.
    ///
    /// The time is that of finding the place of the cursor in logarithmic time, and of a look-up for
    /// each row up to the last file of the batch.
    pub fn next_batch(&mut self, tree: &Tree, zone: u64, size: u16) -> Walk
        requires some { 1 ≤ size }
        requires most { size ≤ 1000 }
        ensures { Walks tree.now.rows zone size self.old result self.new }
    {
        if self.batches.len() >= u32::MAX as usize {
            return Walk::NoMemory;
        }
        match next_files(self.alloc, tree, zone, &self.cursor, size) {
            Err(_) => Walk::NoMemory,
            Ok(None) => Walk::NoneLeft,
            Ok(Some(files)) => self.add(zone, files),
        }
    }

    /// Adds a batch of these files, and moves the cursor to the last one.
    fn add(&mut self, zone: u64, files: Files) -> Walk
        requires { length self.old.batches < 4294967295 }
        ensures { AddsBatch self.old zone files result self.new }
    {
        let Files {
            sent,
            kept,
            last,
            cursor,
        } = files;
        let batch = WalkedBatch {
            sent: kept,
            last,
            outstanding: true,
        };
        match self.batches.push_back(batch) {
            Ok(()) => {
                self.cursor = Some(cursor);
                Walk::Batch(BatchNote {
                    zone,
                    session: self.session,
                    sent,
                })
            }
            Err(_) => Walk::NoMemory,
        }
    }

    /// Returns the number of outstanding batches.
    pub fn outstanding(&self) -> u32
        ensures { result ≡ outstanding self.now.batches }
    {
        batches::count(&self.batches) as u32
    }

    /// Returns whether the list is that of an outstanding batch.
    pub fn has(&self, sent: &SentList) -> bool
        ensures { result ≡ has_batch self.now.batches sent.now }
    {
        batches::has(&self.batches, sent)
    }

    /// Returns the mark after the batch with this list is retired: the path in the zone of the last
    /// file of the last batch such that it and all earlier ones are retired. Returns `None` if the
    /// mark does not move. The list must be that of an outstanding batch; if several have it, the
    /// earliest is meant. Returns `NoMemory` if allocation fails.
    pub fn mark_after(&self, sent: &SentList) -> Result<Option<NPath>, NoMemory>
        requires { IsTrue (has_batch self.now.batches sent.now) }
        ensures { IfOk result (λ mark. mark ≡ mark_after self.now.batches sent.now) }
    {
        batches::mark_after(self.alloc, &self.batches, sent)
    }

    /// Retires the batch with this list, which was delivered or given up. If several outstanding
    /// batches have the list, the earliest is meant; if none has it, nothing changes. It does not
    /// allocate.
    pub fn retire(&mut self, sent: &SentList)
        ensures { self.new ≡ retire sent.now self.old }
    {
        batches::retire(&mut self.batches, sent);
    }
}
