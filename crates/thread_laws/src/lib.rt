//! Laws over the histories of both services, which hold whatever threads do. The functions do nothing: their contracts are
//! the laws.
#![tactic(auto)]

ghost use Rattle.thread_laws.specs.Cells.{ClosedCellsKeepFiles};
ghost use Rattle.thread_laws.specs.Files.{HistoriesKeepFiles, SoundFilesBeginLinked, StartsLeaveSound};
ghost use Rattle.thread_laws.specs.Keys.{KeysKeepFilesOpen};
ghost use Rattle.thread_laws.specs.Promise.{KeepsPromise};
ghost use Rattle.thread_laws.specs.Serving.{DeliveriesAreTimely, EntriesServeOnce, FinishesAreServed};

use hk_base::{Disk, Words};
use std::marker::PhantomData;

/// Each finish of an open ask uses the reply to the call that the ask wants, and no reply is used twice.
pub fn replies_are_used_once<D: Disk, W: Words>(_of: PhantomData<(D, W)>)
    ensures served { FinishesAreServed D.state W.to_come }
    ensures once { EntriesServeOnce D.state W.to_come }
{}

/// Each batch that is applied was given by a walk before, and its reply came from a call after that walk.
pub fn batches_are_answered_in_time<D: Disk, W: Words>(_of: PhantomData<(D, W)>)
    ensures { DeliveriesAreTimely D.state W.to_come }
{}

/// Whatever the key management service does, with calls of users, tickets and deposits, zone files open to the data
/// encryption keys that were drawn for them.
pub fn keys_keep_files_open<D: Disk, W: Words>(_of: PhantomData<(D, W)>)
    ensures { KeysKeepFilesOpen D.state W.to_come }
{}

/// In every legal history of the namesystem each zone file, live or in a snapshot, opens to the data encryption key that
/// was drawn for it, no two files share a draw, and a completed re-encryption left no file behind. This holds after every
/// history of the keys that begins with what the namesystem has seen of it.
pub fn zone_files_stay_open<D: Disk, W: Words>(_of: PhantomData<(D, W)>)
    ensures { KeepsPromise D.state W.to_come }
{}

/// Histories that begin from files from which a run may start keep the promise on zone files, and leave such files: a crash
/// between two calls leaves files from which the next run may start, with all that is known by then.
pub fn histories_keep_files<D: Disk, W: Words>(_of: PhantomData<(D, W)>)
    ensures begins { SoundFilesBeginLinked D W }
    ensures keeps { HistoriesKeepFiles D.state W.to_come }
{}

/// Cells of both services that were opened on such files keep the promise on zone files until they are closed, and leave such
/// files.
pub fn closed_cells_keep_files<D: Disk, W: Words>(_of: PhantomData<(D, W)>)
    ensures { ClosedCellsKeepFiles D.state W.to_come }
{}

/// A start, even one that fails, leaves such files of such files.
pub fn starts_leave_sound_files()
    ensures { StartsLeaveSound }
{}
