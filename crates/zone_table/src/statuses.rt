//! The statuses of zones that were submitted for re-encryption.
ghost use Rattle.std.specs.Prelude.{◌≡◌, ◌<◌, ◌≤◌, ◌+◌, [], false, length, position, slice_get, vec_len, vec_capacity, IsOk, OnOk, OnErr};
ghost use Rattle.std.specs.Option.{option_map, option_map_or};
ghost use Rattle.zone_table.specs.Statuses.{capped, counted, ended, goes_on, goes_on_under, is_of, need_status, new_status, session_goes_on, status_of, with_counts, with_end, with_status, without_below, zone_goes_on};

use hk_base::{NoMemory, VersionName};
use inode_tree::Tree;
use name_calls::NPath;
use std::alloc::Global;
use std::marker::Model;

/// How far the re-encryption of a zone is, as far as the edit log records it.
#[derive(Drop)]
pub struct StatusRow {
    /// The id of the zone's directory.
    pub zone: u64,
    /// The id of the ask by which the zone was submitted.
    pub session: u64,
    /// The version of the encrypted key that was drawn for the submission: the current version of the zone's key at
    /// that draw.
    pub noted: VersionName,
    /// Whether it has ended: no file was left, or it was cancelled.
    pub completed: bool,
    /// Whether it was cancelled.
    pub cancelled: bool,
    /// The number of files that got another encrypted key.
    pub reencrypted: u64,
    /// The number of files that failed.
    pub failed: u64,
    /// The path in the zone of the last file up to which all are done, or `None` before the first.
    pub mark: Option<NPath>,
}

/// The statuses of the zones that were submitted for re-encryption, at most one a zone, in the order
/// of their first submissions. In contracts their value is the list of them, and the number of
/// further ones that there is room for.
#[derive(Drop)]
pub struct Statuses {
    rows: Vec<StatusRow>,
}

impl Model for Statuses {
    ghost use Rattle.std.specs.Prelude.{◌-◌};
    ghost use Rattle.std.specs.Vec.{vec_len, vec_capacity};
    ghost use Rattle.zone_table.specs.Statuses.{StatusesState};

    ghost Value = { StatusesState };

    ghost view = { λ statuses.
        record {
          rows = statuses.rows.items;
          spare = vec_capacity statuses.rows - vec_len statuses.rows;
        } };
}

fn is_of(row: &StatusRow, zone: u64) -> bool
    ensures { result ≡ is_of zone row.now }
{
    row.zone == zone
}

fn goes_on(row: &StatusRow) -> bool
    ensures { result ≡ goes_on row.now }
{
    !row.completed
}

fn goes_on_under(row: &StatusRow, session: u64) -> bool
    ensures { result ≡ goes_on_under session row.now }
{
    row.session == session && !row.completed
}

/// Returns the index of the status of a zone, or `None` if it has none.
fn find(rows: &Vec<StatusRow>, zone: u64) -> Option<usize>
    ensures { result ≡ position (is_of zone) rows.now.items }
{
    rows.iter().position(|row| is_of(row, zone))
}

/// Puts a status in the place of the earlier one of its zone, or at the end. Returns `NoMemory` if
/// allocation fails; the statuses are then unchanged.
fn put(rows: &mut Vec<StatusRow>, status: StatusRow) -> Result<(), NoMemory>
    ensures ok { OnOk result (rows.new.items ≡ with_status status rows.old.items) }
    ensures err { OnErr result (rows.new.items ≡ rows.old.items) }
    ensures room { vec_len rows.old < vec_capacity rows.old → IsOk result }
{
    match find(rows, status.zone) {
        Some(at) => {
            rows[at] = status;
            Ok(())
        }
        None => {
            rows.push(status)?;
            Ok(())
        }
    }
}

/// Marks a status as completed if it goes on under the session.
fn end_one(row: &mut StatusRow, session: u64, cancelled: bool)
    ensures { row.new ≡ with_end session cancelled row.old }
{
    if goes_on_under(row, session) {
        row.completed = true;
        row.cancelled = cancelled;
    }
}

/// Marks the re-encryptions that go on under a session as completed.
fn end(rows: &mut Vec<StatusRow>, session: u64, cancelled: bool)
    ensures { rows.new.items ≡ ended session cancelled rows.old.items }
{
    for row in rows.iter_mut() {
        end_one(row, session, cancelled);
    }
}

/// Returns a count with more files. It stays at the maximum.
fn add(count: u64, more: u32) -> u64
    ensures { result ≡ capped (count + more) }
{
    count.saturating_add(more as u64)
}

/// Counts files in a status. The mark moves if `mark` is a path.
fn count_one(row: &mut StatusRow, changed: u32, failed: u32, mark: Option<NPath>)
    ensures { row.new ≡ with_counts changed failed mark row.old }
{
    row.reencrypted = add(row.reencrypted, changed);
    row.failed = add(row.failed, failed);
    if mark.is_some() {
        row.mark = mark;
    }
}

/// Returns the index of the first status that goes on under the session, or `None` if none does.
fn find_going(rows: &Vec<StatusRow>, session: u64) -> Option<usize>
    ensures { result ≡ position (goes_on_under session) rows.now.items }
{
    rows.iter().position(|row| goes_on_under(row, session))
}

/// Counts files in the first status that goes on under the session. Does nothing if none does.
fn count(rows: &mut Vec<StatusRow>, session: u64, changed: u32, failed: u32, mark: Option<NPath>)
    ensures { rows.new.items ≡ counted session changed failed mark rows.old.items }
{
    match find_going(rows, session) {
        Some(at) => count_one(&mut rows[at], changed, failed, mark),
        None => (),
    }
}

/// Removes the statuses of zones at the path or below it.
fn remove_below(rows: &mut Vec<StatusRow>, tree: &Tree, path: &NPath)
    ensures { rows.new.items ≡ without_below tree.now.rows path.now rows.old.items }
{
    rows.retain(|row| !tree.at_or_below(row.zone, path));
}

impl Statuses {
    /// Creates an empty list: no zone was submitted. It does not allocate.
    pub fn new(alloc: Global) -> Statuses
        ensures { result.rows ≡ [] }
    {
        Statuses {
            rows: Vec::new(alloc),
        }
    }

    /// Returns the status of a zone, or `None` if it was not submitted. It does not allocate.
    pub fn get(&self, zone: u64) -> Option<&StatusRow>
        ensures { option_map (λ row. row.now) result ≡ status_of self.now.rows zone }
    {
        match find(&self.rows, zone) {
            Some(at) => Some(&self.rows[at]),
            None => None,
        }
    }

    /// Returns the number of statuses.
    pub fn len(&self) -> usize
        ensures { result ≡ length self.now.rows }
    {
        self.rows.len()
    }

    /// Returns the status at index `at`, from 0, in the order of the first submissions. Returns `None`
    /// if there are no more.
    pub fn nth(&self, at: usize) -> Option<&StatusRow>
        ensures { option_map (λ row. row.now) result ≡ slice_get self.now.rows at }
    {
        if at < self.rows.len() {
            Some(&self.rows[at])
        } else {
            None
        }
    }

    /// Returns whether a zone is being re-encrypted: it was submitted, and this is neither completed
    /// nor cancelled. It does not allocate.
    pub fn zone_goes_on(&self, zone: u64) -> bool
        ensures { result ≡ zone_goes_on self.now.rows zone }
    {
        match self.get(zone) {
            Some(row) => goes_on(row),
            None => false,
        }
    }

    /// Returns whether this zone is being re-encrypted under this session. It does not allocate.
    pub fn zone_goes_on_under(&self, zone: u64, session: u64) -> bool
        ensures { result ≡
            option_map_or (goes_on_under session) (status_of self.now.rows zone) false }
    {
        match self.get(zone) {
            Some(row) => goes_on_under(row, session),
            None => false,
        }
    }

    /// Returns whether a zone is being re-encrypted under a session. It does not allocate.
    pub fn session_goes_on(&self, session: u64) -> bool
        ensures { result ≡ session_goes_on self.now.rows session }
    {
        self.rows.iter().any(|row| goes_on_under(row, session))
    }

    /// Reserves the memory that a submission needs. Returns `NoMemory` if allocation fails. The
    /// statuses are unchanged in either case. After `Ok`, a submission can't fail as long as the
    /// statuses do not change.
    pub fn reserve_submit(&mut self) -> Result<(), NoMemory>
        ensures same { self.new.rows ≡ self.old.rows }
        ensures ok { OnOk result (need_status ≤ self.new.spare) }
    {
        self.rows.reserve(1)?;
        Ok(())
    }

    /// Adds the status of a zone that is submitted under a session, in the place of its earlier one
    /// if it has one. `noted` is the version of the encrypted key that was drawn for the submission.
    /// Returns `NoMemory` if allocation fails; the statuses are then unchanged. It can't fail if there
    /// is room for one more.
    pub fn submit(&mut self, zone: u64, session: u64, noted: VersionName) -> Result<(), NoMemory>
        ensures ok { OnOk result
            (self.new.rows ≡ with_status (new_status zone session noted) self.old.rows) }
        ensures err { OnErr result (self.new.rows ≡ self.old.rows) }
        ensures room { need_status ≤ self.old.spare → IsOk result }
    {
        put(
            &mut self.rows,
            StatusRow {
                zone,
                session,
                noted,
                completed: false,
                cancelled: false,
                reencrypted: 0,
                failed: 0,
                mark: None,
            },
        )
    }

    /// Marks the re-encryptions that go on under a session as completed, and as cancelled if
    /// `cancelled` is set. The other statuses are unchanged. It does not allocate.
    pub fn end(&mut self, session: u64, cancelled: bool)
        ensures { self.new.rows ≡ ended session cancelled self.old.rows }
    {
        end(&mut self.rows, session, cancelled);
    }

    /// Counts files of the re-encryption that goes on under a session: `changed` files got another
    /// encrypted key, and `failed` files got none. Both counts stay at the maximum of 64 bits. If
    /// `mark` is a path, all files up to it are done. Does nothing if no re-encryption goes on under
    /// the session. It does not allocate.
    pub fn count(&mut self, session: u64, changed: u32, failed: u32, mark: Option<NPath>)
        ensures { self.new.rows ≡ counted session changed failed mark self.old.rows }
    {
        count(&mut self.rows, session, changed, failed, mark);
    }

    /// Removes the statuses of zones at the path or below it. Call this before the rows are removed
    /// from the tree. It does not allocate. The time is that of one look-up for each status.
    pub fn remove_below(&mut self, tree: &Tree, path: &NPath)
        ensures { self.new.rows ≡ without_below tree.now.rows path.now self.old.rows }
    {
        remove_below(&mut self.rows, tree, path);
    }
}
