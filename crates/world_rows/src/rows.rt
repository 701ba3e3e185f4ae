//! The rows at and below a place of a world, which are read by events.
ghost use Rattle.std.specs.Prelude.{◌≡◌};
ghost use Rattle.world_rows.specs.Rows.{CanRead, ReadsOn, RefusesTo, RepliesTo, rows_seen};

use file_orders::FsEnd;
use hk_base::{Disk, KeyName, Text, Words};
use inode_tree::Row;
use kms_calls::KmsReply;
use name_calls::{ChildList, NPath, ReadPath};
use source_looks::{list_at, look_at, metadata_of};
use source_rows::SourceRows;
use std::alloc::Global;
use world_events::WorldEvents;

/// The rows at and below a directory of a world, or those of a snapshot of it. They are read by events
/// of the superuser.
#[derive(Drop)]
pub struct WorldRows<'a, D, W> {
    alloc: Global,
    user: &'a Text,
    place: &'a ReadPath,
    events: WorldEvents<'a, D, W>,
}

impl<'a, D, W> WorldRows<'a, D, W> {
    /// Creates the rows at and below a place, which are read as this user.
    pub fn new(
        alloc: Global,
        user: &'a Text,
        place: &'a ReadPath,
        events: WorldEvents<'a, D, W>,
    ) -> WorldRows<'a, D, W>
        ensures user { result.user.now ≡ user.now }
        ensures place { result.place.now ≡ place.now }
        ensures events { result.events ≡ events.entry }
    {
        WorldRows {
            alloc,
            user,
            place,
            events,
        }
    }
}

impl<'a, D: Disk, W: Words> SourceRows for WorldRows<'a, D, W> {
    ghost rows = { λ v. rows_seen v };

    ghost ready = { λ v. CanRead D.state v };

    ghost follows = { λ old new. ReadsOn D.state W.to_come old new };

    ghost replies = { λ old key given new. RepliesTo D.state W.to_come old key given new };

    ghost refuses = { λ old new. RefusesTo D.state W.to_come old new };

    fn facts(&self) {}

    fn look(&mut self, path: &NPath) -> Result<Row, FsEnd> {
        let _ = path.len();
        look_at(self.alloc, &mut self.events, self.user, self.place, path)
    }

    fn list(&mut self, path: &NPath) -> Result<ChildList, FsEnd> {
        let _ = path.len();
        list_at(self.alloc, &mut self.events, self.user, self.place, path)
    }

    fn metadata(&mut self, key: KeyName) -> Result<KmsReply, FsEnd> {
        metadata_of(self.alloc, &mut self.events, self.user, key)
    }
}
