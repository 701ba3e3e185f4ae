//! Laws of a server that has ended, whatever the end. The functions do nothing: their contracts are the laws. They follow from
//! what `run_server` says of a run (`RanServer`, `NoneOpened`), for any values before a call and after it.
#![tactic(auto)]

ghost use Rattle.cell_server.specs.Connections.{ServesEnds};
ghost use Rattle.server_laws.specs.Ended.{ServersHoldLogs, ServersJudge};
ghost use Rattle.server_laws.specs.ServerFiles.{ServersKeepFiles, UnopenedKeepFiles};

use hk_base::Words;
use server_parts::{Door, Yard};
use std::marker::PhantomData;

/// What a server leaves that ran until it ended, whatever the end. `logs`: if the yard tells, each file holds the log that was
/// found, the record of its opening, and what the entries of the history acknowledged, in order and none left out, with the
/// pending record or without it. `verdicts`: each call in the history of the key management service is denied exactly if the
/// access control lists of the properties deny it.
pub fn servers_hold_what_they_acknowledged<Y: Yard, P: Door, W: Words>(
    yard: &Y,
    yard_after: &Y,
    door: &P,
    door_after: &P,
    _words: PhantomData<W>,
    conns: u32,
)
    ensures logs { ServersHoldLogs Y.Own.state W.to_come
        (ServesEnds P.In.left P.In.faults P.Out.written P.Out.faults) conns
        (Y.state yard.now) (Y.state yard_after.now) (P.state door.now) (P.state door_after.now) }
    ensures verdicts { ServersJudge Y.Own.state W.to_come
        (ServesEnds P.In.left P.In.faults P.Out.written P.Out.faults) conns
        (Y.state yard.now) (Y.state yard_after.now) (P.state door.now) (P.state door_after.now) }
{}

/// What a server keeps of files in encryption zones, if the yard tells and a run could start from its files, with the draws of
/// earlier runs. `served`: if it ran until it ended, whatever the end, each zone file, live or in a snapshot, opens to the data
/// encryption key that was drawn for it, no two files share a draw, and a completed re-encryption left no file behind. This holds
/// in the end and in the files that are left, and the next run may start from them with all draws. `unopened`: if a log could not be
/// opened, the files keep it as before.
pub fn servers_keep_files_open<Y: Yard, P: Door, W: Words>(
    yard: &Y,
    yard_after: &Y,
    door: &P,
    door_after: &P,
    _words: PhantomData<W>,
    conns: u32,
)
    ensures served { ServersKeepFiles Y.Own.state W.to_come
        (ServesEnds P.In.left P.In.faults P.Out.written P.Out.faults) conns
        (Y.state yard.now) (Y.state yard_after.now) (P.state door.now) (P.state door_after.now) }
    ensures unopened { UnopenedKeepFiles (Y.state yard.now) (Y.state yard_after.now) }
{}
