//! Laws of runs that follow one another. The functions do nothing: their contracts are the laws.
ghost use Rattle.hk_runs.specs.Laws.{DrawsStayApart, FactsLast, FactsSurvive, FollowsCrash, FollowsRun, IsUnwritten, KeptKeysOpen, nothing_known};
ghost use Rattle.world_run.specs.Linked.{StartsSound};

use hk_base::Disk;

/// A run may start on a disk whose files were never written, with an empty ledger of draws.
/// After a run that keeps the promise on files (the clauses `headline` of `run_replay` and `run_pipe`),
/// the next one may start on the files that it left in the end, or that a crash left at any moment of
/// it, with the draws that are known by then. So each run of a chain of them keeps the promise. If no
/// two draws of earlier runs have a word in common, none have in the next run.
pub fn runs_follow_one_another<D: Disk>(before: &D, after: &D, next: &D)
    ensures empty { IsUnwritten (D.state next.now) → StartsSound (D.state next.now) nothing_known }
    ensures follows { FollowsRun (D.state before.now) (D.state after.now) (D.state next.now) }
    ensures after_crash { FollowsCrash (D.state before.now) (D.state after.now) (D.state next.now) }
    ensures apart { DrawsStayApart (D.state before.now) (D.state after.now) }
{}

/// The materials of a key last from run to run, after a crash too, while the key exists. So the
/// encrypted key of a file opens to the data key drawn for the file in each later run, even if the
/// file was deleted or has another encrypted key by then.
pub fn keys_last_from_run_to_run<D: Disk>(before: &D, after: &D, next: &D)
    ensures kept { KeptKeysOpen (D.state before.now) }
    ensures last { FactsLast (D.state before.now) (D.state after.now) (D.state next.now) }
    ensures after_crash { FactsSurvive (D.state before.now) (D.state after.now) (D.state next.now) }
{}
