//! Laws of copies: what was put is read back of a copy. The functions do nothing: their contracts are
//! the laws.
#![tactic(auto)]

ghost use Rattle.copy_laws.specs.Laws.{CopiesAreReadBack, KeptFactsOpenCopies, LaterRunsReadCopies, RunsOpenCopies};

use hk_base::Disk;

/// A range that is read of a copy is that range of the bytes that were put at its source, as long as the
/// key exists under which the data encryption key was drawn. The source may have been renamed, re-encrypted
/// or deleted since it was copied.
pub fn copies_are_read_back()
    ensures { CopiesAreReadBack }
{}

/// The encrypted key of a copy opens to the data key that was drawn for its source wherever this fact of
/// the key still holds. Such facts last from run to run (`keys_last_from_run_to_run` of `hk_runs`).
pub fn kept_facts_open_copies()
    ensures { KeptFactsOpenCopies }
{}

/// In a run that keeps the promise on files (the clause `kept` of `run_read_copy`), the encrypted key of a
/// copy opens to the data key that was drawn for its source, if it did so before the run.
pub fn runs_open_copies<D: Disk>(before: &D, after: &D)
    ensures { RunsOpenCopies (D.state before.now) (D.state after.now) }
{}

/// A copy that one run of the first cluster made is read back in any later run, whatever runs came in
/// between: a range of it is that range of the bytes that were put at its source. Before the copy the
/// encrypted key of the source must have opened to its draw, as that of each file that is kept does
/// (`keys_last_from_run_to_run` of `hk_runs`).
pub fn later_runs_read_copies<D: Disk>(at_copy: &D, copied: &D, at_read: &D, done: &D)
    ensures { LaterRunsReadCopies (D.state at_copy.now) (D.state copied.now)
        (D.state at_read.now) (D.state done.now) }
{}
