//! Laws of the files that a run may start from. The function does nothing: its contract is the law.
ghost use Rattle.world_run.specs.Laws.{EmptyFilesAreSound, NoDrawsAreApart, PastDrawsAreApart, SoundFilesAreApart, SoundFilesAreWhole, SoundFilesOpen};

/// A run may start from two empty files, with an empty ledger of draws. If a run may start from two
/// files, neither is damaged, and each file in a zone, live or in a snapshot, opens to the data
/// encryption key drawn for it, with the keys and the rows that a start finds. Each start and each
/// event leaves such files (`World::start`, `World::step`). If no two draws of the runs before have
/// a word in common, the draws of two files have none; an empty ledger has no draws, and each event
/// keeps draws apart.
pub fn sound_files_may_be_started_from()
    ensures empty { EmptyFilesAreSound }
    ensures whole { SoundFilesAreWhole }
    ensures open_up { SoundFilesOpen }
    ensures none_drawn { NoDrawsAreApart }
    ensures past_apart { PastDrawsAreApart }
    ensures apart { SoundFilesAreApart }
{}
