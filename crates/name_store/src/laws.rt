//! What follows for edit logs. The function does nothing: its contract is the law.
ghost use Rattle.name_store.specs.Laws.{SoundIsNotDamaged};

/// What a crash leaves of an edit log is no damage. A log of operations that apply to one another,
/// with one more that applies or without it, now or once its end gate is read as 1, is one from which
/// a start never answers `Damaged`.
pub fn what_a_crash_leaves_is_no_damage()
    ensures { SoundIsNotDamaged }
{}
