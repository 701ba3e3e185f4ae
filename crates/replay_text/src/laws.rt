//! Laws of the event text. The functions do nothing: their contracts are the laws.
ghost use Rattle.std.specs.Prelude.{◌≡◌, ℕ, List};
ghost use Rattle.hk_events.specs.declared.event.Event.{Event};
ghost use Rattle.replay_text.specs.Events.{IsQuietLine, SpellsLine};

/// A line spells one event at most, and a quiet line spells none.
pub fn lines_are_read_in_one_way()
    ensures once { (line : List ℕ) (a b : Event) → SpellsLine line a → SpellsLine line b → a ≡ b }
    ensures quiet { (line : List ℕ) (event : Event) → IsQuietLine line → ¬ SpellsLine line event }
{}
