//! Laws of texts: what the definitions of their readings imply, for every text. The functions do
//! nothing: their contracts are the laws.
#![tactic(auto)]

ghost use Rattle.std.specs.Prelude.{ℕ, List};
ghost use Rattle.clap.specs.Words.{Text};
ghost use Rattle.text_laws.specs.Lines.{AreWordsRead, AskedIsFound, IsNoText, IsReadOnce, SpelledIsNamed};
ghost use Rattle.text_laws.specs.Readings.{HasNotBoth, HasOneFault, HasOneList};

/// A text of properties has one reading, apart from want of memory: its properties or its first
/// fault, never both, and only one of each.
pub fn properties_have_one_reading()
    ensures lists { (text : List ℕ) → HasOneList text }
    ensures faults { (text : List ℕ) → HasOneFault text }
    ensures either { (text : List ℕ) → HasNotBoth text }
{}

/// Every list of words is a mistake, or shows a text, or names an order, and only one of them. Words
/// that spell an order name it, whichever form an option has: `--port N` or `--port=N`. Words that begin
/// with a request for help or for the version show that text, whatever follows.
pub fn words_have_one_reading()
    ensures every { (words : List Text) → AreWordsRead words }
    ensures once { (words : List Text) → IsReadOnce words }
    ensures no_text { (words : List Text) → IsNoText words }
    ensures spelled { (words : List Text) → SpelledIsNamed words }
    ensures asked { (words : List Text) → AskedIsFound words }
{}
