//! What words name which order. The functions do nothing: their contracts are the laws.
ghost use Rattle.std.specs.Prelude.{codes, [], ◌∷◌, ◌++◌, ◌<◌, ◌≤◌, ◌^◌, ◌⊎◌, ◌≡◌, ℕ, List, length};
ghost use Rattle.std.specs.Fmt.{decimal};
ghost use Rattle.clap.specs.Words.{Text};
ghost use Rattle.clap_lines.specs.Folders.{SaysInFolder, SpellsFolder};
ghost use Rattle.clap_lines.specs.Orders.{IsMistake, IsPlain};
ghost use Rattle.fs_command_line.specs.Line as line;
ghost use Rattle.fs_command_line.specs.Orders.{IsCommand, HasRightValues, IsSpelled, Names, line_fault, order_named};
ghost use Rattle.fs_command_line.specs.declared.order.FsOrder.{FsOrder};
ghost use Rattle.fs_command_line.specs.declared.order.FsOrder.TheVariants as order;

/// The words that spell an order name it, and an order that words name has values in their bounds: a user
/// of 1 to 255 bytes, and numbers below 2^63.
pub fn words_name_their_order()
    ensures spelled { (o : FsOrder) (words : List Text) → IsSpelled o words → Names o words }
    ensures right { (o : FsOrder) (words : List Text) → Names o words → HasRightValues o }
    ensures put { Names (order.Put (codes "alice") (codes "/b"))
        (codes "put" ∷ codes "alice" ∷ codes "/b" ∷ []) }
{}

/// A user of no byte or of more than 255 is a mistake, and so are a number of 2^63 or more, a number with a
/// leading zero or a sign, a word too few, and a word too many.
pub fn other_words_are_refused()
    ensures user { (user path : Text) → IsPlain user → IsPlain path →
        ¬ ((1 ≤ length user) × (length user ≤ 255)) →
        IsMistake (line_fault (codes "put" ∷ user ∷ path ∷ [])) }
    ensures number { (number : ℕ) → number < 2 ^ 64 → 2 ^ 63 ≤ number →
        IsMistake
        (line_fault (codes "read" ∷ codes "alice" ∷ codes "/b" ∷ codes "0" ∷ decimal number ∷ [])) }
    ensures zeros { IsMistake
        (line_fault (codes "read" ∷ codes "alice" ∷ codes "/b" ∷ codes "00" ∷ codes "1" ∷ [])) }
    ensures sign { IsMistake
        (line_fault (codes "read" ∷ codes "alice" ∷ codes "/b" ∷ codes "0" ∷ codes "+1" ∷ [])) }
    ensures one_less { IsMistake (line_fault (codes "put" ∷ codes "alice" ∷ [])) }
    ensures one_more { IsMistake
        (line_fault (codes "put" ∷ codes "alice" ∷ codes "/b" ∷ codes "/c" ∷ [])) }
{}

/// `--dir FOLDER` and `--dir=FOLDER` before a command give the folder, and change nothing in what the command and
/// the words after it say. Given twice, the option is a mistake, and so it is after the command.
pub fn folders_come_first()
    ensures same { (folder : Text) (option : List Text) (command : Text) (rest : List Text) →
        SpellsFolder folder option → IsCommand command →
        SaysInFolder line.hkfs order_named folder (option ++ command ∷ rest) (command ∷ rest) }
    ensures twice { IsMistake (line_fault
        (codes "--dir" ∷ codes "a" ∷ codes "--dir" ∷ codes "b" ∷
        codes "put" ∷ codes "alice" ∷ codes "/b" ∷ [])) }
    ensures late { IsMistake
        (line_fault (codes "read" ∷ codes "--dir" ∷ codes "a" ∷ [])) }
{}
