//! What words name which order. The functions do nothing: their contracts are the laws.
ghost use Rattle.std.specs.Prelude.{codes, [], ◌∷◌, ◌++◌, ◌<◌, ◌^◌, ℕ, List};
ghost use Rattle.std.specs.Fmt.{decimal};
ghost use Rattle.clap.specs.Words.{Text};
ghost use Rattle.clap_lines.specs.Folders.{SaysInFolder, SpellsFolder};
ghost use Rattle.clap_lines.specs.Orders.{IsMistake};
ghost use Rattle.command_line.specs.Line as line;
ghost use Rattle.command_line.specs.Orders.{IsCommand, IsRightCount, Names, line_fault, order_named};
ghost use Rattle.command_line.specs.declared.order.Order.TheVariants as order;

/// As clap reads them, the word `replay` names the replay, the word `pipe` the connection, the word
/// `check` the check of both logs, and the word `serve` the server on port 9600, which ends after
/// 4,294,967,295 connections and serves at most 16 at a time.
pub fn commands_alone_are_named()
    ensures replay { Names order.Replay (codes "replay" ∷ []) }
    ensures pipe { Names order.Pipe (codes "pipe" ∷ []) }
    ensures check { Names order.Check (codes "check" ∷ []) }
    ensures serve { Names (order.Serve 9600 4294967295 16) (codes "serve" ∷ []) }
{}

/// `--port` gives the port of `serve`, `--conns` the number of connections, and `--connections` how many
/// are served at a time.
pub fn options_are_named()
    ensures numbers { Names (order.Serve 1 2 16)
        (codes "serve" ∷ codes "--port" ∷ codes "1" ∷ codes "--conns" ∷ codes "2" ∷ []) }
    ensures at_a_time { Names (order.Serve 9600 4294967295 3)
        (codes "serve" ∷ codes "--connections" ∷ codes "3" ∷ []) }
{}

/// A load has from 1 to 20,000 steps, which the word after `load` says. Another number is a mistake, and so are
/// a word that is no number, no word, and one word more.
pub fn loads_have_a_count()
    ensures one { Names (order.Load 1) (codes "load" ∷ codes "1" ∷ []) }
    ensures named { (count : ℕ) → IsRightCount count →
        Names (order.Load count) (codes "load" ∷ decimal count ∷ []) }
    ensures right { (count : ℕ) (words : List Text) → Names (order.Load count) words →
        IsRightCount count }
    ensures wrong { (number : ℕ) → number < 2 ^ 64 → ¬ IsRightCount number →
        IsMistake (line_fault (codes "load" ∷ decimal number ∷ [])) }
    ensures no_number { IsMistake (line_fault (codes "load" ∷ codes "one" ∷ [])) }
    ensures no_word { IsMistake (line_fault (codes "load" ∷ [])) }
    ensures one_more { IsMistake (line_fault (codes "load" ∷ codes "1" ∷ codes "2" ∷ [])) }
{}

/// `--dir FOLDER` and `--dir=FOLDER` before a command give the folder, and change nothing in what the command and
/// the words after it say. Given twice, the option is a mistake, and so it is after the command.
pub fn folders_come_first()
    ensures same { (folder : Text) (option : List Text) (command : Text) (rest : List Text) →
        SpellsFolder folder option → IsCommand command →
        SaysInFolder line.hkms order_named folder (option ++ command ∷ rest) (command ∷ rest) }
    ensures twice { IsMistake (line_fault
        (codes "--dir" ∷ codes "a" ∷ codes "--dir" ∷ codes "b" ∷ codes "replay" ∷ [])) }
    ensures late { IsMistake
        (line_fault (codes "replay" ∷ codes "--dir" ∷ codes "a" ∷ [])) }
{}
