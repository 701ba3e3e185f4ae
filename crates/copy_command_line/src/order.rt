//! What a command line asks for.
use clap_lines::Told;
use hk_base::Text;

/// What a command line asks for.
#[derive(Drop)]
pub enum CopyOrder {
    /// Copy an encryption zone into the second cluster.
    Copy {
        /// The path of the zone or of its snapshot below `/.reserved/raw`, as given.
        source: Text,
        /// The path of the copy, as given.
        target: Text,
    },
    /// Write a range of the body of a file of the second cluster to the output.
    Read {
        /// Who reads it, of 1 to 255 bytes.
        user: Text,
        /// Its path, as given.
        path: Text,
        /// The first byte of the range, below 2^63.
        from: u64,
        /// The number of its bytes, below 2^63.
        count: u64,
    },
    /// Write this help text to standard output and end with status 0. It ends with a line feed.
    Help(String),
    /// Write this text, the program's name and version, to standard output and end with status 0.
    /// It ends with a line feed.
    Version(String),
}

impl From<Told> for CopyOrder {
    ghost use Rattle.std.specs.Prelude.{◌≡◌};
    ghost use Rattle.copy_command_line.specs.Orders.{order_told};

    ghost from_gives = { λ told given. given ≡ order_told told };

    fn from(told: Told) -> Self {
        match told {
            Told::Help(text) => CopyOrder::Help(text),
            Told::Version(text) => CopyOrder::Version(text),
        }
    }
}
