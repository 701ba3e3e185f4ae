//! What a command line asks for.
use clap_lines::Told;
use hk_base::Text;

/// What a command line asks for.
#[derive(Drop)]
pub enum FsOrder {
    /// Make a file, and store the input as its body.
    Put {
        /// Who makes it, of 1 to 255 bytes.
        user: Text,
        /// Its path, as given.
        path: Text,
    },
    /// Write a range of the body of a file to the output.
    Read {
        /// Who reads it, of 1 to 255 bytes.
        user: Text,
        /// Its path, as given.
        path: Text,
        /// The first byte of the range, below 2^63.
        from: u64,
        /// The number of its bytes, below 2^63.
        count: u64,
    },
    /// Write this help text to standard output and end with status 0. It ends with a line feed.
    Help(String),
    /// Write this text, the program's name and version, to standard output and end with status 0.
    /// It ends with a line feed.
    Version(String),
}

impl From<Told> for FsOrder {
    ghost use Rattle.std.specs.Prelude.{◌≡◌};
    ghost use Rattle.fs_command_line.specs.Orders.{order_told};

    ghost from_gives = { λ told given. given ≡ order_told told };

    fn from(told: Told) -> Self {
        match told {
            Told::Help(text) => FsOrder::Help(text),
            Told::Version(text) => FsOrder::Version(text),
        }
    }
}
