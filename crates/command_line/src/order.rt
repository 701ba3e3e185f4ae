//! What a command line asks for.
use clap_lines::Told;

/// What a command line asks for.
#[derive(Debug, PartialEq, Eq, Drop)]
pub enum Order {
    /// Run the event lines of the input.
    Replay,
    /// Answer the HTTP requests of the input.
    Pipe,
    /// Serve connections on this port of 127.0.0.1, and end after this number of them.
    Serve {
        /// From 1 to 65,535.
        port: u16,
        /// From 1 to 4,294,967,295.
        conns: u32,
        /// How many of them are served at a time, from 1 to 1,024.
        places: u16,
    },
    /// Run a load of this number of steps over a disk in memory, and write the line that sums it up.
    Load {
        /// From 1 to 20,000.
        count: u32,
    },
    /// Write what both logs make, without changing them.
    Check,
    /// Write this help text to standard output and end with status 0. It ends with a line feed.
    Help(String),
    /// Write this text, the program's name and version, to standard output and end with status 0.
    /// It ends with a line feed.
    Version(String),
}

impl From<Told> for Order {
    ghost use Rattle.std.specs.Prelude.{◌≡◌};
    ghost use Rattle.command_line.specs.Orders.{order_told};

    ghost from_gives = { λ told given. given ≡ order_told told };

    fn from(told: Told) -> Self {
        match told {
            Told::Help(text) => Order::Help(text),
            Told::Version(text) => Order::Version(text),
        }
    }
}
