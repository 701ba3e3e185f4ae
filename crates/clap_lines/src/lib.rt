//! Command lines that `clap` parses: what their words ask for, and what holds of each of them.
#![tactic(auto)]

mod folder;
mod laws;
mod told;
mod values;

pub use folder::{folder_given, folder_option};
pub use laws::help_is_told_alone;
pub use told::{OrderFault, Told, answer_without_command};
pub use values::{copy_word, number_in, texts_of, user_in, word, word_in};
