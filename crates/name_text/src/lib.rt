//! The answers and refusals of the namesystem as text. The text is UTF-8, and bytes of paths are
//! percent-escaped in it.
#![tactic(auto)]

mod answers;
mod edeks;
mod pieces;
mod refusals;
mod status;

pub use answers::{answer_text, write_answer};
pub use edeks::write_edek;
pub use pieces::ESCAPED;
pub use refusals::{refusal_name, refusal_text, write_name_refusal};
