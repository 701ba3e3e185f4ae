//! The block cipher AES (FIPS 197) for keys of 128, 192 and 256 bits. It only encrypts blocks, which
//! is all that counter mode needs. Nothing here allocates.
#![tactic(auto)]

mod any_length;
mod block_cipher;
mod key_schedule;
mod round_tables;
mod rounds;
mod substitution;
mod words;

pub use any_length::AnyAes;
pub use block_cipher::Aes;
