//! The key management service.
#![tactic(auto)]

mod drawing;
mod kms;
mod known;
mod laws;
mod queued;
mod reading;
mod replies;
mod service;

pub use drawing::draw_sealed;
pub use eek_seal::{Deposit, Ticket};
pub use kms::Kms;
pub use laws::{
    births_never_come_again, decrypt_opens, deposited_keys_open, draws_use_different_words,
    generated_keys_open, reencrypted_keys_open,
};
