//! Tests of file bodies: vectors from outside, planned faults, and a real folder.
#![tactic(auto)]

#[cfg(test)]
mod examples;
#[cfg(test)]
mod faults;
#[cfg(test)]
mod folders;
#[cfg(test)]
mod ranges;
