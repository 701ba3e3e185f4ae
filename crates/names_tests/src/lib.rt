//! Tests of trees and snapshots that no event reaches.
#![tactic(auto)]

#[cfg(test)]
mod bench;
#[cfg(test)]
mod renames;
#[cfg(test)]
mod snapshots;
#[cfg(test)]
mod trees;
