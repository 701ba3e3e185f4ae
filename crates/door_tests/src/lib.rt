//! Tests of yards and doors: in memory with planned faults, over real files, and over TCP.
#![tactic(auto)]

#[cfg(test)]
mod alarms;
#[cfg(test)]
mod both;
#[cfg(test)]
mod connections;
#[cfg(test)]
mod files;
#[cfg(test)]
mod memory;
