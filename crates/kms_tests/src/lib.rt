//! Tests of keys, properties and disks that no event line, request or trial reaches: forms of names
//! and numbers, outside vectors, real files, signals and the clock.
#![tactic(auto)]

#[cfg(test)]
mod adapters;
#[cfg(test)]
mod calls;
#[cfg(test)]
mod disks;
#[cfg(test)]
mod names;
#[cfg(test)]
mod properties;
#[cfg(test)]
mod records;
#[cfg(test)]
mod texts;
#[cfg(test)]
mod words;
