//! Tests of both services in their cells: what happens between the call for a batch and its delivery,
//! batches that are delivered in another order than they were walked, and what the disks have after the
//! cells were closed.
#![tactic(auto)]

#[cfg(test)]
mod asks;
#[cfg(test)]
mod batches;
#[cfg(test)]
mod callers;
#[cfg(test)]
mod cases;
#[cfg(test)]
mod cells;
#[cfg(test)]
mod gates;
#[cfg(test)]
mod services;
#[cfg(test)]
mod tests;
#[cfg(test)]
mod zones;
