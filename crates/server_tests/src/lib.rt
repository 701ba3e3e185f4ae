//! Tests of the server: connections and workers that are held until another thread has come to a certain
//! point.
#![tactic(auto)]

#[cfg(test)]
mod clients;
#[cfg(test)]
mod gates;
#[cfg(test)]
mod held;
#[cfg(test)]
mod requests;
#[cfg(test)]
mod services;
