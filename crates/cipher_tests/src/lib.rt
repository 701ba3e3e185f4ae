//! Tests of the cipher, of counter mode, of sealing and of the queues: outside vectors, and what no
//! line of an event text reaches.
#![tactic(auto)]

#[cfg(test)]
mod ciphers;
#[cfg(test)]
mod counters;
#[cfg(test)]
mod queues;
#[cfg(test)]
mod seals;
