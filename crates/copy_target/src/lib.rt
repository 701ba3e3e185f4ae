//! Two clusters of a copy: one that is only read, and the namesystem of another over its disk.
#![tactic(auto)]

mod both;

pub use both::BothClusters;
