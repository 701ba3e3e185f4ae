//! Vaults of bodies: in memory, with planned faults, and over the files of a folder.
#![tactic(auto)]

mod folder_vault;
mod mem_vault;
mod shelf;

pub use folder_vault::FolderVault;
pub use mem_vault::MemVault;
