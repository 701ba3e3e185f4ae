//! The index of keys: a table of keys that keeps only the current material of each key in memory, and
//! the place of each material in the key log. And a cache of older materials.
#![tactic(auto)]

mod adding;
mod applying;
mod by_name;
mod cache;
mod finding;
mod index;
mod materials;
mod places;
mod rows;
mod runs;

pub use cache::{MaterialCache, MaterialKey};
pub use index::KeyIndex;
pub use materials::read_material;
pub use places::{log_holds_materials, material_len};
pub use rows::IndexRow;
