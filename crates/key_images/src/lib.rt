//! The image of the table of keys: told from an index, and read back into one.
#![tactic(auto)]

mod image;
mod keys;
mod laws;
mod moving;
mod parts;
mod reading;
mod rows;
mod sizes;
mod spelling;
mod table;

pub use image::KeyImage;
pub use laws::{images_are_of_tables, images_hold_materials};
pub use moving::relocate;
pub use reading::read_key_image;
