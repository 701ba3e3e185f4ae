//! Images of the namesystem's table: the bytes that stand for it.
#![tactic(auto)]

mod fields;
mod image;
mod laws;
mod nodes;
mod rows;
mod snapshots;
mod statuses;

pub use fields::{put_ids, put_kind, put_path, put_status};
pub use image::NameImage;
pub use laws::{an_image_stands_for_one_table, logged_tables_keep_image_rules};
