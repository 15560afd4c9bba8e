// Table images: what can be done with one, by one name. Each call is proved where it stands.
#![tactic(auto)]

pub use image_loading::{entries, read};
pub use image_storing::write;
