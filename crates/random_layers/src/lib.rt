//! Layers and windows for tests, made at random from a seed. One seed always makes equal layers and windows.
//!
//! A [`layer`] is a few blobs of all seven types, with collections in collections, at precisions that differ from
//! header to header, some with Z or M, with ids, with a size or a box, and some empty. Each size, box and list of ids in
//! it is true, since it is written after the bytes that it describes. A [`window`] lies on or beside a place that it is
//! given. [`nested`] isn't made at random: it is collections in one another, as many as are wanted. Nor are the constants.
#![tactic(auto)]

mod dice;
mod header;
mod ids;
mod layers;
mod leaf;
mod nesting;
mod numbers;
mod reach;
mod windows;

pub use dice::Dice;
pub use ids::{FALLING_IDS, SEVENTEEN_IDS};
pub use layers::layer;
pub use nesting::{TWO_COLLECTIONS, nested};
pub use windows::window;
