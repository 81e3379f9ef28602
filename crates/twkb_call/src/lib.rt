//! The library in a form that other languages can call: bytes as slices, a certified layer as its bytes and two numbers, and
//! results in memory that the caller lends.
//!
//! `twkb_c` and `twkb_web` export these functions, the first with the allocator of the C library, the second without one.
//! Directories and names are exported by `twkb_c` alone, and drawing by `twkb_web` alone.
#![tactic(auto)]

mod directory;
mod drawing;
mod layer;
mod names;
mod rows;
mod scans;
mod verdict;
mod window;

pub use directory::{build_directory, scan_directory, scan_directory_many};
pub use drawing::{Point, draw};
pub use layer::Layer;
pub use names::{Name, answer_name, kind_name, type_name};
pub use rows::{Row, list};
pub use scans::{Hit, Scanned, scan};
pub use twkb_layer::{AuditRoom, MOST_SLOTS, Slot};
pub use verdict::{Verdict, certify, certify_tight};
pub use window::{Range, Units, Window, parse_window, span_of_decimals};
