//! A plain reader of TWKB for tests. It is slow, and for small inputs: it keeps all geometries and all vertices, judges
//! each claim over all vertices, and finds the answer that a scan has to give by looking at each vertex.
//!
//! It is written only from the words of the format, so that its answers and the answers of the other crates are found in
//! two ways. From the other crates it takes the types of vertices and boxes, of kinds and of malformations, and the
//! deepest level. No contract says what it answers: the tests compare.
//!
//! - [`read_blob`] reads the blob at the front of some bytes, and [`read_layer`] one blob after another to their end.
//!   Each returns a [`Layer`], or the [`Fault`] that comes first. [`read_blob_tight`] finds loose
//!   boxes too.
//! - A [`Layer`] says which blobs have a vertex inside a window, and how much a scan reads ([`Work`]).
#![tactic(auto)]

mod bodies;
mod fault;
mod geometry;
mod layer;
mod reader;
mod tight;
mod window;
mod work;

pub use bodies::{read_blob, read_blob_tight, read_layer};
pub use fault::{Claim, Fault};
pub use geometry::Geometry;
pub use layer::Layer;
pub use work::Work;
