//! [`Geometry`], what the reader keeps of each geometry.
use twkb_head::{Bounds, Kind};

/// A blob, or a member of a collection at any depth: what its header says, and how long its parts are.
#[derive(Clone, Copy, Debug, PartialEq, Eq)]
pub struct Geometry {
    /// 1 for a blob, and one more for a member than for its collection.
    pub depth: u8,
    pub kind: Kind,
    /// The precision of X and Y.
    pub precision: i8,
    /// Where it begins.
    pub offset: usize,
    /// The number of bytes of its header.
    pub header: usize,
    /// The number of bytes of its count and ids, if it is a collection that isn't empty. Otherwise 0.
    pub list: usize,
    /// The number of all its bytes.
    pub whole: usize,
    pub has_size: bool,
    /// Its box, in units.
    pub bounds: Option<Bounds>,
    /// Whether it is a collection that isn't empty.
    pub has_members: bool,
    /// The number of vertices of the layer before its own.
    pub vertices_before: usize,
    /// The number of its vertices, with the vertices of its members.
    pub vertices: usize,
    /// The number of the first geometry of the layer that is neither this one nor within it.
    pub next: usize,
}
