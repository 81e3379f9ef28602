//! Collections in one another.
use std::alloc::{AllocError, Global};

/// `collections` collections, each the only member of the one before, and then the bytes `inmost`.
pub fn nested(alloc: Global, collections: usize, inmost: &[u8]) -> Result<Vec<u8>, AllocError> {
    let mut bytes = Vec::new(alloc);
    for _ in 0..collections {
        bytes.extend_from_slice(&[0x07, 0x00, 0x01])?;
    }
    bytes.extend_from_slice(inmost)?;
    Ok(bytes)
}

/// A collection of two. The first has a size and a box round its point at (10 10), which has a size and a box too; the
/// second has such a point and one at (1 2).
pub const TWO_COLLECTIONS: [u8; 36] = [
    0x07, 0x00, 0x02, 0x07, 0x03, 0x0E, 0x14, 0x00, 0x14, 0x00, 0x01, 0x01, 0x03, 0x06, 0x14, 0x00,
    0x14, 0x00, 0x14, 0x14, 0x07, 0x00, 0x02, 0x01, 0x03, 0x06, 0x14, 0x00, 0x14, 0x00, 0x14, 0x14,
    0x01, 0x00, 0x02, 0x04,
];
