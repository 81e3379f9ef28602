//! Where varints lie in eight bytes, by the continuation bits of the bytes: bit i is the top bit of byte i.
//!
//! A row of places is eight bytes, the lowest first: in each the place of the byte that belongs there, or 255 for none. A length is
//! of all numbers of the row, or of all but the last, or 128 if one of these is longer than its lane takes, or doesn't end. All are
//! proved of all 256 rows.
//! Used by `vectors`.

mod narrow;
mod wide;

pub use narrow::{narrow_len, narrow_places, three_narrow_len};
pub use wide::{first_wide_len, wide_len, wide_places};
