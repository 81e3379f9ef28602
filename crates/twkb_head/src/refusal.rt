//! Why bytes are malformed, and where. The numbers of malformations are this project's choice.
//! Used by other crates, and here by `field_readers`, `kinds`, `ranges` and `read`.

/// Why bytes are malformed.
#[derive(Clone, Copy, Debug, PartialEq, Eq)]
pub enum Why {
    /// The bytes end before the field does.
    Cut = 1,
    /// A varint exceeds 64 bits.
    Varint = 2,
    /// A type byte names no type.
    Kind = 3,
    /// A collection is so deep that its members would be too deep.
    Depth = 4,
    /// A coordinate, as a sum of differences, exceeds 64 bits. No header is refused for this.
    Range = 5,
}

/// The first field that can't follow the bytes before it.
#[derive(Clone, Copy, Debug, PartialEq, Eq)]
pub struct Malformed {
    /// The place of the field's first byte.
    pub offset: usize,
    /// What is wrong with the field.
    pub why: Why,
}
