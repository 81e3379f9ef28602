//! What the three single bytes of a header say, bit by bit. Used by `field_readers`, `raw` and `read`.
ghost use Rattle.std.specs.Prelude.{◌≡◌, ◌/◌, ◌<◌, ◌≤◌, IfSome};
ghost use Rattle.twkb_num.specs.Units.{IsPrecision};
ghost use Rattle.twkb_num.specs.Varint.{zigzag_value};
ghost use Rattle.twkb_head.specs.Header.{has_bit, has_ids, z_in, m_in};

use crate::kinds::Kind;
use twkb_num::unzigzag;

/// A bit of the metadata byte, by its value: the header has a box (TWKB specification, "Metadata Header"). The three bits
/// without a name here mean nothing and may be set (this project's choice).
pub const BOX: u8 = 1;

/// A bit of the metadata byte: the header has a size.
pub const SIZE: u8 = 2;

/// A bit of the metadata byte: the body has ids, if it has a list.
const IDS: u8 = 4;

/// A bit of the metadata byte: the header has an extended dimensions byte.
pub const EXTENDED: u8 = 8;

/// A bit of the metadata byte: the geometry is empty, and has no body.
pub const EMPTY: u8 = 16;

/// Whether a bit of a byte, named by its value, is set.
#[inline(always)]
pub fn has_bit(byte: u8, value: u8) -> bool
    requires { 0 < value }
    ensures { result ≡ has_bit byte value }
{
    byte / value % 2 == 1
}

/// The precision of X and Y in the high four bits of a type byte, by zigzag (TWKB specification, "Type &
/// Precision").
#[inline(always)]
pub fn precision_of(byte: u8) -> i8
    ensures value { result ≡ zigzag_value (byte / 16) }
    ensures range { IsPrecision result }
{
    unzigzag(u64::from(byte / 16)) as i8
}

/// The precision of Z, if the extended dimensions byte has a Z (TWKB specification, "Extended Dimensions"). A byte with
/// neither Z nor M is accepted, and the bits of an axis that it lacks mean nothing (this project's choice).
#[inline(always)]
pub fn z_of(extended: Option<u8>) -> Option<u8>
    ensures value { result ≡ z_in extended }
    ensures high { IfSome result (λ p. p ≤ 7) }
{
    match extended {
        Some(byte) if has_bit(byte, 1) => Some(byte / 4 % 8),
        _ => None,
    }
}

/// The precision of M, if the extended dimensions byte has an M, as [`z_of`] gives the precision of Z.
#[inline(always)]
pub fn m_of(extended: Option<u8>) -> Option<u8>
    ensures value { result ≡ m_in extended }
    ensures high { IfSome result (λ p. p ≤ 7) }
{
    match extended {
        Some(byte) if has_bit(byte, 2) => Some(byte / 32),
        _ => None,
    }
}

/// Whether the body has ids. An empty geometry has no body, and a point, line or polygon has no list, so for these the bit
/// means nothing (this project's choice).
#[inline(always)]
pub fn ids_of(kind: Kind, metadata: u8) -> bool
    ensures { result ≡ has_ids kind metadata }
{
    !has_bit(metadata, EMPTY) && kind.is_multi() && has_bit(metadata, IDS)
}
