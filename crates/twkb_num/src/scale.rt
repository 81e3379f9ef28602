//! Coordinates in units. Used by other crates.
ghost use Rattle.std.specs.Prelude.{◌≡◌, ◌^◌, ◌<◌, ◌≤◌, ◌≤ℤ◌, ◌-ℤ◌, ℤ, pos, neg_ℤ, unsigned_abs};
ghost use Rattle.twkb_num.specs.Units.{units_of, IsPrecision};

/// 10 to the powers 0 to 15. They have 64 bits, so that a coordinate of 64 bits takes one multiplication.
const POWERS: [i64; 16] = [
    1,
    10,
    100,
    1_000,
    10_000,
    100_000,
    1_000_000,
    10_000_000,
    100_000_000,
    1_000_000_000,
    10_000_000_000,
    100_000_000_000,
    1_000_000_000_000,
    10_000_000_000_000,
    100_000_000_000_000,
    1_000_000_000_000_000,
];

/// Converts a coordinate at a precision, which means `coordinate / 10^precision`, to units of 10^-7, exactly.
///
/// A coordinate has 64 bits. The maximum of a box is a sum of two, so it may be as far as 2^64 from 0. In units that is at
/// most 2^64 * 10^15 from 0, which is below 2^127.
#[inline]
pub fn units(coordinate: i128, precision: i8) -> i128
    requires precision { IsPrecision precision }
    requires least { neg_ℤ (pos (2 ^ 64)) ≤ℤ coordinate }
    requires greatest { coordinate ≤ℤ pos (2 ^ 64) }
    ensures { result ≡ units_of coordinate precision }
{
    coordinate * i128::from(units_in_one(precision))
}

/// How many units a coordinate of 1 is.
#[inline(always)]
fn units_in_one(precision: i8) -> i64
    requires { IsPrecision precision }
    ensures value { result ≡ pos (10 ^ unsigned_abs (pos 7 -ℤ precision)) }
    ensures few { 10 ^ unsigned_abs (pos 7 -ℤ precision) ≤ 10 ^ 15 }
{
    POWERS[usize::from(7i8.abs_diff(precision))]
}
