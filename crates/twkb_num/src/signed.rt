//! Signed numbers as unsigned ones, by zigzag. Used by other crates, and here by `cursor`.
ghost use Rattle.std.specs.Prelude.{◌≡◌, ℕ};
ghost use Rattle.twkb_num.specs.Varint.{zigzag_value};

/// Encodes a signed number as an unsigned one: 0, -1, 1, -2, 2 become 0, 1, 2, 3, 4 (TWKB specification, "ZigZag Encode").
#[inline]
pub fn zigzag(value: i64) -> u64
    ensures meaning { zigzag_value result ≡ value }
    ensures only { (number : ℕ) → zigzag_value number ≡ value → number ≡ result }
{
    if value >= 0 {
        2 * value as u64
    } else {
        2 * (-(value + 1)) as u64 + 1
    }
}

/// Decodes what [`zigzag`] encodes: 0, 1, 2, 3, 4 become 0, -1, 1, -2, 2. Each of the two undoes the other.
#[inline(always)]
pub fn unzigzag(number: u64) -> i64
    ensures { result ≡ zigzag_value number }
{
    let half = (number / 2) as i64;
    if number % 2 == 0 { half } else { -half - 1 }
}
