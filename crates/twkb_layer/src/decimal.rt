//! Decimals of any length, as bounds of windows. Used by other crates.
ghost use Rattle.std.specs.Prelude.{◌≡◌, ◌+◌, ◌*◌, ◌/◌, ◌%◌, ◌^◌, ◌&&◌, min, cond, not, pos, neg_ℤ, ◌+ℤ◌, ◌-ℤ◌, ◌*ℤ◌, ◌≤ℤ◌, if◌then◌else◌, Ok, Err, IfOk, Some, IfSome, true, false};
ghost use Rattle.std.specs.Str.Parse.{digits_value, AllDigits};
ghost use Rattle.twkb_layer.specs.Devices.Decimals.{is_between_units, leaning, whole_units};
ghost use Rattle.twkb_layer.specs.Decimals.{Decimal, IsDecimalText, is_less, rational_of, rounded_up, rounded_down, signed, farthest, span_of_decimals};

use crate::text_reader::TextReader;
use std::marker::Model;
use thiserror::Error;
use twkb_body::Span;

/// How many decimals a unit has: it is 10^-7.
const UNIT_PLACES: usize = 7;

/// The bound that is farthest from 0, in units. Every coordinate is nearer to 0.
const FARTHEST: u128 = 10_000_000_000_000_000_000_000_000_000_000_000;

/// Why two texts don't make a range.
#[derive(Clone, Copy, Debug, PartialEq, Eq, Error)]
pub enum BadRange {
    /// One of them isn't a decimal.
    #[error("not of the form [-]digits[.digits]")]
    Form = 1,
    /// The lower bound is above the upper bound.
    #[error("lower bound above upper bound")]
    Order = 2,
}

/// Makes the range in units between two decimals: its lower bound is rounded up, and its upper bound down. A coordinate is a
/// whole number of units, so it is in this range if and only if it is between the decimals. If no unit is, `lo` is above `hi`.
///
/// A decimal is an optional minus, one or more digits, and optionally a point and one or more digits. Its value may be farther
/// from 0 than any coordinate; the bound is then 10^34 units, or -10^34. Nothing is allocated.
///
/// # Errors
///
/// [`BadRange::Form`] if a text isn't a decimal, and otherwise [`BadRange::Order`] if the lower one is greater.
pub fn span_of_decimals(lo: &[u8], hi: &[u8]) -> Result<Span, BadRange>
    ensures ok { IfOk result (λ span. (a b : Decimal) × IsDecimalText lo.now a × IsDecimalText hi.now b
        × (is_less (rational_of b) (rational_of a) ≡ false) × (span ≡ span_of_decimals a b)) }
    ensures order { result ≡ Err BadRange.Order → (a b : Decimal) × IsDecimalText lo.now a
        × IsDecimalText hi.now b × (is_less (rational_of b) (rational_of a) ≡ true) }
    ensures exact { (a b : Decimal) → IsDecimalText lo.now a → IsDecimalText hi.now b
        → result ≡ (if is_less (rational_of b) (rational_of a) then Err BadRange.Order else Ok (span_of_decimals a b)) }
{
    let Some(lo) = Decimal::parse(lo) else {
        return Err(BadRange::Form);
    };
    let Some(hi) = Decimal::parse(hi) else {
        return Err(BadRange::Form);
    };
    if lo.is_above(&hi) {
        return Err(BadRange::Order);
    }
    Ok(Span {
        lo: lo.rounded_up(),
        hi: hi.rounded_down(),
    })
}

/// A decimal, by its digits before and after the point.
#[derive(Drop)]
pub struct Decimal<'t> {
    minus: bool,
    whole: &'t [u8],
    fraction: &'t [u8],
}

impl<'t> Model for Decimal<'t> {
    ghost use Rattle.std.specs.Prelude.{◌+◌, ◌++◌, length};
    ghost use Rattle.std.specs.Str.Parse.{digits_value};
    ghost use Rattle.twkb_layer.specs.Decimals.{Decimal};
    ghost use Rattle.twkb_layer.specs.Devices.Decimals.{AreDigits};

    ghost Value = { Decimal };

    ghost view = { λ d. record {
      minus = d.minus;
      number = digits_value 10 (d.whole.now ++ d.fraction.now);
      places = length d.fraction.now;
    } };

    ghost invariant = { λ d. AreDigits d.whole.now d.fraction.now };
}

impl<'t> Decimal<'t> {
    /// Parses a decimal. Returns `None` if the whole text isn't one.
    pub fn parse(text: &'t [u8]) -> Option<Decimal<'t>>
        ensures some { IfSome result (λ d. IsDecimalText text.now d) }
        ensures exact { (d : Decimal) → IsDecimalText text.now d → result ≡ Some d }
    {
        let mut rest = TextReader::new(text);
        let minus = rest.skip(b"-");
        let whole = rest.digits();
        let fraction = rest.fraction();
        if whole.is_empty() || !rest.is_empty() {
            return None;
        }
        Some(Decimal {
            minus,
            whole,
            fraction,
        })
    }

    /// The value rounded up to units, at most 10^34 from 0.
    pub fn rounded_up(&self) -> i128
        ensures { result ≡ rounded_up (rational_of self.now) }
    {
        self.rounded(!self.minus)
    }

    /// The value rounded down to units, at most 10^34 from 0.
    pub fn rounded_down(&self) -> i128
        ensures { result ≡ rounded_down (rational_of self.now) }
    {
        self.rounded(self.minus)
    }

    /// Whether the value is greater than the other decimal's.
    pub fn is_above(&self, other: &Decimal) -> bool
        ensures { result ≡ is_less (rational_of other.now) (rational_of self.now) }
    {
        let (places, others) = (self.fraction.len(), other.fraction.len());
        let mut power = self.whole.len().max(other.whole.len()) + places + others;
        let mut ahead: i64 = 0;
        while power > 0 {
            power -= 1;
            let digit = self.signed_digit(others, power);
            ahead = leaning(ahead, digit, other.signed_digit(places, power));
        }
        ahead > 0
    }

    /// The value rounded to units, away from 0 or towards it, at most 10^34 from 0.
    fn rounded(&self, away: bool) -> i128
        ensures { result ≡ signed self.now.minus
            (min (whole_units self.now + cond (away && is_between_units self.now) 1 0) farthest) }
    {
        let mut amount = self.amount();
        if away && self.is_between_units() {
            amount = (amount + 1).min(FARTHEST);
        }
        let amount = amount as i128;
        if self.minus { -amount } else { amount }
    }

    /// The absolute value in units, rounded down, at most [`FARTHEST`].
    fn amount(&self) -> u128
        ensures { result ≡ min (whole_units self.now) farthest }
    {
        let places = self.fraction.len();
        let mut power = self.whole.len() + places + UNIT_PLACES;
        let mut amount = 0;
        while power > places {
            power -= 1;
            amount = (amount * 10 + u128::from(self.digit(UNIT_PLACES, power))).min(FARTHEST);
        }
        amount
    }

    /// Whether the value isn't a whole number of units.
    fn is_between_units(&self) -> bool
        ensures { result ≡ is_between_units self.now }
    {
        for power in 0..self.fraction.len() {
            if self.digit(UNIT_PLACES, power) != 0 {
                return true;
            }
        }
        false
    }

    /// A digit, as in [`digit`](Decimal::digit), with the sign of the decimal.
    fn signed_digit(&self, zeros: usize, power: usize) -> i64
        ensures { result ≡ signed self.now.minus (self.now.number * 10 ^ zeros / 10 ^ power % 10) }
    {
        let digit = i64::from(self.digit(zeros, power));
        if self.minus { -digit } else { digit }
    }

    /// The digit of 10^`power` in all digits without the point and with `zeros` zeros appended.
    fn digit(&self, zeros: usize, power: usize) -> u8
        ensures { result ≡ self.now.number * 10 ^ zeros / 10 ^ power % 10 }
    {
        if power < zeros {
            return 0;
        }
        let power = power - zeros;
        let places = self.fraction.len();
        if power < places {
            digit_of(self.fraction, power)
        } else {
            digit_of(self.whole, power - places)
        }
    }
}

/// The difference of two numbers with one more digit each, limited to the range from -2 to 2.
// Later digits can't change the sign of a difference of 2.
fn leaning(ahead: i64, digit: i64, other: i64) -> i64
    requires ahead { (neg_ℤ (pos 2) ≤ℤ ahead) × (ahead ≤ℤ pos 2) }
    requires digit { (neg_ℤ (pos 9) ≤ℤ digit) × (digit ≤ℤ pos 9) }
    requires other { (neg_ℤ (pos 9) ≤ℤ other) × (other ≤ℤ pos 9) }
    ensures { result ≡ leaning (ahead *ℤ pos 10 +ℤ (digit -ℤ other)) }
{
    (ahead * 10 + (digit - other)).clamp(-2, 2)
}

/// The digit of 10^`power`, or 0 if there are fewer digits.
fn digit_of(digits: &[u8], power: usize) -> u8
    requires { AllDigits 10 digits.now }
    ensures { result ≡ digits_value 10 digits.now / 10 ^ power % 10 }
{
    if power < digits.len() {
        digits[digits.len() - 1 - power] - b'0'
    } else {
        0
    }
}
