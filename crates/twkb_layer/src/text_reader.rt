//! [`TextReader`], which reads the text of a window or of a decimal, piece by piece. Used by `decimal` and `window`.
ghost use Rattle.std.specs.Prelude.{◌≡◌, ◌-◌, ◌*◌, ◌^◌, ◌<◌, ◌≤◌, ℕ, true, false, List, [], ◌++◌, take, drop, length, Option, Some, None, IfSome, unsigned_abs};
ghost use Rattle.std.specs.Bool.{OnTrue, OnFalse};
ghost use Rattle.std.specs.Str.Parse.{digits_value, AllDigits};
ghost use Rattle.twkb_head.specs.declared.boxes.Span.{Span};
ghost use Rattle.twkb_layer.specs.Devices.TextReader.{starts_digit, starts_fraction, ReadsSpan, Passes, ReadsEach, ReadsFraction, ReadsEachIfAny};
ghost use Rattle.twkb_layer.specs.WindowText.{point_and, IsAmountText, IsNumberText, IsRangeText, IsNamedTextIfAny};

use std::marker::Model;
use twkb_body::Span;

/// The part of a text that is still to be read.
#[derive(Drop)]
pub struct TextReader<'t> {
    rest: &'t [u8],
}

impl<'t> Model for TextReader<'t> {
    ghost use Rattle.std.specs.Prelude.{ℕ, List};

    ghost Value = { List ℕ };

    ghost view = { λ t. t.rest.now };
}

impl<'t> TextReader<'t> {
    /// A reader at the start of a text.
    pub fn new(text: &'t [u8]) -> TextReader<'t>
        ensures { result ≡ text.now }
    {
        TextReader { rest: text }
    }

    /// Whether the whole text was read.
    pub fn is_empty(&self) -> bool
        ensures empty { OnTrue result (self.now ≡ []) }
        ensures more { self.now ≡ [] → result ≡ true }
    {
        self.rest.is_empty()
    }

    /// Reads a name and the range after it.
    pub fn range(&mut self, name: &[u8]) -> Option<Span>
        ensures { ReadsSpan name.now self.old self.new result }
    {
        if self.skip(name) { self.span() } else { None }
    }

    /// Reads a name and the range after it, if the name is there.
    pub fn optional_range(&mut self, name: &[u8]) -> Option<Option<Span>>
        ensures some { IfSome result (Passes (IsNamedTextIfAny name.now) self.old self.new) }
        ensures exact { ReadsEachIfAny name.now self.old self.new result }
    {
        if self.skip(name) {
            Some(Some(self.span()?))
        } else {
            Some(None)
        }
    }

    /// Reads two numbers, separated by `..`.
    fn span(&mut self) -> Option<Span>
        ensures some { IfSome result (Passes IsRangeText self.old self.new) }
        ensures exact { ReadsEach IsRangeText self.old self.new result }
    {
        let lo = self.number()?;
        if !self.skip(b"..") {
            return None;
        }
        let hi = self.number()?;
        Some(Span { lo, hi })
    }

    /// Reads a number, in units.
    fn number(&mut self) -> Option<i128>
        ensures small { IfSome result (λ value. unsigned_abs value < 10 ^ 35) }
        ensures some { IfSome result (Passes IsNumberText self.old self.new) }
        ensures exact { ReadsEach IsNumberText self.old self.new result }
    {
        let minus = self.skip(b"-");
        let amount = self.amount()? as i128;
        Some(if minus { -amount } else { amount })
    }

    /// Reads a number without a sign, in units.
    fn amount(&mut self) -> Option<u128>
        ensures small { IfSome result (λ units. units < 10 ^ 35) }
        ensures some { IfSome result (Passes IsAmountText self.old self.new) }
        ensures exact { ReadsEach IsAmountText self.old self.new result }
    {
        let whole = self.digits();
        let fraction = self.fraction();
        if whole.is_empty() || whole.len() > 27 || fraction.len() > 7 {
            return None;
        }
        Some(
            digits_value(whole) * 10_000_000 + digits_value(fraction) * place_value(fraction.len()),
        )
    }

    /// Reads a `.` and the digits after it. If the text doesn't begin with a `.` and a digit, it reads nothing.
    pub fn fraction(&mut self) -> &'t [u8]
        ensures parts { self.old ≡ point_and result.now ++ self.new }
        ensures digits { AllDigits 10 result.now }
        ensures exact { ReadsFraction self.old self.new result.now }
    {
        if has_fraction(self.rest) {
            self.rest = &self.rest[1..];
            self.digits()
        } else {
            &self.rest[..0]
        }
    }

    /// Reads all digits at the start of the text.
    pub fn digits(&mut self) -> &'t [u8]
        ensures parts { self.old ≡ result.now ++ self.new }
        ensures digits { AllDigits 10 result.now }
        ensures most { starts_digit self.new ≡ false }
    {
        let (digits, rest) = self.rest.split_at(count_digits(self.rest));
        self.rest = rest;
        digits
    }

    /// Moves past the word if the text begins with it, and returns whether it does.
    pub fn skip(&mut self, word: &[u8]) -> bool
        ensures taken { OnTrue result (self.old ≡ word.now ++ self.new) }
        ensures still { OnFalse result (self.new ≡ self.old) }
        ensures exact { (behind : List ℕ) → self.old ≡ word.now ++ behind → (result ≡ true) × (self.new ≡ behind) }
    {
        match self.rest.strip_prefix(word) {
            Some(rest) => {
                self.rest = rest;
                true
            }
            None => false,
        }
    }
}

/// Whether the text begins with a `.` and a digit.
fn has_fraction(text: &[u8]) -> bool
    ensures { result ≡ starts_fraction text.now }
{
    text.len() >= 2 && text[0] == b'.' && text[1].is_ascii_digit()
}

/// How many digits the text begins with.
fn count_digits(text: &[u8]) -> usize
    ensures within { result ≤ length text.now }
    ensures digits { AllDigits 10 (take result text.now) }
    ensures most { starts_digit (drop result text.now) ≡ false }
{
    for (i, code) in text.iter().enumerate() {
        if !code.is_ascii_digit() {
            return i;
        }
    }
    text.len()
}

/// The value of decimal digits.
fn digits_value(digits: &[u8]) -> u128
    requires digits { AllDigits 10 digits.now }
    requires few { length digits.now ≤ 27 }
    ensures { result ≡ digits_value 10 digits.now }
{
    let mut value = 0;
    for digit in digits {
        value = value * 10 + u128::from(*digit - b'0');
    }
    value
}

/// How many units a 1 is worth in the last of `digits` places after the `.`.
fn place_value(digits: usize) -> u128
    requires { digits ≤ 7 }
    ensures { result ≡ 10 ^ (7 - digits) }
{
    const SCALES: [u128; 8] = [10_000_000, 1_000_000, 100_000, 10_000, 1_000, 100, 10, 1];
    SCALES[digits]
}
