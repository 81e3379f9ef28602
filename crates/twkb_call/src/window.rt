//! [`Window`], a window whose ends are two words of 64 bits each, the parser of its text, and ranges of decimal numbers.
//! Used by other crates, and here by `directory`, `drawing` and `scans`.
ghost use Rattle.std.specs.Prelude.{◌≡◌, ◌≢◌, ◌≤◌, if◌then◌else◌, true, false};
ghost use Rattle.twkb_head.specs.declared.boxes.Bounds.{Bounds};
ghost use Rattle.twkb_layer.specs.Decimals.{Decimal, IsDecimalText, is_less, rational_of, span_of_decimals};
ghost use Rattle.twkb_layer.specs.WindowText.{IsWindowText, in_order};
ghost use Rattle.twkb_call.specs.Vertices.{words_of};
ghost use Rattle.twkb_call.specs.Window.{value_of, span_from, ranges_of};

use twkb_layer::{BadRange, BadWindow, Span};

/// A number of units in two words, since no 128-bit number crosses to other languages.
#[repr(C)]
#[derive(Clone, Copy, Debug, PartialEq, Eq)]
pub struct Units {
    pub low: u64,
    /// The high word, each step of which is 2^64.
    pub high: i64,
}

/// A range. Both ends belong to it.
#[repr(C)]
#[derive(Clone, Copy, Debug, PartialEq, Eq)]
pub struct Range {
    pub lo: Units,
    pub hi: Units,
}

/// A window. If it doesn't bound Z or M, that range means nothing.
#[repr(C)]
#[derive(Clone, Copy, Debug, PartialEq, Eq)]
pub struct Window {
    pub x: Range,
    pub y: Range,
    pub z: Range,
    pub m: Range,
    pub has_z: bool,
    pub has_m: bool,
}

const SIZE: usize = std::mem::size_of::<Window>();

const _: () = prove!(SIZE == 136);

const BASE: i128 = 1 << 64;

impl Units {
    /// A number of units as two words.
    pub(crate) fn of(value: i128) -> Units
        ensures value { value_of result ≡ value }
        ensures words { result ≡ words_of value }
    {
        Units {
            low: value.rem_euclid(BASE) as u64,
            high: value.div_euclid(BASE) as i64,
        }
    }

    /// The number of units that the two words are.
    fn value(&self) -> i128
        ensures { result ≡ value_of self.now }
    {
        i128::from(self.high) * BASE + i128::from(self.low)
    }
}

impl Range {
    /// Filled in where a range is missing.
    const NONE: Range = Range {
        lo: Units { low: 0, high: 0 },
        hi: Units { low: 0, high: 0 },
    };

    /// A range in units as two pairs of words.
    fn of(span: &Span) -> Range
        ensures { span_from result ≡ span.now }
    {
        Range {
            lo: Units::of(span.lo),
            hi: Units::of(span.hi),
        }
    }

    /// The range in units.
    fn span(&self) -> Span
        ensures { result ≡ span_from self.now }
    {
        Span {
            lo: self.lo.value(),
            hi: self.hi.value(),
        }
    }
}

impl Window {
    /// A window of `twkb_layer`, with each end of a range as two words of 64 bits: the end is `high` * 2^64 + `low`.
    fn of(window: &twkb_layer::Window) -> Window
        ensures { ranges_of result ≡ window.now }
    {
        let ranges = window.ranges();
        Window {
            x: Range::of(&ranges.x),
            y: Range::of(&ranges.y),
            z: ranges.z.map_or(Range::NONE, |z| Range::of(&z)),
            m: ranges.m.map_or(Range::NONE, |m| Range::of(&m)),
            has_z: ranges.z.is_some(),
            has_m: ranges.m.is_some(),
        }
    }

    /// The window in units. An axis without a flag has no range.
    pub(crate) fn in_units(&self) -> twkb_layer::Window
        ensures { result ≡ ranges_of self.now }
    {
        let mut window = twkb_layer::Window::new(self.x.span(), self.y.span());
        if self.has_z {
            window = window.with_z(self.z.span());
        }
        if self.has_m {
            window = window.with_m(self.m.span());
        }
        window
    }
}

/// Parses a window of the form `x=A..B,y=C..D[,z=E..F][,m=G..H]`, exactly. The result is 0, or 1 if the text doesn't have this
/// form, or 2 if a lower bound is above its upper bound. If it isn't 0, the window stays as it was.
pub fn parse_window(text: &[u8], window: &mut Window) -> u32
    ensures answers { result ≤ 2 }
    ensures window { result ≡ 0
        → IsWindowText text.now (ranges_of window.new) × (in_order (ranges_of window.new) ≡ true) }
    ensures order { result ≡ 2 → (w : Bounds) × IsWindowText text.now w × (in_order w ≡ false) }
    ensures exact { (w : Bounds) → IsWindowText text.now w → result ≡ (if in_order w then 0 else 2) }
    ensures kept { result ≢ 0 → window.new ≡ window.old }
{
    match twkb_layer::Window::parse_bytes(text) {
        Ok(read) => {
            *window = Window::of(&read);
            0
        }
        Err(BadWindow::Form) => 1,
        Err(BadWindow::Order) => 2,
    }
}

/// Makes the range in units between two decimals of any length: its lower bound is rounded up, and its upper bound down. The
/// result is 0, or 1 if one of them isn't of the form `[-]digits[.digits]`, or 2 if the lower one is greater. If it isn't 0,
/// the range is unchanged.
pub fn span_of_decimals(lo: &[u8], hi: &[u8], range: &mut Range) -> u32
    ensures answers { result ≤ 2 }
    ensures range { result ≡ 0 → (a b : Decimal) × IsDecimalText lo.now a × IsDecimalText hi.now b
        × (is_less (rational_of b) (rational_of a) ≡ false) × (span_from range.new ≡ span_of_decimals a b) }
    ensures order { result ≡ 2 → (a b : Decimal) × IsDecimalText lo.now a × IsDecimalText hi.now b
        × (is_less (rational_of b) (rational_of a) ≡ true) }
    ensures exact { (a b : Decimal) → IsDecimalText lo.now a → IsDecimalText hi.now b
        → result ≡ (if is_less (rational_of b) (rational_of a) then 2 else 0) }
    ensures kept { result ≢ 0 → range.new ≡ range.old }
{
    match twkb_layer::span_of_decimals(lo, hi) {
        Ok(span) => {
            *range = Range::of(&span);
            0
        }
        Err(BadRange::Form) => 1,
        Err(BadRange::Order) => 2,
    }
}
