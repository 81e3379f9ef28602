//! [`Vertex`] and [`Bounds`], vertices and boxes in units.
//!
//! A unit is 10^-7 of a coordinate unit: coordinates of every precision are whole numbers of units, and compare as such.
//! Used by other crates, and here by `header` and `raw`.
ghost use Rattle.std.specs.Prelude.{◌≡◌, ◌↔◌, ◌+ℤ◌, IsTrue};
ghost use Rattle.twkb_num.specs.Units.{IsPrecision};
ghost use Rattle.twkb_head.specs.Head.{span_at};
ghost use Rattle.twkb_head.specs.Devices.Holds.{IsWithinBoth};
ghost use Rattle.twkb_head.specs.Holds.{IsWithin, Holds};

use twkb_num::units;

/// A closed range, in units. If `lo` is above `hi`, it holds nothing.
#[derive(Clone, Copy, Debug, PartialEq, Eq)]
pub struct Span {
    pub lo: i128,
    pub hi: i128,
}

impl Span {
    /// The range that a box spells by a minimum and a width at a precision. The maximum is their sum as whole numbers, and may
    /// exceed 64 bits. A negative width gives a range that holds nothing (this project's choice).
    #[inline(always)]
    pub fn spelled(minimum: i64, width: i64, precision: i8) -> Span
        requires { IsPrecision precision }
        ensures { result ≡ span_at precision (minimum, minimum +ℤ width) }
    {
        Span {
            lo: units(i128::from(minimum), precision),
            hi: units(maximum(minimum, width), precision),
        }
    }
}

/// The maximum: minimum plus width as a whole number, which may exceed 64 bits.
#[inline(always)]
fn maximum(minimum: i64, width: i64) -> i128
    ensures { result ≡ minimum +ℤ width }
{
    i128::from(minimum) + i128::from(width)
}

/// A vertex, in units.
#[derive(Clone, Copy, Debug, PartialEq, Eq)]
pub struct Vertex {
    pub x: i128,
    pub y: i128,
    pub z: Option<i128>,
    pub m: Option<i128>,
}

/// A box, in units: a range for each axis of its header.
#[derive(Clone, Copy, Debug, PartialEq, Eq)]
pub struct Bounds {
    pub x: Span,
    pub y: Span,
    pub z: Option<Span>,
    pub m: Option<Span>,
}

impl Bounds {
    /// Whether `vertex` is in the range of each axis that both have. An axis that only one of them has isn't compared (this
    /// project's choice).
    #[inline]
    pub fn holds(&self, vertex: &Vertex) -> bool
        ensures { IsTrue result ↔ Holds self.now vertex.now }
    {
        within(&self.x, vertex.x)
            && within(&self.y, vertex.y)
            && within_both(self.z, vertex.z)
            && within_both(self.m, vertex.m)
    }
}

/// Whether `value` is in the range, ends included.
#[inline(always)]
fn within(span: &Span, value: i128) -> bool
    ensures { IsTrue result ↔ IsWithin span.now value }
{
    span.lo <= value && value <= span.hi
}

/// Whether a coordinate is in a range, if both are there. Otherwise there is nothing to compare.
#[inline(always)]
fn within_both(span: Option<Span>, value: Option<i128>) -> bool
    ensures { IsTrue result ↔ IsWithinBoth span value }
{
    match (span, value) {
        (Some(span), Some(value)) => within(&span, value),
        _ => true,
    }
}
