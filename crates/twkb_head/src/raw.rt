//! Boxes and headers in raw integers. Numbers of one precision compare without units. `ranges` and `read` read them.
//! Used by other crates, and here by `header`, `ranges` and `read`.
ghost use Rattle.std.specs.Prelude.{◌≡◌, ◌↔◌, IsTrue, ◌≤◌, ◌^◌, ◌≤ℤ◌, pos, neg_ℤ, None, Some, true, option_map, IfSome};
ghost use Rattle.twkb_num.specs.Units.{IsPrecision};
ghost use Rattle.twkb_head.specs.Raw.{HavePrecisions, ends_of, ranges_in, flat_box, raw_bounds, head_said, IsNear, HasNearRanges};
ghost use Rattle.twkb_head.specs.Head.{span_at, range_of, m_axis};
ghost use Rattle.twkb_head.specs.Header.{z_in, m_in};
ghost use Rattle.twkb_head.specs.declared.kinds.Kind.TheVariants.{Point};

use crate::bits::{m_of, z_of};
use crate::boxes::{Bounds, Span};
use crate::header::{BoxField, Head, SizeField};
use crate::kinds::Kind;

/// A box is near if its numbers are at most this far from zero. Then a sum of two of them fits 64 bits.
const NEAR: i64 = 1 << 61;

/// The two numbers of an axis of a box: a minimum, and the extent from there to the maximum.
#[derive(Clone, Copy, Debug, PartialEq, Eq)]
pub struct RawRange {
    pub minimum: i64,
    pub extent: i64,
}

/// A box in the integers of its header: a range for each axis, in the order X, Y, Z, M. The range of a missing axis is zeros.
#[derive(Clone, Copy, Debug, PartialEq, Eq)]
pub struct RawBox {
    pub x: RawRange,
    pub y: RawRange,
    /// The range of Z, or of M if there is no Z.
    pub third: RawRange,
    /// The range of M, if there is a Z too.
    pub fourth: RawRange,
}

/// The precisions of a header's axes: X and Y, and Z and M if it has them.
#[derive(Clone, Copy, Debug, PartialEq, Eq)]
pub struct Axes {
    pub xy: i8,
    pub z: Option<u8>,
    pub m: Option<u8>,
}

/// A header, with its box in raw integers.
#[derive(Clone, Copy, Debug, PartialEq, Eq)]
pub struct Fields {
    pub kind: Kind,
    pub axes: Axes,
    pub size: Option<SizeField>,
    pub bounds: Option<RawBox>,
    /// The place of the first byte of the box, if there is one.
    pub box_place: usize,
    pub ids: bool,
    pub empty: bool,
    pub start: usize,
    pub stop: usize,
}

impl From<(i64, i64)> for RawRange {
    ghost from_gives = { λ pair range. range ≡ record { minimum = pair.0; extent = pair.1 } };

    /// A minimum, and the extent after it.
    #[inline(always)]
    fn from(pair: (i64, i64)) -> RawRange {
        RawRange {
            minimum: pair.0,
            extent: pair.1,
        }
    }
}

impl RawRange {
    /// If `true`, both numbers are at most 2^61 from zero, so their sum fits 64 bits. `false` says nothing.
    #[inline(always)]
    pub fn is_near(&self) -> bool
        ensures { result ≡ true → IsNear self.now }
    {
        is_near(self.minimum) && is_near(self.extent)
    }

    /// The least number of the range, and the greatest.
    #[inline(always)]
    pub fn ends(&self) -> (i64, i64)
        requires { IsNear self.now }
        ensures { result ≡ ends_of self.now }
    {
        (self.minimum, self.minimum + self.extent)
    }

    /// The range in units, at a precision.
    #[inline(always)]
    pub fn in_units(&self, precision: i8) -> Span
        requires { IsPrecision precision }
        ensures { result ≡ span_at precision (ends_of self.now) }
    {
        Span::spelled(self.minimum, self.extent, precision)
    }

    /// The range in units, by the precision of its axis. `None` if there is no such axis.
    #[inline(always)]
    fn in_units_if(&self, precision: Option<u8>) -> Option<Span>
        requires { IfSome precision (λ p. p ≤ 7) }
        ensures { result ≡ option_map (λ p. span_at (pos p) (ends_of self.now)) precision }
    {
        match precision {
            Some(precision) => Some(self.in_units(precision as i8)),
            None => None,
        }
    }
}

/// If `true`, the number is at most 2^61 from zero, so a sum of two such numbers fits 64 bits. `false` says nothing.
#[inline(always)]
fn is_near(number: i64) -> bool
    ensures { result ≡ true → (neg_ℤ (pos (2 ^ 61)) ≤ℤ number) × (number ≤ℤ pos (2 ^ 61)) }
{
    -NEAR <= number && number <= NEAR
}

impl RawBox {
    /// The box of two ranges in X and Y, and none in Z and M.
    #[inline(always)]
    pub fn flat(x: RawRange, y: RawRange) -> RawBox
        ensures { result ≡ flat_box x y }
    {
        let nothing = RawRange {
            minimum: 0,
            extent: 0,
        };
        RawBox {
            x,
            y,
            third: nothing,
            fourth: nothing,
        }
    }

    /// If `true`, all its numbers are at most 2^61 from zero, so sums of two fit 64 bits. `false` says nothing.
    #[inline(always)]
    pub fn is_near(&self) -> bool
        ensures { result ≡ true → HasNearRanges self.now }
    {
        self.x.is_near() && self.y.is_near() && self.third.is_near() && self.fourth.is_near()
    }

    /// The range of M, if the header has one, by whether it also has a Z.
    #[inline(always)]
    pub fn last(&self, z: Option<u8>) -> RawRange
        ensures { ends_of result ≡ range_of (ranges_in self.now) (m_axis z) }
    {
        if z.is_some() { self.fourth } else { self.third }
    }

    /// The box in units, by the precisions of its header.
    #[inline(always)]
    pub fn in_units(&self, axes: Axes) -> Bounds
        requires { HavePrecisions axes }
        ensures { result ≡ raw_bounds axes.xy axes.z axes.m self.now }
    {
        Bounds {
            x: self.x.in_units(axes.xy),
            y: self.y.in_units(axes.xy),
            z: self.third.in_units_if(axes.z),
            m: self.last(axes.z).in_units_if(axes.m),
        }
    }
}

impl Axes {
    /// X and Y alone.
    #[inline(always)]
    pub fn flat(xy: i8) -> Axes
        ensures { result ≡ record { xy = xy; z = None; m = None } }
    {
        Axes {
            xy,
            z: None,
            m: None,
        }
    }

    /// X and Y at precision `xy`, and the axes that an extended dimensions byte announces (TWKB specification, "Extended Dimensions").
    #[inline(always)]
    pub fn announced(xy: i8, extended: u8) -> Axes
        ensures axes { result ≡ record { xy = xy; z = z_in (Some extended); m = m_in (Some extended) } }
        ensures z_high { IfSome result.z (λ p. p ≤ 7) }
        ensures m_high { IfSome result.m (λ p. p ≤ 7) }
    {
        Axes {
            xy,
            z: z_of(Some(extended)),
            m: m_of(Some(extended)),
        }
    }

    /// Whether these are the axes of another header, at the same precisions.
    // `==` is a call here.
    #[inline(always)]
    pub fn are(&self, others: Axes) -> bool
        ensures { IsTrue result ↔ (self.now ≡ others) }
    {
        self.xy == others.xy
            && are_same_precision(self.z, others.z)
            && are_same_precision(self.m, others.m)
    }

    /// If `true`, there is neither Z nor M. `false` says nothing.
    #[inline(always)]
    pub fn is_flat(&self) -> bool
        ensures z { result ≡ true → self.now.z ≡ None }
        ensures m { result ≡ true → self.now.m ≡ None }
    {
        self.z.is_none() && self.m.is_none()
    }

    /// The place of M among the coordinates of a point: after X and Y, and after Z if there is one.
    #[inline(always)]
    pub fn m_axis(&self) -> usize
        ensures value { result ≡ m_axis self.now.z }
        ensures high { result ≤ 3 }
    {
        2 + usize::from(self.z.is_some())
    }
}

/// Whether both axes are missing, or have one precision.
#[inline(always)]
fn are_same_precision(a: Option<u8>, b: Option<u8>) -> bool
    ensures { IsTrue result ↔ (a ≡ b) }
{
    match (a, b) {
        (None, None) => true,
        (Some(a), Some(b)) => a == b,
        _ => false,
    }
}

impl Fields {
    /// If `true`, it is the header of a point in X and Y. `false` says nothing.
    #[inline(always)]
    pub fn is_flat_point(&self) -> bool
        ensures kind { result ≡ true → self.now.kind ≡ Point }
        ensures z { result ≡ true → self.now.axes.z ≡ None }
        ensures m { result ≡ true → self.now.axes.m ≡ None }
    {
        matches!(self.kind, Kind::Point) && self.axes.is_flat()
    }

    /// What the header says, with its box in units.
    #[inline(always)]
    pub fn whole(&self) -> Head
        requires { HavePrecisions self.now.axes }
        ensures { result ≡ head_said self.now }
    {
        let bounds = match &self.bounds {
            Some(raw) => Some(BoxField {
                bounds: raw.in_units(self.axes),
                offset: self.box_place,
            }),
            None => None,
        };
        Head {
            kind: self.kind,
            xy: self.axes.xy,
            z: self.axes.z,
            m: self.axes.m,
            size: self.size,
            bounds,
            ids: self.ids,
            empty: self.empty,
            start: self.start,
            stop: self.stop,
        }
    }
}
