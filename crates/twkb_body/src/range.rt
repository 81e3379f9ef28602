//! [`Range`], the least and the greatest raw coordinate of an axis under one header.
//!
//! Raw coordinates have 64 bits and one precision per axis, so within a header two comparisons serve a coordinate, with
//! no 128-bit arithmetic. A box is compared with the range in raw coordinates, and only if it may be false are the ends scaled to
//! units. Used by `extents`, `geometry`, `seen` and `shape`.
ghost use Rattle.std.specs.Prelude.{◌≡◌, ◌≤◌, IfSome, None, Some, true, pos, [], ◌∷◌};
ghost use Rattle.twkb_num.specs.Units.{IsPrecision};
ghost use Rattle.twkb_body.specs.Extent.{joined, span_of, both};
ghost use Rattle.twkb_body.specs.Devices.Extents.{lane_span};
ghost use Rattle.twkb_body.specs.Devices.Ranges.{range_at, scaled, scaled_if, IsHeldRaw, AreHeldRaw};
ghost use Rattle.twkb_body.specs.Devices.Seen.{in_units};
ghost use Rattle.twkb_head.specs.Head.{m_axis};
ghost use Rattle.twkb_head.specs.Raw.{HavePrecisions};

use crate::extent::Extent;
use crate::extent_lanes::ZERO;
use std::marker::Model;
use twkb_head::{Axes, RawBox, RawRange, Span};
use twkb_num::units;

/// The least and the greatest of raw coordinates; the least is above the greatest where there are none.
#[derive(Clone, Copy)]
pub struct Range {
    least: i64,
    greatest: i64,
}

impl Model for Range {
    ghost use Rattle.std.specs.Prelude.{Option};
    ghost use Rattle.twkb_head.specs.declared.boxes.Span.{Span};

    ghost Value = { Option Span };

    ghost use Rattle.twkb_body.specs.Devices.Ranges.{range_view, range_of_span, IsRange};

    ghost view = { range_view };

    ghost inverse = { range_of_span };

    ghost invariant = { IsRange };
}

impl Range {
    /// No coordinate.
    #[inline(always)]
    pub fn empty() -> Range
        ensures { result ≡ None }
    {
        Range {
            least: i64::MAX,
            greatest: i64::MIN,
        }
    }

    /// The coordinates in lanes between these two, whose base is zero. There are none if the least is above the greatest.
    #[inline(always)]
    pub fn of_lanes(least: u32, greatest: u32) -> Range
        ensures { result ≡ lane_span (pos 0) least greatest }
    {
        if least <= greatest {
            Range {
                least: i64::from(least) - i64::from(ZERO),
                greatest: i64::from(greatest) - i64::from(ZERO),
            }
        } else {
            Range::empty()
        }
    }

    /// Adds the coordinates of another range.
    #[inline(always)]
    pub fn join(&mut self, more: &Range)
        ensures { self.new ≡ joined self.old more.now }
    {
        self.least = self.least.min(more.least);
        self.greatest = self.greatest.max(more.greatest);
    }

    /// Adds one coordinate.
    #[inline(always)]
    pub fn add(&mut self, coordinate: i64)
        ensures { self.new ≡ joined self.old (span_of (coordinate ∷ [])) }
    {
        self.least = self.least.min(coordinate);
        self.greatest = self.greatest.max(coordinate);
    }

    /// If `true`, a raw range holds all coordinates, and in tight checking it goes no further than they do. `false` says nothing.
    #[inline(always)]
    pub fn is_held_by<const TIGHT: bool>(&self, range: &RawRange) -> bool
        ensures { result ≡ true → IsHeldRaw TIGHT range.now self.now }
    {
        // The difference wraps around if it doesn't fit 64 bits. Then it is below zero.
        let reach = self.greatest.wrapping_sub(range.minimum);
        if TIGHT {
            (range.minimum == self.least) & (reach == range.extent) & (0 <= reach)
        } else {
            (range.minimum <= self.least) & (reach <= range.extent) & (0 <= reach)
        }
    }

    /// The range in units, of coordinates at a precision.
    #[inline(always)]
    pub fn in_units(&self, precision: i8) -> Option<Span>
        requires { IsPrecision precision }
        ensures { result ≡ scaled precision self.now }
    {
        if self.greatest < self.least {
            None
        } else {
            Some(Span {
                lo: units(i128::from(self.least), precision),
                hi: units(i128::from(self.greatest), precision),
            })
        }
    }

    /// The range in units, if the axis has a precision.
    #[inline(always)]
    pub fn in_units_if(&self, precision: Option<u8>) -> Option<Span>
        requires { IfSome precision (λ p. p ≤ 7) }
        ensures { result ≡ scaled_if precision self.now }
    {
        match precision {
            Some(precision) => self.in_units(precision as i8),
            None => None,
        }
    }
}

/// The ranges of the axes under one header, in the order of their numbers. An axis that the header doesn't have may have any range.
#[derive(Clone, Copy)]
pub struct Ranges {
    pub x: Range,
    pub y: Range,
    pub third: Range,
    pub fourth: Range,
}

impl Ranges {
    /// No coordinate.
    #[inline(always)]
    pub fn empty() -> Ranges
        ensures { result ≡ record { x = None; y = None; third = None; fourth = None } }
    {
        Ranges {
            x: Range::empty(),
            y: Range::empty(),
            third: Range::empty(),
            fourth: Range::empty(),
        }
    }

    /// Adds the coordinates of other ranges, in these axes.
    #[inline(always)]
    pub fn join(&mut self, more: &Ranges, axes: Axes)
        ensures { in_units axes self.new ≡ both (in_units axes self.old) (in_units axes more.now) }
    {
        self.x.join(&more.x);
        self.y.join(&more.y);
        if !axes.is_flat() {
            self.third.join(&more.third);
            self.fourth.join(&more.fourth);
        }
    }

    /// If `true`, a box of a header with these axes holds all coordinates, and in tight checking it is tight. `false` says nothing.
    #[inline(always)]
    pub fn are_held_by<const TIGHT: bool>(&self, bounds: &RawBox, axes: Axes) -> bool
        ensures { result ≡ true → AreHeldRaw TIGHT axes bounds.now self.now }
    {
        // Both are compared at once.
        (self.x.is_held_by::<TIGHT>(&bounds.x) & self.y.is_held_by::<TIGHT>(&bounds.y))
            && (axes.is_flat()
                || (self.third.is_held_by::<TIGHT>(&bounds.third)
                    && (axes.z.is_none()
                        || axes.m.is_none()
                        || self.fourth.is_held_by::<TIGHT>(&bounds.fourth))))
    }

    /// The ranges in units, by the precisions of a header.
    // It isn't inlined: few ranges are scaled.
    #[inline(never)]
    pub fn in_units(&self, axes: Axes) -> Extent
        requires { HavePrecisions axes }
        ensures { result ≡ in_units axes self.now }
    {
        Extent::from_spans(
            self.x.in_units(axes.xy),
            self.y.in_units(axes.xy),
            self.third.in_units_if(axes.z),
            self.m(axes.z).in_units_if(axes.m),
        )
    }

    /// The range of M, which comes after X and Y, and after Z if there is one.
    #[inline(always)]
    fn m(&self, z: Option<u8>) -> &Range
        ensures { result.now ≡ range_at self.now (m_axis z) }
    {
        match z {
            Some(_) => &self.fourth,
            None => &self.third,
        }
    }
}
