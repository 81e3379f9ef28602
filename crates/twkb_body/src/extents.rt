//! [`Extents`], which takes the points under one header, and keeps of each axis the last coordinate and the range of all.
//!
//! Short numbers come in lanes and are added there, as distances from a base of 64 bits. A number that comes by itself is added
//! exactly, and then its point is the base.
//! Used by `extent_reader` and `shape`.
ghost use Rattle.std.specs.Prelude.{◌≡◌, ◌<◌, ◌≤◌, ℕ, [], ◌∷◌, true, false, None, pos, ◌+ℤ◌};
ghost use Rattle.twkb_body.specs.Extent.{joined, span_of};
ghost use Rattle.twkb_body.specs.Devices.Columns.{sum_fits};
ghost use Rattle.twkb_body.specs.Devices.Extents.{distance, lane_span, axis_in, base_of, has_left, last_from, last_of, range_from, range_of, no_base, AreHeld, IsHeld, IsNearZero, AddsNumber, AddsToBase};
ghost use Rattle.twkb_body.specs.Devices.Ranges.{range_at};

use crate::extent_lanes::{
    Lanes, ZERO, greatest_of_axes, least_of_axes, narrow_steps_of, steps_of,
};
use crate::range::{Range, Ranges};
use std::simd::prelude::*;
use twkb_num::TakePoints;

/// From a base that is at most this far from zero, no distance in a lane leads out of 64 bits.
const FARTHEST: u64 = 1 << 62;

/// The points of an axis: the last coordinate, and the range of all.
#[derive(Clone, Copy)]
pub struct AxisExtent {
    last: i64,
    pub range: Range,
}

impl AxisExtent {
    /// No point yet. Differences start from zero.
    #[inline(always)]
    fn none() -> AxisExtent
        ensures last { result.last ≡ pos 0 }
        ensures range { result.range ≡ None }
    {
        AxisExtent {
            last: 0,
            range: Range::empty(),
        }
    }

    /// Sees the points in lanes whose base is the last coordinate: the last one, the least and the greatest. It does nothing if the
    /// points don't have the axis (`is_there`).
    #[inline(always)]
    fn see(&mut self, is_there: bool, last: u32, least: u32, greatest: u32)
        ensures last { is_there ≡ true → sum_fits (self.old.last +ℤ distance last)
            → self.new.last ≡ self.old.last +ℤ distance last }
        ensures range { is_there ≡ true
            → (least ≤ greatest → sum_fits (self.old.last +ℤ distance least) × sum_fits (self.old.last +ℤ distance greatest))
            → self.new.range ≡ joined self.old.range (lane_span self.old.last least greatest) }
    {
        if is_there {
            self.see_lanes(last, least, greatest);
        }
    }

    /// Sees the points as [`AxisExtent::see`] does, if they have the axis.
    #[inline(always)]
    fn see_lanes(&mut self, last: u32, least: u32, greatest: u32)
        ensures last { sum_fits (self.old.last +ℤ distance last) → self.new.last ≡ self.old.last +ℤ distance last }
        ensures range { (least ≤ greatest
            → sum_fits (self.old.last +ℤ distance least) × sum_fits (self.old.last +ℤ distance greatest))
            → self.new.range ≡ joined self.old.range (lane_span self.old.last least greatest) }
    {
        let base = self.last;
        if least <= greatest {
            self.range.add(coordinate_at(base, least));
            self.range.add(coordinate_at(base, greatest));
        }
        self.last = coordinate_at(base, last);
    }

    /// Adds a point whose coordinate is this much greater than the last one, if it is in this axis. Returns whether the coordinate
    /// doesn't fit 64 bits.
    #[inline(always)]
    fn add_if(&mut self, is_axis: bool, number: i64) -> bool
        ensures fits { is_axis ≡ true → result ≡ false → sum_fits (self.old.last +ℤ number) }
        ensures leaves_64 { is_axis ≡ true → result ≡ true → sum_fits (self.old.last +ℤ number) → ⊥ }
        ensures last { is_axis ≡ true → result ≡ false → self.new.last ≡ self.old.last +ℤ number }
        ensures range { is_axis ≡ true → result ≡ false
            → self.new.range ≡ joined self.old.range (span_of ((self.old.last +ℤ number) ∷ [])) }
        ensures still { is_axis ≡ false → self.new ≡ self.old }
        ensures stays { is_axis ≡ false → result ≡ false }
    {
        if is_axis { self.add(number) } else { false }
    }

    /// Adds a point whose coordinate is this much greater than the last one. Returns whether it doesn't fit 64 bits.
    #[inline(always)]
    fn add(&mut self, number: i64) -> bool
        ensures fits { result ≡ false → sum_fits (self.old.last +ℤ number) }
        ensures leaves_64 { result ≡ true → sum_fits (self.old.last +ℤ number) → ⊥ }
        ensures last { result ≡ false → self.new.last ≡ self.old.last +ℤ number }
        ensures range { result ≡ false
            → self.new.range ≡ joined self.old.range (span_of ((self.old.last +ℤ number) ∷ [])) }
    {
        let (sum, leaves) = self.last.overflowing_add(number);
        self.last = sum;
        self.range.add(sum);
        leaves
    }

    /// If `true`, the last coordinate can be a base for lanes. `false` says nothing.
    #[inline(always)]
    fn is_near_zero(&self) -> bool
        ensures { result ≡ true → IsNearZero self.now.last }
    {
        self.last.unsigned_abs() <= FARTHEST
    }
}

/// The coordinate at the distance of a lane from a base; it wraps around if it doesn't fit 64 bits.
#[inline(always)]
fn coordinate_at(base: i64, lane: u32) -> i64
    ensures { sum_fits (base +ℤ distance lane) → result ≡ base +ℤ distance lane }
{
    base.wrapping_add(i64::from(lane) - i64::from(ZERO))
}

/// The last point that came by itself, which is the base of the lanes, and the range of all points up to it, axis by axis.
#[derive(Clone, Copy)]
pub struct Base {
    x: AxisExtent,
    y: AxisExtent,
    third: AxisExtent,
    fourth: AxisExtent,
    /// Whether the base is near enough to zero for points in lanes. If not, there are none.
    is_near: bool,
    /// Whether a sum has left 64 bits. Then the other fields say nothing.
    has_left: bool,
}

impl Base {
    /// No point yet.
    #[inline(always)]
    fn zero() -> Base
        ensures { result ≡ no_base }
    {
        Base {
            x: AxisExtent::none(),
            y: AxisExtent::none(),
            third: AxisExtent::none(),
            fourth: AxisExtent::none(),
            is_near: true,
            has_left: false,
        }
    }

    /// Sees the points in lanes. The last one becomes the base.
    #[inline(always)]
    fn see<const AXES: usize>(&mut self, lanes: &Lanes)
        ensures near { self.new.is_near ≡ self.old.is_near }
        ensures left { self.new.has_left ≡ self.old.has_left }
        ensures last { AreHeld AXES self.old lanes.now → (k : ℕ) → k < AXES → k < 4
            → (axis_in self.new k).last ≡ last_from self.old lanes.now k }
        ensures range { AreHeld AXES self.old lanes.now → (k : ℕ) → k < AXES → k < 4
            → (axis_in self.new k).range ≡ range_from AXES self.old lanes.now k }
    {
        let last = lanes.last.to_array();
        let least = least_of_axes::<AXES>(lanes.least).to_array();
        let greatest = greatest_of_axes::<AXES>(lanes.greatest).to_array();
        self.x.see(0 < AXES, last[0], least[0], greatest[0]);
        self.y.see(1 < AXES, last[1], least[1], greatest[1]);
        self.third.see(2 < AXES, last[2], least[2], greatest[2]);
        self.fourth.see(3 < AXES, last[3], least[3], greatest[3]);
    }

    /// Adds the number of an axis, after the numbers of the axes before it.
    #[inline(always)]
    fn add<const AXES: usize>(&mut self, axis: usize, number: i64)
        requires axes { AXES ≤ 4 }
        requires axis { axis < AXES }
        ensures added { ((k : ℕ) → k < AXES → sum_fits (axis_in self.old k).last) → self.old.has_left ≡ false
            → AddsToBase AXES axis number self.old self.new }
        ensures left { self.old.has_left ≡ true → self.new.has_left ≡ true }
    {
        let leaves = self.x.add_if(axis == 0, number)
            | self.y.add_if(axis == 1, number)
            | self.third.add_if(axis == 2, number)
            | self.fourth.add_if(axis == 3, number);
        self.has_left = self.has_left | leaves;
        self.is_near = (axis + 1 == AXES) & self.are_near_zero::<AXES>();
    }

    /// If `true`, the last coordinates can be the bases for lanes. `false` says nothing.
    #[inline(always)]
    fn are_near_zero<const AXES: usize>(&self) -> bool
        ensures { result ≡ true → (k : ℕ) → k < AXES → k < 4 → IsNearZero (axis_in self.now k).last }
    {
        self.x.is_near_zero()
            && self.y.is_near_zero()
            && (AXES < 3 || self.third.is_near_zero())
            && (AXES < 4 || self.fourth.is_near_zero())
    }

    /// The ranges of the points up to the base, and of the points in lanes.
    // It isn't inlined: few points are long.
    #[inline(never)]
    fn ranges_with<const AXES: usize>(&self, lanes: &Lanes) -> Ranges
        ensures { AreHeld AXES self.now lanes.now → (k : ℕ) → k < AXES → k < 4
            → range_at result k ≡ range_from AXES self.now lanes.now k }
    {
        let mut all = *self;
        all.see::<AXES>(lanes);
        Ranges {
            x: all.x.range,
            y: all.y.range,
            third: all.third.range,
            fourth: all.fourth.range,
        }
    }
}

/// The points under one header, axis by axis.
#[derive(Drop)]
pub struct Extents {
    lanes: Lanes,
    /// The base, if some number came by itself. Else the base is zero.
    base: Option<Base>,
}

impl Extents {
    /// No point yet.
    #[inline(always)]
    pub fn none() -> Extents
        ensures held { (axes : ℕ) → axes ≤ 4 → IsHeld axes result }
        ensures last { (k : ℕ) → k < 4 → last_of result k ≡ pos 0 }
        ensures range { (axes k : ℕ) → axes ≤ 4 → k < axes → range_of axes result k ≡ None }
        ensures left { has_left result ≡ false }
    {
        Extents {
            lanes: Lanes::none(),
            base: None,
        }
    }

    /// Whether a sum has left 64 bits. Then the extents say nothing.
    #[inline(always)]
    pub fn has_left(&self) -> bool
        ensures { result ≡ has_left self.now }
    {
        match &self.base {
            Some(base) => base.has_left,
            None => false,
        }
    }

    /// If `false`, the base is too far from zero for points in lanes.
    #[inline(always)]
    fn is_near(&self) -> bool
        ensures { result ≡ (base_of self.now).is_near }
    {
        match &self.base {
            Some(base) => base.is_near,
            None => true,
        }
    }

    /// The ranges of all points, in the axes that they have.
    #[inline(always)]
    pub fn ranges<const AXES: usize>(&self) -> Ranges
        ensures { IsHeld AXES self.now → (k : ℕ) → k < AXES → k < 4
            → range_at result k ≡ range_of AXES self.now k }
    {
        match &self.base {
            Some(base) => base.ranges_with::<AXES>(&self.lanes),
            None => lane_ranges::<AXES>(&self.lanes),
        }
    }

    /// Adds the number of an axis, after the numbers of the axes before it.
    // It isn't inlined: long numbers are few, and points in lanes stay in registers.
    #[inline(never)]
    fn add<const AXES: usize>(&mut self, axis: usize, number: i64)
        requires axes { AXES ≤ 4 }
        requires axis { axis < AXES }
        ensures added { IsHeld AXES self.old → has_left self.old ≡ false
            → AddsNumber AXES axis number self.old self.new }
        ensures left { has_left self.old ≡ true → has_left self.new ≡ true }
    {
        let mut base = match &self.base {
            Some(base) => *base,
            None => Base::zero(),
        };
        base.see::<AXES>(&self.lanes);
        base.add::<AXES>(axis, number);
        self.base = Some(base);
        self.lanes = Lanes::none();
    }
}

/// The ranges of points in lanes whose base is zero.
#[inline(always)]
fn lane_ranges<const AXES: usize>(lanes: &Lanes) -> Ranges
    ensures { AreHeld AXES no_base lanes.now → (k : ℕ) → k < AXES → k < 4
        → range_at result k ≡ range_from AXES no_base lanes.now k }
{
    let least = least_of_axes::<AXES>(lanes.least).to_array();
    let greatest = greatest_of_axes::<AXES>(lanes.greatest).to_array();
    Ranges {
        x: Range::of_lanes(least[0], greatest[0]),
        y: Range::of_lanes(least[1], greatest[1]),
        third: range_if(2 < AXES, least[2], greatest[2]),
        fourth: range_if(3 < AXES, least[3], greatest[3]),
    }
}

/// The range between two lanes, if the points have the axis.
#[inline(always)]
fn range_if(is_there: bool, least: u32, greatest: u32) -> Range
    ensures { is_there ≡ true → result ≡ lane_span (pos 0) least greatest }
{
    if is_there {
        Range::of_lanes(least, greatest)
    } else {
        Range::empty()
    }
}

impl<const AXES: usize> TakePoints<AXES> for Extents {
    ghost use Rattle.twkb_body.specs.Devices.Extents.{Took, HasRoom};

    ghost took = { Took AXES };

    ghost has_room = { HasRoom };

    #[inline(always)]
    fn fits_lanes(&self) -> bool {
        self.is_near() && self.lanes.have_room()
    }

    #[inline(always)]
    fn take_narrow(&mut self, numbers: u16x8) {
        let (first, second) = narrow_steps_of::<AXES>(numbers);
        self.lanes = self.lanes.see::<AXES>(first).see::<AXES>(second);
    }

    #[inline(always)]
    fn take_wide(&mut self, numbers: u32x4, _many: usize) {
        self.lanes = self.lanes.see::<AXES>(steps_of::<AXES>(numbers));
    }

    #[inline(always)]
    fn take_one(&mut self, axis: usize, number: i64) {
        self.add::<AXES>(axis, number);
    }
}
