//! [`Seen`], the extent of vertices, handed up to the geometries with a box that has to hold them.
//! Used by `geometry` and `shape`.
ghost use Rattle.std.specs.Prelude.{◌≡◌, ◌||◌, [], true, false, None};
ghost use Rattle.twkb_head.specs.Raw.{HavePrecisions, head_said};
ghost use Rattle.twkb_body.specs.Extent.{Reach, reach_of, both};
ghost use Rattle.twkb_body.specs.Devices.Found.{box_judged};
ghost use Rattle.twkb_body.specs.Devices.Inside.{of_head};
ghost use Rattle.twkb_body.specs.Devices.Seen.{in_units, HasSeen};

use crate::extent::Extent;
use crate::range::Ranges;
use std::marker::Model;
use twkb_head::{Axes, Fields};

/// What a geometry shows the extent of its vertices to.
pub trait Above {
    /// The first became the second by seeing vertices of this reach.
    ghost saw: { Self → Self → Reach → Type 0 };

    /// If `false`, no box asks for vertices.
    fn asks(&self) -> bool
        ensures { result ≡ false → (reach : Reach) → saw self.now self.now reach };

    /// Shows the vertices under a header: their ranges, and their axes.
    fn show(&mut self, axes: Axes, ranges: &Ranges)
        requires { HavePrecisions axes }
        ensures { saw self.old self.new (in_units axes ranges.now) };
}

/// No geometry, above a blob.
#[derive(Drop)]
pub struct Nothing;

impl Above for Nothing {
    ghost saw = { λ old new reach. Unit {0} };

    #[inline(always)]
    fn asks(&self) -> bool {
        false
    }

    #[inline(always)]
    fn show(&mut self, _axes: Axes, _ranges: &Ranges) {}
}

/// The extent of the vertices that were read below a geometry, if a box there or above asks for it; else it says nothing.
#[derive(Drop)]
pub struct Seen {
    asked: bool,
    /// The axes of the geometry.
    axes: Axes,
    /// The ranges of the vertices whose headers have these axes. They are scaled to units only where others are seen too, where the
    /// geometry above has other axes, or where the box may be false.
    raw: Ranges,
    /// The extent of the others, if there are any.
    others: Option<Extent>,
}

impl Model for Seen {
    ghost use Rattle.std.specs.Prelude.{Option};
    ghost use Rattle.twkb_head.specs.Raw.{HavePrecisions};
    ghost use Rattle.twkb_body.specs.Extent.{both};
    ghost use Rattle.twkb_body.specs.Devices.Seen.{Seen, in_units, reach_if};

    ghost Value = { Seen };

    ghost view = { λ s. record { asked = s.asked; extent = both (in_units s.axes s.raw) (reach_if s.others) } };

    ghost invariant = { λ s. HavePrecisions s.axes };
}

impl Above for Seen {
    ghost use Rattle.twkb_body.specs.Devices.Seen.{HasSeen};

    ghost saw = { HasSeen };

    #[inline(always)]
    fn asks(&self) -> bool {
        self.asked
    }

    #[inline(always)]
    fn show(&mut self, axes: Axes, ranges: &Ranges) {
        if self.asked {
            self.add(axes, ranges);
        }
    }
}

impl Seen {
    /// Nothing seen yet, and no box asks.
    #[inline(always)]
    pub fn unasked() -> Seen
        ensures { result.asked ≡ false }
    {
        Seen {
            asked: false,
            axes: Axes::flat(0),
            raw: Ranges::empty(),
            others: None,
        }
    }

    /// Nothing seen yet of the members of a geometry with these axes; `boxed` says that it has a box of its own.
    #[inline(always)]
    pub fn for_members(&self, axes: Axes, boxed: bool) -> Seen
        requires { HavePrecisions axes }
        ensures asked { result.asked ≡ (self.now.asked || boxed) }
        ensures extent { result.extent ≡ reach_of [] }
    {
        Seen {
            asked: self.asked || boxed,
            axes,
            raw: Ranges::empty(),
            others: None,
        }
    }

    /// Adds all that was seen below a geometry, if a box asks for it.
    #[inline(always)]
    pub fn show_all(&mut self, below: &Seen)
        ensures { HasSeen self.old self.new below.now.extent }
    {
        if self.asked {
            self.add(below.axes, &below.raw);
            if let Some(others) = &below.others {
                self.add_others(others);
            }
        }
    }

    /// If `true`, the vertices don't refute the box of a header, and in tight checking it isn't loose. `false` says nothing.
    #[inline(always)]
    pub fn are_held_by<const TIGHT: bool>(&self, raw: &Fields) -> bool
        ensures { result ≡ true → box_judged TIGHT (of_head (head_said raw.now)) (head_said raw.now).bounds self.now.extent ≡ None }
    {
        match &raw.bounds {
            Some(bounds) => {
                self.others.is_none()
                    && self.axes.are(raw.axes)
                    && self.raw.are_held_by::<TIGHT>(bounds, raw.axes)
            }
            None => true,
        }
    }

    /// The extent of all that was seen.
    #[inline(always)]
    pub fn extent(&self) -> Extent
        ensures { result ≡ self.now.extent }
    {
        let mut all = self.raw.in_units(self.axes);
        if let Some(others) = &self.others {
            all.merge(others);
        }
        all
    }

    /// Adds vertices with these axes.
    #[inline(always)]
    fn add(&mut self, axes: Axes, ranges: &Ranges)
        requires { HavePrecisions axes }
        ensures asked { self.new.asked ≡ self.old.asked }
        ensures extent { self.new.extent ≡ both self.old.extent (in_units axes ranges.now) }
    {
        if self.axes.are(axes) {
            self.raw.join(ranges, axes);
        } else {
            // A copy, so that the ranges stay in registers elsewhere.
            let copy = *ranges;
            self.add_others(&copy.in_units(axes));
        }
    }

    /// Adds vertices in units.
    #[inline(never)]
    fn add_others(&mut self, extent: &Extent)
        ensures asked { self.new.asked ≡ self.old.asked }
        ensures extent { self.new.extent ≡ both self.old.extent extent.now }
    {
        match &mut self.others {
            Some(others) => others.merge(extent),
            None => self.others = Some(*extent),
        }
    }
}
