//! [`RawWindows`], a window in raw integers at each precision: in the numbers that headers and bodies have.
//! Used by `entry`, `scans`, `seeker`, `slots` and `window`.
ghost use Rattle.std.specs.Prelude.{◌≡◌, ◌<◌, ◌<ℤ◌, ◌*ℤ◌, ◌||◌, ◌∷◌, [], ℤ, pos, int_lt, true, IfSome};
ghost use Rattle.std.specs.Int.RustNames.{int_div, int_rem};
ghost use Rattle.twkb_num.specs.Units.{IsPrecision};
ghost use Rattle.twkb_layer.specs.Devices.RawWindows.{IsRawEnds, IsRawWindow, IsExactEnds, IsExactWindow, AreCoarserEnds, IsCoarserWindow, AreRawWindows, raw_range_misses, raw_box_misses, misses_in_z_or_m};
ghost use Rattle.twkb_layer.specs.Devices.RawWindows.{IsInner, precision_of};
ghost use Rattle.twkb_layer.specs.Window.{is_inside, box_misses};
ghost use Rattle.twkb_head.specs.Raw.{HavePrecisions, raw_bounds, HasNearRanges};
ghost use Rattle.twkb_head.specs.declared.boxes.Bounds.{Bounds};
ghost use Rattle.twkb_head.specs.declared.boxes.Span.{Span};
ghost use Rattle.twkb_body.specs.Geometry.{vertex_at};

use crate::window::Window;
use std::marker::Model;
use twkb_body::{Span, vertex_at};
use twkb_head::{Axes, RawBox};
use twkb_num::units;

/// The ends of a range in raw integers at some precision. An end beyond 64 bits is the nearest number of 64 bits.
#[derive(Clone, Copy, PartialEq)]
pub struct RawEnds {
    pub least: i64,
    pub greatest: i64,
}

impl RawEnds {
    /// The ends of a range in units: its lower one rounded up, and its upper one rounded down.
    pub fn of(range: &Span, precision: i8) -> RawEnds
        requires { IsPrecision precision }
        ensures { IsRawEnds precision range.now result }
    {
        let unit = units(1, precision);
        RawEnds {
            least: least_from(range.lo, unit),
            greatest: greatest_to(range.hi, unit),
        }
    }

    /// The ends of a range at the finest precision, at which a raw integer is a unit. `None` if one doesn't fit 64 bits.
    pub fn finest(range: &Span) -> Option<RawEnds>
        ensures { IfSome result (IsExactEnds (pos 7) range.now) }
    {
        match (i64::try_from(range.lo), i64::try_from(range.hi)) {
            (Ok(least), Ok(greatest)) => Some(RawEnds { least, greatest }),
            _ => None,
        }
    }

    /// The ends at the next coarser precision.
    #[inline(always)]
    fn coarser(&self) -> RawEnds
        ensures { AreCoarserEnds self.now result }
    {
        RawEnds {
            least: tenth_up(self.least),
            greatest: tenth_down(self.greatest),
        }
    }

    /// The ends at each precision whose unit is greater than both: 0, or 1 or -1 if the range stops short of 0.
    /// They don't change at coarser precisions.
    #[inline(always)]
    fn coarsest(&self) -> RawEnds
        ensures { AreCoarserEnds result result }
    {
        RawEnds {
            least: i64::from(self.least > 0),
            greatest: -i64::from(self.greatest < 0),
        }
    }

    /// Whether the range from `range.0` to `range.1` has no number in common with this one.
    #[inline(always)]
    pub fn misses(&self, range: (i64, i64)) -> bool
        ensures { result ≡ raw_range_misses self.now range }
    {
        range.1 < self.least || self.greatest < range.0
    }
}

/// A window in X and Y in raw integers at some precision.
#[derive(Clone, Copy, PartialEq)]
pub struct RawWindow {
    pub x: RawEnds,
    pub y: RawEnds,
}

impl RawWindow {
    /// A placeholder, until [`fill_raws`] replaces it.
    #[inline(always)]
    pub fn nowhere() -> RawWindow {
        let nowhere = RawEnds {
            least: 0,
            greatest: 0,
        };
        RawWindow {
            x: nowhere,
            y: nowhere,
        }
    }

    /// The window at the next coarser precision.
    #[inline(always)]
    fn coarser(&self) -> RawWindow
        ensures { IsCoarserWindow self.now result }
    {
        RawWindow {
            x: self.x.coarser(),
            y: self.y.coarser(),
        }
    }

    /// The window at each precision whose unit is greater than all ends. It doesn't change at coarser precisions.
    #[inline(always)]
    fn coarsest(&self) -> RawWindow
        ensures { IsCoarserWindow result result }
    {
        RawWindow {
            x: self.x.coarsest(),
            y: self.y.coarsest(),
        }
    }

    /// Whether the box between these numbers in X and in Y misses the window. Y is only compared if X doesn't decide.
    #[inline(always)]
    pub fn misses(&self, x: (i64, i64), y: (i64, i64)) -> bool
        ensures { result ≡ raw_box_misses self.now x y }
    {
        self.x.misses(x) || self.y.misses(y)
    }
}

/// A window, in units and in raw integers at each precision.
#[derive(Drop)]
pub struct RawWindows<'w> {
    window: &'w Window,
    /// The window in raw integers at each precision, by the code of the precision.
    raws: &'w [RawWindow; 16],
}

impl<'w> Model for RawWindows<'w> {
    ghost use Rattle.twkb_head.specs.declared.boxes.Bounds.{Bounds};
    ghost use Rattle.twkb_layer.specs.Devices.RawWindows.{AreRawWindows};

    ghost Value = { Bounds };

    ghost view = { λ w. w.window.now };

    ghost invariant = { λ w. AreRawWindows w.window.now w.raws.now };
}

impl<'w> RawWindows<'w> {
    /// The window with the table that [`fill_raws`] filled for it.
    #[inline(always)]
    pub fn new(window: &'w Window, raws: &'w [RawWindow; 16]) -> RawWindows<'w>
        requires { AreRawWindows window.now raws.now }
        ensures { result ≡ window.now }
    {
        RawWindows { window, raws }
    }

    /// The window in units.
    #[inline(always)]
    pub fn window(&self) -> &'w Window
        ensures { result.now ≡ self.now }
    {
        self.window
    }

    /// Whether the box misses the window. X and Y are compared in raw integers, and Z and M in units.
    #[inline(always)]
    pub fn misses(&self, axes: Axes, b: &RawBox) -> bool
        requires axes { HavePrecisions axes }
        requires near { HasNearRanges b.now }
        ensures { result ≡ box_misses self.now (raw_bounds axes.xy axes.z axes.m b.now) }
    {
        let raw = self.at((axes.xy + 8) as usize);
        raw.misses(b.x.ends(), b.y.ends()) || self.misses_in_z_or_m(axes, *b)
    }

    /// Whether the box misses the window in Z or in M. It doesn't if the box has neither, or the window bounds neither.
    #[inline(always)]
    fn misses_in_z_or_m(&self, axes: Axes, b: RawBox) -> bool
        requires { HavePrecisions axes }
        ensures { result ≡ misses_in_z_or_m self.now (raw_bounds axes.xy axes.z axes.m b) }
    {
        if axes.is_flat() || self.window.is_flat() {
            return false;
        }
        self.misses_in_z_or_m_in_units(axes, b)
    }

    /// Converts the box to units, and compares Z and M, for `misses_in_z_or_m`.
    #[inline(never)]
    fn misses_in_z_or_m_in_units(&self, axes: Axes, b: RawBox) -> bool
        requires { HavePrecisions axes }
        ensures { result ≡ misses_in_z_or_m self.now (raw_bounds axes.xy axes.z axes.m b) }
    {
        let bounds = b.in_units(axes);
        self.window.misses_in_z_or_m(bounds.z, bounds.m)
    }

    /// Whether a vertex in raw numbers is inside. If X or Y is `i64::MIN` or `i64::MAX`, the vertex is compared in units. Otherwise
    /// X and Y are compared in raw numbers, and if both are inside and the window has a range in Z or M, the vertex is compared in
    /// units too.
    #[inline(always)]
    pub fn holds(&self, axes: Axes, point: &[i64; 4]) -> bool
        requires { HavePrecisions axes }
        ensures { result ≡ is_inside self.now (vertex_at axes point.now) }
    {
        let x = point[0];
        let y = point[1];
        if !is_inner(x) || !is_inner(y) {
            return self.holds_in_units(axes.xy, axes.z, axes.m, x, y, point[2], point[3]);
        }
        let raw = self.at((axes.xy + 8) as usize);
        if raw.misses((x, x), (y, y)) {
            return false;
        }
        self.window().is_flat()
            || self.holds_in_units(axes.xy, axes.z, axes.m, x, y, point[2], point[3])
    }

    /// Whether a vertex in raw numbers is inside, compared in units. `holds` calls this if X or Y is `i64::MIN` or `i64::MAX`, or
    /// if the window has a range in Z or M.
    // It takes neither an array nor a struct, so that a point that is compared in raw numbers stays in registers.
    #[inline(never)]
    fn holds_in_units(
        &self,
        xy: i8,
        z: Option<u8>,
        m: Option<u8>,
        x: i64,
        y: i64,
        third: i64,
        fourth: i64,
    ) -> bool
        requires { HavePrecisions (record { xy = xy; z = z; m = m }) }
        ensures { result ≡ is_inside self.now
            (vertex_at (record { xy = xy; z = z; m = m }) (x ∷ y ∷ third ∷ fourth ∷ [])) }
    {
        let axes = Axes { xy, z, m };
        self.window()
            .inside(&vertex_at(axes, &[x, y, third, fourth]))
    }

    /// The window at the precision of a code.
    #[inline(always)]
    pub fn at(&self, code: usize) -> RawWindow
        requires { code < 16 }
        ensures { IsRawWindow (precision_of code) self.now result }
    {
        self.raws[code]
    }
}

/// Converts a window, once per scan: `raws` becomes the window in raw integers at each precision, by the codes of precisions.
// The table is filled in place, since a scan of one blob takes a tenth longer with a copy of it.
#[inline(always)]
pub fn fill_raws(window: &Window, raws: &mut [RawWindow; 16])
    ensures { AreRawWindows window.now raws.new }
{
    match window.finest() {
        Some(finest) => fill_by_tenths(finest, raws),
        None => fill_by_divisions(window, raws),
    }
}

/// Makes each window from the one at the next finer precision, until it no longer changes. A
/// division by ten is a multiplication, so this takes a fraction of the time of [`fill_by_divisions`].
#[inline(always)]
fn fill_by_tenths(finest: RawWindow, raws: &mut [RawWindow; 16])
    ensures { (window : Bounds) → IsExactWindow (pos 7) window finest → AreRawWindows window raws.new }
{
    let coarsest = finest.coarsest();
    let mut raw = finest;
    let mut code = 16;
    while code > 0 {
        code -= 1;
        raws[code] = raw;
        if raw != coarsest {
            raw = raw.coarser();
        }
    }
}

/// Makes each window from the window in units: 64 divisions, of 128 bits if its ends don't fit in 64.
#[inline(never)]
fn fill_by_divisions(window: &Window, raws: &mut [RawWindow; 16])
    ensures { AreRawWindows window.now raws.new }
{
    for code in 0..16 {
        raws[code] = window.raw(code as i8 - 8);
    }
}

/// A tenth of a number, rounded up.
#[inline(always)]
fn tenth_up(number: i64) -> i64
    ensures { (c : ℤ) → int_lt (c *ℤ pos 10) number ≡ int_lt c result }
{
    let (tenth, rest) = (number / 10, number % 10);
    if rest > 0 { tenth + 1 } else { tenth }
}

/// A tenth of a number, rounded down.
#[inline(always)]
fn tenth_down(number: i64) -> i64
    ensures { (c : ℤ) → int_lt number (c *ℤ pos 10) ≡ int_lt result c }
{
    let (tenth, rest) = (number / 10, number % 10);
    if rest < 0 { tenth - 1 } else { tenth }
}

/// Whether a coordinate is neither `i64::MIN` nor `i64::MAX`. Only such a coordinate is compared with raw windows: an end of a
/// window that is beyond 64 bits is kept as `i64::MIN` or `i64::MAX`.
#[inline(always)]
fn is_inner(number: i64) -> bool
    ensures { result ≡ true → IsInner number }
{
    i64::MIN < number && number < i64::MAX
}

/// The least raw integer that is at least `lo` in units, or the nearest number of 64 bits.
fn least_from(lo: i128, unit: i128) -> i64
    requires { pos 0 <ℤ unit }
    ensures { (c : ℤ) → IsInner c → int_lt (c *ℤ unit) lo ≡ int_lt c result }
{
    let (quotient, rest) = divided(lo, unit);
    if rest > 0 {
        in_64_bits(quotient + 1)
    } else {
        in_64_bits(quotient)
    }
}

/// The greatest raw integer that is at most `hi` in units, or the nearest number of 64 bits.
fn greatest_to(hi: i128, unit: i128) -> i64
    requires { pos 0 <ℤ unit }
    ensures { (c : ℤ) → IsInner c → int_lt hi (c *ℤ unit) ≡ int_lt result c }
{
    let (quotient, rest) = divided(hi, unit);
    if rest < 0 {
        in_64_bits(quotient - 1)
    } else {
        in_64_bits(quotient)
    }
}

/// A quotient, rounded towards zero, and the remainder. A division of 64 bits takes a fraction of the time of one of 128.
#[inline(always)]
fn divided(number: i128, unit: i128) -> (i128, i128)
    requires { pos 0 <ℤ unit }
    ensures quotient { result.0 ≡ int_div number unit }
    ensures rest { result.1 ≡ int_rem number unit }
{
    match (i64::try_from(number), i64::try_from(unit)) {
        (Ok(short), Ok(short_unit)) => (
            i128::from(short / short_unit),
            i128::from(short % short_unit),
        ),
        _ => (number / unit, number % unit),
    }
}

/// The nearest number of 64 bits. Numbers between `i64::MIN` and `i64::MAX` are below it or above it as they were before.
fn in_64_bits(number: i128) -> i64
    ensures below { (c : ℤ) → IsInner c → int_lt c number ≡ int_lt c result }
    ensures above { (c : ℤ) → IsInner c → int_lt number c ≡ int_lt result c }
{
    if number < i128::from(i64::MIN) {
        i64::MIN
    } else if number > i128::from(i64::MAX) {
        i64::MAX
    } else {
        number as i64
    }
}
