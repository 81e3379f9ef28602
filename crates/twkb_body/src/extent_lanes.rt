//! Points in lanes of 32 bits, as distances from a base, and the steps from point to point that lead there.
//! Used by `extents` and `range`.
ghost use Rattle.std.specs.Prelude.{◌≡◌, ◌+◌, ◌<◌, ◌%◌, ◌==◌, if◌then◌else◌, ℕ, ℤ, [], ◌∷◌, ◌++◌, map, slice_index, true, min, max, All};
ghost use Rattle.std.specs.Int.{w16, w32, cast_signed, cast_unsigned};
ghost use Rattle.twkb_num.specs.Varint.{IsBrief, IsShort};
ghost use Rattle.twkb_body.specs.Devices.Extents.{lane_sum, lanes_within, last_place, no_lanes, steps, HaveRoom, AreLanes, Sees};

use std::simd::prelude::*;

/// The distance zero in a lane. A distance d is 2^31 + d there, so that lanes without signs compare as distances do.
pub const ZERO: u32 = 1 << 31;

/// Points, by their distances from a base in lanes: one point in four lanes, or two of X and Y.
#[derive(Clone, Copy)]
pub struct Lanes {
    /// The last point. Of X and Y it is there twice.
    pub last: u32x4,
    pub least: u32x4,
    pub greatest: u32x4,
}

impl Lanes {
    /// No point yet: the last one is the base.
    #[inline(always)]
    pub fn none() -> Lanes
        ensures { result ≡ no_lanes }
    {
        Lanes {
            last: u32x4::splat(ZERO),
            least: u32x4::splat(u32::MAX),
            greatest: u32x4::splat(0),
        }
    }

    /// If `true`, no distance of the last point is more than 2^30. `false` says nothing.
    #[inline(always)]
    pub fn have_room(&self) -> bool
        ensures { result ≡ true → AreLanes self.now → HaveRoom self.now }
    {
        // A lane of -2^30 becomes zero here, and a lesser one a great number.
        are_within(
            plus(self.last, u32x4::splat(3 << 30)),
            u32x4::splat(ZERO - 1),
        )
    }

    /// Sees the points at these distances from the last one.
    #[inline(always)]
    pub fn see<const AXES: usize>(self, more: u32x4) -> Lanes
        ensures { Sees AXES more self result }
    {
        let points = plus(more, self.last);
        Lanes {
            last: last_point::<AXES>(points),
            least: lesser(self.least, points),
            greatest: greater(self.greatest, points),
        }
    }
}

/// The last point of these, in X and Y twice.
#[inline(always)]
fn last_point<const AXES: usize>(points: u32x4) -> u32x4
    ensures { (i : ℕ) → i < 4 → slice_index result i ≡ slice_index points (last_place AXES i) }
{
    if AXES == 2 {
        points.swizzle([2, 3, 2, 3])
    } else {
        points
    }
}

/// The sums of lanes.
#[inline(always)]
fn plus(more: u32x4, lanes: u32x4) -> u32x4
    ensures { (i : ℕ) → i < 4 → slice_index result i ≡ lane_sum (slice_index more i) (slice_index lanes i) }
{
    more + lanes
}

/// The lesser of each two lanes.
#[inline(always)]
fn lesser(first: u32x4, second: u32x4) -> u32x4
    ensures { (i : ℕ) → i < 4 → slice_index result i ≡ min (slice_index first i) (slice_index second i) }
{
    first.simd_min(second)
}

/// The greater of each two lanes.
#[inline(always)]
fn greater(first: u32x4, second: u32x4) -> u32x4
    ensures { (i : ℕ) → i < 4 → slice_index result i ≡ max (slice_index first i) (slice_index second i) }
{
    first.simd_max(second)
}

/// The least lane of each axis. Of X and Y there are two lanes for each.
#[inline(always)]
pub fn least_of_axes<const AXES: usize>(lanes: u32x4) -> u32x4
    ensures { (k : ℕ) → k < AXES → k < 4 → slice_index result k ≡ (if AXES == 2
        then min (slice_index lanes k) (slice_index lanes (2 + k)) else slice_index lanes k) }
{
    if AXES == 2 {
        lesser(lanes, lanes.swizzle([2, 3, 2, 3]))
    } else {
        lanes
    }
}

/// The greatest lane of each axis. Of X and Y there are two lanes for each.
#[inline(always)]
pub fn greatest_of_axes<const AXES: usize>(lanes: u32x4) -> u32x4
    ensures { (k : ℕ) → k < AXES → k < 4 → slice_index result k ≡ (if AXES == 2
        then max (slice_index lanes k) (slice_index lanes (2 + k)) else slice_index lanes k) }
{
    if AXES == 2 {
        greater(lanes, lanes.swizzle([2, 3, 2, 3]))
    } else {
        lanes
    }
}

/// How far points are from the last one before them, by the differences of each from the one before it: one point in four lanes, or
/// two of X and Y.
#[inline(always)]
pub fn steps_of<const AXES: usize>(numbers: u32x4) -> u32x4
    requires short { All IsShort (map (cast_signed w32) numbers) }
    ensures { (a b c d : ℤ) → map (cast_signed w32) numbers ≡ a ∷ b ∷ c ∷ d ∷ []
        → result ≡ map (cast_unsigned w32) (steps AXES a b c d) }
{
    if AXES == 2 {
        with_pair_before(numbers)
    } else {
        numbers
    }
}

/// [`steps_of`] for eight lanes of 16 bits: for the first four, and for the others.
#[inline(always)]
pub fn narrow_steps_of<const AXES: usize>(numbers: u16x8) -> (u32x4, u32x4)
    requires brief { All IsBrief (map (cast_signed w16) numbers) }
    ensures { (a b c d e f g h : ℤ) → map (cast_signed w16) numbers ≡ a ∷ b ∷ c ∷ d ∷ e ∷ f ∷ g ∷ h ∷ []
        → (result.0 ≡ map (cast_unsigned w32) (steps AXES a b c d))
        × (result.1 ≡ map (cast_unsigned w32) (steps AXES e f g h)) }
{
    let sums = brief_steps_of::<AXES>(numbers);
    (
        widened(sums.extract::<0, 4>()),
        widened(sums.extract::<4, 4>()),
    )
}

/// The steps of two times four lanes of 16 bits.
#[inline(always)]
fn brief_steps_of<const AXES: usize>(numbers: u16x8) -> u16x8
    requires brief { All IsBrief (map (cast_signed w16) numbers) }
    ensures { (a b c d e f g h : ℤ) → map (cast_signed w16) numbers ≡ a ∷ b ∷ c ∷ d ∷ e ∷ f ∷ g ∷ h ∷ []
        → map (cast_signed w16) result ≡ steps AXES a b c d ++ steps AXES e f g h }
{
    if AXES == 2 {
        with_brief_pair_before(numbers)
    } else {
        numbers
    }
}

/// Adds the first two lanes to the other two.
#[inline(always)]
fn with_pair_before(n: u32x4) -> u32x4
    ensures { (a b c d : ℕ) → n ≡ a ∷ b ∷ c ∷ d ∷ [] → result ≡ ((a + 0) % 4294967296) ∷ ((b + 0) % 4294967296)
        ∷ ((c + a) % 4294967296) ∷ ((d + b) % 4294967296) ∷ [] }
{
    n + n.shuffle(u32x4::splat(0), [4, 5, 0, 1])
}

/// Adds in each half the first two lanes to the other two.
#[inline(always)]
fn with_brief_pair_before(n: u16x8) -> u16x8
    ensures { (a b c d e f g h : ℕ) → n ≡ a ∷ b ∷ c ∷ d ∷ e ∷ f ∷ g ∷ h ∷ [] → result ≡ ((a + 0) % 65536)
        ∷ ((b + 0) % 65536) ∷ ((c + a) % 65536) ∷ ((d + b) % 65536) ∷ ((e + 0) % 65536) ∷ ((f + 0) % 65536)
        ∷ ((g + e) % 65536) ∷ ((h + f) % 65536) ∷ [] }
{
    n + n.shuffle(u16x8::splat(0), [8, 9, 0, 1, 8, 9, 4, 5])
}

/// Lanes, widened with their signs.
// The compiler makes one instruction of these steps. A cast to signed lanes would have to be proved to fit.
#[inline(always)]
fn widened(d: u16x4) -> u32x4
    ensures { result ≡ map (λ n. cast_unsigned w32 (cast_signed w16 n)) d }
{
    (d + u16x4::splat(0x8000)).cast::<u32>() - u32x4::splat(0x8000)
}

/// Whether no lane is greater than the limit in its place.
#[inline(always)]
fn are_within(lanes: u32x4, limits: u32x4) -> bool
    ensures { result ≡ lanes_within lanes limits }
{
    lanes.simd_le(limits).to_bitmask() == 15
}
