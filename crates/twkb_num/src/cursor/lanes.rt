//! Signed numbers at a cursor's place, read together into the lanes of a vector. Used by `cursor/numbers`.
ghost use Rattle.std.specs.Prelude.{◌≡◌, ◌-◌, [], ◌∷◌, false, map, replicate, take, drop, ℕ, All, IsTrue};
ghost use Rattle.std.specs.Int.{w16, w32, cast_signed};
ghost use Rattle.twkb_num.specs.Cursor.{passed, IsMoved};
ghost use Rattle.twkb_num.specs.Numbers.{IsAxes, points_in, HaveZeros};
ghost use Rattle.twkb_num.specs.Varint.{SpellsAllSigned, IsShort, IsBrief};

use super::Cursor;
use crate::vectors::{narrow_eight, narrow_six, tops_of_16, wide_four, wide_pair, wide_three};
use std::simd::prelude::*;

/// Four signed numbers in lanes of 32 bits, in two's complement. If `is_read` is false, none were read.
#[derive(Clone, Copy)]
pub struct Four {
    pub lanes: u32x4,
    pub is_read: bool,
}

/// Eight signed numbers in lanes of 16 bits, in two's complement. If `is_read` is false, none were read.
#[derive(Clone, Copy)]
pub struct Eight {
    pub lanes: u16x8,
    pub is_read: bool,
}

impl Four {
    /// No numbers were read.
    #[inline(always)]
    pub fn nothing() -> Four
        ensures read { result.is_read ≡ false }
        ensures zero { result.lanes ≡ replicate 4 0 }
    {
        Four {
            lanes: u32x4::splat(0),
            is_read: false,
        }
    }
}

impl Eight {
    /// No numbers were read.
    #[inline(always)]
    fn nothing() -> Eight
        ensures read { result.is_read ≡ false }
        ensures zero { result.lanes ≡ replicate 8 0 }
    {
        Eight {
            lanes: u16x8::splat(0),
            is_read: false,
        }
    }
}

/// The counts of numbers for which there is a kernel.
pub struct Wide;

/// Reading `K` numbers together.
// A trait and not a `match`: where it judges whether a function is too large to inline, the compiler counts all arms of a `match`.
pub trait Together<const K: usize> {
    /// [`Cursor::wide_lanes`] for `K` numbers.
    fn lanes(cursor: &mut Cursor) -> Four
        ensures axes { IsAxes K }
        ensures some { IsTrue result.is_read
            → SpellsAllSigned (passed cursor.old cursor.new) (take K (map (cast_signed w32) result.lanes)) }
        ensures short { All IsShort (map (cast_signed w32) result.lanes) }
        ensures moved { IsTrue result.is_read → IsMoved cursor.old cursor.new }
        ensures none { result.is_read ≡ false → cursor.new ≡ cursor.old };
}

impl Together<2> for Wide {
    #[inline(always)]
    fn lanes(cursor: &mut Cursor) -> Four {
        cursor.lane_two()
    }
}

impl Together<3> for Wide {
    #[inline(always)]
    fn lanes(cursor: &mut Cursor) -> Four {
        cursor.lane_three()
    }
}

impl Together<4> for Wide {
    #[inline(always)]
    fn lanes(cursor: &mut Cursor) -> Four {
        cursor.lane_four()
    }
}

/// What a lane means in two's complement.
#[inline(always)]
pub(super) fn signed_lane(lane: u32) -> i64
    ensures { result ≡ cast_signed w32 lane }
{
    i64::from(lane.cast_signed())
}

/// The first two lanes, and zeros.
#[inline(always)]
fn first_two(lanes: u32x4) -> u32x4
    ensures { (a b c d : ℕ) → lanes ≡ a ∷ b ∷ c ∷ d ∷ [] → result ≡ a ∷ b ∷ 0 ∷ 0 ∷ [] }
{
    lanes.shuffle(u32x4::splat(0), [0, 1, 4, 5])
}

/// The first three lanes, and zero.
#[inline(always)]
fn first_three(lanes: u32x4) -> u32x4
    ensures { (a b c d : ℕ) → lanes ≡ a ∷ b ∷ c ∷ d ∷ [] → result ≡ a ∷ b ∷ c ∷ 0 ∷ [] }
{
    lanes.shuffle(u32x4::splat(0), [0, 1, 2, 4])
}

/// The first three lanes of each half, and zero after them.
#[inline(always)]
fn twice_three(lanes: u16x8) -> u16x8
    ensures { (a b c d e f g h : ℕ) → lanes ≡ a ∷ b ∷ c ∷ d ∷ e ∷ f ∷ g ∷ h ∷ []
        → result ≡ a ∷ b ∷ c ∷ 0 ∷ e ∷ f ∷ g ∷ 0 ∷ [] }
{
    lanes.shuffle(u16x8::splat(0), [0, 1, 2, 8, 4, 5, 6, 8])
}

impl<'a> Cursor<'a> {
    /// Reads the four signed varints at the place, if each takes at most four bytes and 32 bytes are left. Otherwise it reads
    /// nothing: `is_read` is false.
    #[inline(always)]
    fn lane_four(&mut self) -> Four
        ensures some { IsTrue result.is_read
            → SpellsAllSigned (passed self.old self.new) (map (cast_signed w32) result.lanes) }
        ensures short { All IsShort (map (cast_signed w32) result.lanes) }
        ensures moved { IsTrue result.is_read → IsMoved self.old self.new }
        ensures none { result.is_read ≡ false → self.new ≡ self.old }
    {
        if let Some(bytes) = self.bytes[self.place..].first_chunk::<32>() {
            let four = wide_four(bytes);
            if four.len < 128 {
                self.place += four.len;
                return Four {
                    lanes: four.lanes,
                    is_read: true,
                };
            }
        }
        Four::nothing()
    }

    /// Reads the two signed varints at the place into the first two lanes, if each takes at most four bytes and sixteen bytes are
    /// left. Otherwise it reads nothing: `is_read` is false. The other lanes are zero.
    #[inline(always)]
    fn lane_two(&mut self) -> Four
        ensures some { IsTrue result.is_read
            → SpellsAllSigned (passed self.old self.new) (take 2 (map (cast_signed w32) result.lanes)) }
        ensures short { All IsShort (map (cast_signed w32) result.lanes) }
        ensures zeros { drop 2 result.lanes ≡ replicate 2 0 }
        ensures moved { IsTrue result.is_read → IsMoved self.old self.new }
        ensures none { result.is_read ≡ false → self.new ≡ self.old }
    {
        if let Some(bytes) = self.bytes[self.place..].first_chunk::<16>() {
            let both = wide_pair(bytes);
            if both.len < 128 {
                self.place += both.len;
                return Four {
                    lanes: first_two(both.lanes),
                    is_read: true,
                };
            }
        }
        Four::nothing()
    }

    /// Reads the three signed varints at the place into the first three lanes, if each takes at most four bytes and 32 bytes are left.
    /// Otherwise it reads nothing: `is_read` is false. The other lanes are zero.
    #[inline(always)]
    fn lane_three(&mut self) -> Four
        ensures some { IsTrue result.is_read
            → SpellsAllSigned (passed self.old self.new) (take 3 (map (cast_signed w32) result.lanes)) }
        ensures short { All IsShort (map (cast_signed w32) result.lanes) }
        ensures zeros { drop 3 result.lanes ≡ replicate 1 0 }
        ensures moved { IsTrue result.is_read → IsMoved self.old self.new }
        ensures none { result.is_read ≡ false → self.new ≡ self.old }
    {
        if let Some(bytes) = self.bytes[self.place..].first_chunk::<32>() {
            let three = wide_three(bytes);
            if three.len < 128 {
                self.place += three.len;
                return Four {
                    lanes: first_three(three.lanes),
                    is_read: true,
                };
            }
        }
        Four::nothing()
    }

    /// Reads `many` signed varints at the place into the first lanes, if each takes at most four bytes and enough bytes are left.
    /// Otherwise it reads nothing: `is_read` is false. The other lanes are zero.
    #[inline(always)]
    pub(super) fn wide_lanes(&mut self, many: usize) -> Four
        requires { IsAxes many }
        ensures some { IsTrue result.is_read
            → SpellsAllSigned (passed self.old self.new) (take many (map (cast_signed w32) result.lanes)) }
        ensures short { All IsShort (map (cast_signed w32) result.lanes) }
        ensures zeros { drop many result.lanes ≡ replicate (4 - many) 0 }
        ensures moved { IsTrue result.is_read → IsMoved self.old self.new }
        ensures none { result.is_read ≡ false → self.new ≡ self.old }
    {
        if many == 2 {
            return self.lane_two();
        }
        if many == 3 {
            return self.lane_three();
        }
        self.lane_four()
    }

    /// Reads the numbers of two points of three axes, if each takes at most two bytes and 32 bytes are left; a lane of zero is after each
    /// three. Otherwise it reads nothing: `is_read` is false, and the lanes are zero.
    #[inline(always)]
    fn lane_six(&mut self) -> Eight
        ensures some { IsTrue result.is_read
            → SpellsAllSigned (passed self.old self.new) (points_in 3 (map (cast_signed w16) result.lanes)) }
        ensures brief { All IsBrief (map (cast_signed w16) result.lanes) }
        ensures zeros { HaveZeros (map (cast_signed w16) result.lanes) }
        ensures moved { IsTrue result.is_read → IsMoved self.old self.new }
        ensures none { result.is_read ≡ false → self.new ≡ self.old }
    {
        if let Some(bytes) = self.bytes[self.place..].first_chunk::<32>() {
            let six = narrow_six(bytes);
            if six.len < 128 {
                self.place += six.len;
                return Eight {
                    lanes: twice_three(six.lanes),
                    is_read: true,
                };
            }
        }
        Eight::nothing()
    }

    /// Reads the numbers of four points of two axes, or of two points of three or four, if each takes at most two bytes and 32 bytes
    /// are left. Otherwise it reads nothing: `is_read` is false.
    #[inline(always)]
    pub(super) fn narrow_lanes(&mut self, axes: usize) -> Eight
        ensures some { IsTrue result.is_read
            → SpellsAllSigned (passed self.old self.new) (points_in axes (map (cast_signed w16) result.lanes)) }
        ensures brief { All IsBrief (map (cast_signed w16) result.lanes) }
        ensures zeros { axes ≡ 3 → HaveZeros (map (cast_signed w16) result.lanes) }
        ensures moved { IsTrue result.is_read → IsMoved self.old self.new }
        ensures none { result.is_read ≡ false → self.new ≡ self.old }
    {
        if axes == 3 {
            self.lane_six()
        } else {
            self.lane_eight()
        }
    }

    /// Reads the eight signed varints at the place, if each takes at most two bytes and 32 bytes are left. Otherwise it reads
    /// nothing: `is_read` is false.
    #[inline(always)]
    fn lane_eight(&mut self) -> Eight
        ensures some { IsTrue result.is_read
            → SpellsAllSigned (passed self.old self.new) (map (cast_signed w16) result.lanes) }
        ensures brief { All IsBrief (map (cast_signed w16) result.lanes) }
        ensures moved { IsTrue result.is_read → IsMoved self.old self.new }
        ensures none { result.is_read ≡ false → self.new ≡ self.old }
    {
        if let Some(bytes) = self.bytes[self.place..].first_chunk::<32>() {
            let eight = narrow_eight(bytes, tops_of_16(bytes));
            if eight.len < 128 {
                self.place += eight.len;
                return Eight {
                    lanes: eight.lanes,
                    is_read: true,
                };
            }
        }
        Eight::nothing()
    }
}

#[cfg(test)]
mod tests;
