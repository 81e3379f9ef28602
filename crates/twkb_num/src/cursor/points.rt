//! Runs of points at a cursor's place, whose numbers are given to a taker.
ghost use Rattle.std.specs.Prelude.{◌≡◌, ◌+◌, ◌-◌, ◌*◌, ◌<◌, ◌≤◌, ◌⊎◌, ℕ, ℤ, List, length, [], ◌∷◌, true, false, map, take, drop, replicate, All, IfOk, IfErr, OnOk, ◌↔◌, Ok, Err};
ghost use Rattle.std.specs.Int.{w16, w32, cast_signed};
ghost use Rattle.twkb_num.specs.Cursor.{passed, rest, counted, IsMoved};
ghost use Rattle.twkb_num.specs.Varint.{IsSigned, IsShort, IsBrief, Faults, looked_at};
ghost use Rattle.twkb_num.specs.Devices.Lanes.{count_in};
ghost use Rattle.twkb_num.specs.Numbers.{IsAxes, points_in, HaveZeros, TakesOn, Takes, StopsAt, StopsTaking};

use super::Cursor;
use crate::varint::NumFault;
use std::simd::prelude::*;

/// What the numbers of points are given to, in reading order. A point has `AXES` numbers: two, three or four.
///
/// A taker sees whether a number comes alone or in lanes, so it may learn that a later number of the run is long. It can't end the
/// run, so these are counted too, up to a fault; a taker that has seen enough notes it, and takes what comes.
pub trait TakePoints<const AXES: usize> {
    /// The first became the second by taking these numbers.
    ghost took: { Self → List ℤ → Self → Type 0 };

    /// Numbers in lanes can be taken.
    ghost has_room: { Self → Type 0 };

    /// Whether numbers in lanes can be taken now.
    fn fits_lanes(&self) -> bool
        ensures { result ≡ true → has_room self.now };

    /// Takes the numbers of whole points in eight lanes of 16 bits, in two's complement. Of three axes these are two points, each with a
    /// lane of zero after it.
    fn take_narrow(&mut self, numbers: u16x8)
        requires axes { IsAxes AXES }
        requires room { has_room self.old }
        requires brief { All IsBrief (map (cast_signed w16) numbers) }
        requires zeros { AXES ≡ 3 → HaveZeros (map (cast_signed w16) numbers) }
        ensures { TakesOn took AXES 0 self.old (points_in AXES (map (cast_signed w16) numbers)) self.new };

    /// Takes the first `many` numbers, of one point or of two points of two axes, in lanes of 32 bits, in two's complement. The other
    /// lanes are zero.
    fn take_wide(&mut self, numbers: u32x4, many: usize)
        requires axes { IsAxes AXES }
        requires whole { (many ≡ AXES) ⊎ ((AXES ≡ 2) × (many ≡ 4)) }
        requires room { has_room self.old }
        requires short { All IsShort (map (cast_signed w32) numbers) }
        requires zeros { drop many numbers ≡ replicate (4 - many) 0 }
        ensures { TakesOn took AXES 0 self.old (take many (map (cast_signed w32) numbers)) self.new };

    /// Takes the number of an axis.
    fn take_one(&mut self, axis: usize, number: i64)
        requires axes { IsAxes AXES }
        requires axis { axis < AXES }
        ensures { TakesOn took AXES axis self.old (number ∷ []) self.new };
}

impl<'a> Cursor<'a> {
    /// Reads points and gives their numbers to a taker. At a fault it stops, as [`Cursor::svarint`] does: the numbers before it were
    /// taken.
    #[inline(always)]
    pub fn take_run<const AXES: usize, T: TakePoints<AXES>>(
        &mut self,
        points: u64,
        to: &mut T,
    ) -> Result<(), NumFault>
        requires axes { IsAxes AXES }
        ensures ok { OnOk result (Takes T.took AXES 0 (AXES * points) self.old self.new to.old to.new) }
        ensures err { IfErr result (StopsTaking T.took AXES (AXES * points) self.old self.new to.old to.new) }
    {
        // A copy, which stays in registers.
        let mut ahead = self.copied();
        ahead.place_is_within();
        let mut left = points;
        let mut are_two = points % 2 == 0;
        while left > 0 {
            match ahead.take_next::<AXES, T>(are_two, to) {
                Ok(taken) => left -= taken,
                Err(fault) => {
                    *self = ahead;
                    return Err(fault);
                }
            }
            left = ahead.take_narrow_points::<AXES, T>(left, to);
            are_two = left >= 2;
        }
        self.follow(&ahead);
        Ok(())
    }

    // Moves to the place of a copy that has moved from here. Only the place has changed.
    #[inline(always)]
    pub(super) fn follow(&mut self, ahead: &Cursor)
        requires { IsMoved self.old ahead.now }
        ensures { self.new ≡ ahead.now }
    {
        self.place = ahead.place;
    }

    /// Reads one point, or two of two axes.
    #[inline(always)]
    fn take_next<const AXES: usize, T: TakePoints<AXES>>(
        &mut self,
        are_two: bool,
        to: &mut T,
    ) -> Result<u64, NumFault>
        requires axes { IsAxes AXES }
        ensures some { IfOk result (λ points. 1 ≤ points) }
        ensures few { IfOk result (λ points. points ≤ 2) }
        ensures one { IfOk result (λ points. are_two ≡ false → points ≡ 1) }
        ensures ok { IfOk result (λ points. Takes T.took AXES 0 (AXES * points) self.old self.new to.old to.new) }
        ensures err { IfErr result (StopsTaking T.took AXES AXES self.old self.new to.old to.new) }
    {
        let taken = self.take_wide_points::<AXES, T>(are_two, to);
        if taken > 0 {
            return Ok(taken);
        }
        match self.take_point::<AXES, T>(to) {
            Ok(()) => Ok(1),
            Err(fault) => Err(fault),
        }
    }

    /// Reads one point, or two of two axes, by numbers of at most four bytes, and returns how many these are. Or it reads nothing.
    #[inline(always)]
    fn take_wide_points<const AXES: usize, T: TakePoints<AXES>>(
        &mut self,
        are_two: bool,
        to: &mut T,
    ) -> u64
        requires axes { IsAxes AXES }
        ensures few { result ≤ 2 }
        ensures one { are_two ≡ false → result ≤ 1 }
        ensures takes { 0 < result → Takes T.took AXES 0 (AXES * result) self.old self.new to.old to.new }
        ensures none { result ≡ 0 → (self.new ≡ self.old) × (to.new ≡ to.old) }
    {
        if AXES == 2 && are_two {
            if self.take_wide_numbers::<AXES, T>(4, to) {
                return 2;
            }
        } else if self.take_wide_numbers::<AXES, T>(AXES, to) {
            return 1;
        }
        0
    }

    /// Reads the numbers of one point, or of two points of two axes, each of at most four bytes. Or it reads nothing, and returns
    /// `false`.
    #[inline(always)]
    fn take_wide_numbers<const AXES: usize, T: TakePoints<AXES>>(
        &mut self,
        many: usize,
        to: &mut T,
    ) -> bool
        requires axes { IsAxes AXES }
        requires whole { (many ≡ AXES) ⊎ ((AXES ≡ 2) × (many ≡ 4)) }
        ensures read { result ≡ true → Takes T.took AXES 0 many self.old self.new to.old to.new }
        ensures none { result ≡ false → (self.new ≡ self.old) × (to.new ≡ to.old) }
    {
        if !to.fits_lanes() {
            return false;
        }
        let wide = self.wide_lanes(many);
        if wide.is_read {
            to.take_wide(wide.lanes, many);
        }
        wide.is_read
    }

    /// Reads points by numbers of at most two bytes, some at a time, and returns how many are left.
    #[inline(always)]
    fn take_narrow_points<const AXES: usize, T: TakePoints<AXES>>(
        &mut self,
        points: u64,
        to: &mut T,
    ) -> u64
        requires axes { IsAxes AXES }
        ensures few { result ≤ points }
        ensures takes { Takes T.took AXES 0 (AXES * (points - result)) self.old self.new to.old to.new }
    {
        self.place_is_within();
        let some = points_in_lanes::<AXES>();
        let mut left = points;
        while left >= some {
            if !self.take_narrow_numbers::<AXES, T>(to) {
                break;
            }
            left -= some;
        }
        left
    }

    /// Reads the numbers of some points, each of at most two bytes. Or it reads nothing, and returns `false`.
    #[inline(always)]
    fn take_narrow_numbers<const AXES: usize, T: TakePoints<AXES>>(&mut self, to: &mut T) -> bool
        requires axes { IsAxes AXES }
        ensures read { result ≡ true → Takes T.took AXES 0 (count_in AXES) self.old self.new to.old to.new }
        ensures none { result ≡ false → (self.new ≡ self.old) × (to.new ≡ to.old) }
    {
        if !to.fits_lanes() {
            return false;
        }
        let narrow = self.narrow_lanes(AXES);
        if narrow.is_read {
            to.take_narrow(narrow.lanes);
        }
        narrow.is_read
    }

    /// Reads one point, number by number.
    #[inline(always)]
    fn take_point<const AXES: usize, T: TakePoints<AXES>>(
        &mut self,
        to: &mut T,
    ) -> Result<(), NumFault>
        requires axes { IsAxes AXES }
        ensures ok { OnOk result (Takes T.took AXES 0 AXES self.old self.new to.old to.new) }
        ensures err { IfErr result (StopsTaking T.took AXES AXES self.old self.new to.old to.new) }
    {
        self.place_is_within();
        for axis in 0..AXES {
            if let Err(fault) = self.take_number::<AXES, T>(axis, to) {
                return Err(fault);
            }
        }
        Ok(())
    }

    /// Reads the number of an axis.
    #[inline(always)]
    fn take_number<const AXES: usize, T: TakePoints<AXES>>(
        &mut self,
        axis: usize,
        to: &mut T,
    ) -> Result<(), NumFault>
        requires axes { IsAxes AXES }
        requires axis { axis < AXES }
        ensures ok { OnOk result (Takes T.took AXES axis 1 self.old self.new to.old to.new) }
        ensures err { IfErr result (λ fault. StopsAt self.old self.new fault × (to.new ≡ to.old)) }
    {
        // A copy, so that the cursor stays in registers elsewhere.
        let mut ahead = self.copied();
        let number = ahead.svarint_called();
        *self = ahead;
        match number {
            Ok(number) => {
                to.take_one(axis, number);
                Ok(())
            }
            Err(fault) => Err(fault),
        }
    }

    // [`Cursor::svarint`], out of line.
    #[inline(never)]
    fn svarint_called(&mut self) -> Result<i64, NumFault>
        ensures ok { IfOk result (λ z. IsSigned z (passed self.old self.new)) }
        ensures moved { OnOk result (IsMoved self.old self.new) }
        ensures fault { (fault : NumFault) → (result ≡ Err fault) ↔ Faults fault (rest self.old) }
        ensures still { IfErr result (λ fault. self.new ≡ counted self.old (looked_at fault (rest self.old))) }
    {
        self.svarint()
    }
}

/// How many points eight lanes take.
#[inline(always)]
fn points_in_lanes<const AXES: usize>() -> u64
    requires { IsAxes AXES }
    ensures some { 1 ≤ result }
    ensures all { AXES * result ≡ count_in AXES }
{
    if AXES == 2 { 4 } else { 2 }
}

#[cfg(test)]
mod tests;
