//! Signed numbers read together, and unsigned ones passed, at a cursor's place: of any length, and near the end of the bytes too.
ghost use Rattle.std.specs.Prelude.{◌≡◌, ◌++◌, ℕ, ℤ, List, length, take, map, Ok, IfOk, IfErr, OnOk};
ghost use Rattle.std.specs.Int.{w32, cast_signed};
ghost use Rattle.twkb_num.specs.Cursor.{rest, passed};
ghost use Rattle.twkb_num.specs.Varint.{SpellsAllSigned};
ghost use Rattle.twkb_num.specs.Numbers.{IsAxes, PassesNumbers, StopsAmong, ReadsNumbers, StopsReading};

use super::Cursor;
use super::lanes::{Together, Wide, signed_lane};
use crate::varint::NumFault;
use std::simd::prelude::*;

impl<'a> Cursor<'a> {
    /// Reads two to four signed varints, as `K` calls of [`Cursor::svarint`] in turn do. Short ones are read together, if enough bytes are
    /// left. At a fault it stops: the numbers before it are passed.
    #[inline(always)]
    pub fn svarints<const K: usize>(&mut self) -> Result<[i64; K], NumFault>
    where
        Wide: Together<K>,
        ensures ok { IfOk result (λ numbers. ReadsNumbers self.old self.new numbers) }
        ensures complete { (numbers : List ℤ) (front behind : List ℕ) → rest self.old ≡ front ++ behind
            → SpellsAllSigned front numbers → length numbers ≡ K → (result ≡ Ok numbers) × (passed self.old self.new ≡ front) }
        ensures err { IfErr result (λ fault. StopsReading K self.old self.new fault) }
    {
        let wide = <Wide as Together<K>>::lanes(self);
        if wide.is_read {
            return Ok(first_lanes(wide.lanes));
        }
        // A copy, so that the cursor stays in registers elsewhere.
        let mut ahead = self.copied();
        let mut numbers = [0; K];
        let read = ahead.each_svarint(&mut numbers);
        *self = ahead;
        match read {
            Ok(()) => Ok(numbers),
            Err(fault) => Err(fault),
        }
    }

    // Reads as many numbers as there are places for them, one after another.
    // They aren't returned, because the result would be cleared before each call of [`Cursor::svarints`].
    #[inline(never)]
    fn each_svarint<const K: usize>(&mut self, numbers: &mut [i64; K]) -> Result<(), NumFault>
        ensures all { length numbers.new ≡ K }
        ensures ok { OnOk result (ReadsNumbers self.old self.new numbers.new) }
        ensures err { IfErr result (λ fault. StopsReading K self.old self.new fault) }
    {
        self.place_is_within();
        for i in 0..K {
            match self.svarint() {
                Ok(number) => numbers[i] = number,
                Err(fault) => return Err(fault),
            }
        }
        Ok(())
    }

    /// Moves past `many` varints of any length. At a fault it stops, as [`Cursor::uvarint`] does: the numbers before are passed.
    #[inline(always)]
    pub fn pass_numbers(&mut self, many: u64) -> Result<(), NumFault>
        ensures ok { OnOk result (PassesNumbers many self.old self.new) }
        ensures err { IfErr result (StopsAmong many self.old self.new) }
    {
        let passed = self.pass_varints(many);
        if passed == many {
            return Ok(());
        }
        // A copy, so that the cursor stays in registers elsewhere.
        let mut ahead = self.copied();
        let further = ahead.pass_further(many - passed);
        *self = ahead;
        further
    }

    // [`Cursor::pass_numbers`], where some are near the end of the bytes or long.
    #[inline(never)]
    fn pass_further(&mut self, many: u64) -> Result<(), NumFault>
        ensures ok { OnOk result (PassesNumbers many self.old self.new) }
        ensures err { IfErr result (StopsAmong many self.old self.new) }
    {
        self.place_is_within();
        let mut left = many;
        while left > 0 {
            match self.uvarint() {
                Ok(_number) => {}
                Err(fault) => return Err(fault),
            }
            left -= 1;
            left -= self.pass_varints(left);
        }
        Ok(())
    }
}

/// What the first `K` lanes mean in two's complement.
#[inline(always)]
fn first_lanes<const K: usize>(lanes: u32x4) -> [i64; K]
    requires { IsAxes K }
    ensures { result ≡ take K (map (cast_signed w32) lanes) }
{
    let lanes = lanes.to_array();
    let mut numbers = [0; K];
    for i in 0..K {
        numbers[i] = signed_lane(lanes[i]);
    }
    numbers
}
