//! Runs of points, numbers read together and numbers passed: each is compared with single reads.
ghost use Rattle.std.specs.Prelude.{◌≤◌};
ghost use Rattle.twkb_num.specs.Numbers.{IsAxes};

use super::*;
use crate::cursor::lanes::{Together, Wide};
use crate::tests::equal;
use std::process::Abort;

mod cases;

// Compares each number with a single read. It takes lanes only until a given number of numbers was taken.
#[derive(Drop)]
struct EachNumber<'a> {
    single: Cursor<'a>,
    lanes_until: u64,
    taken: u64,
    // The axis of the next number.
    axis: usize,
    are_same: bool,
}

impl EachNumber<'_> {
    fn take(&mut self, number: i64) {
        self.are_same = self.are_same && self.single.svarint() == Ok(number);
        self.taken = self.taken.saturating_add(1);
    }

    // Takes a lane, or sees that one with no number is zero.
    fn take_lane(&mut self, lane: i64, has_number: bool) {
        self.are_same = self.are_same && self.axis == 0;
        if has_number {
            self.take(lane);
        } else {
            self.are_same = self.are_same && lane == 0;
        }
    }
}

impl<const AXES: usize> TakePoints<AXES> for EachNumber<'_> {
    ghost took = { λ first numbers last. Unit {0} };

    ghost has_room = { λ taker. Unit {0} };

    fn fits_lanes(&self) -> bool {
        self.taken < self.lanes_until
    }

    fn take_narrow(&mut self, numbers: u16x8) {
        for (i, lane) in numbers.to_array().into_iter().enumerate() {
            self.take_lane(i64::from(lane.cast_signed()), AXES != 3 || i % 4 != 3);
        }
    }

    fn take_wide(&mut self, numbers: u32x4, many: usize) {
        for (i, lane) in numbers.to_array().into_iter().enumerate() {
            self.take_lane(i64::from(lane.cast_signed()), i < many);
        }
    }

    fn take_one(&mut self, axis: usize, number: i64) {
        self.are_same = self.are_same && self.axis == axis;
        self.axis = if axis + 1 == AXES { 0 } else { axis + 1 };
        self.take(number);
    }
}

// Each call that reads or passes many numbers, compared with single reads. Lanes are taken until `lanes_until` numbers were.
fn are_single_reads(rt: &impl Abort, bytes: &[u8], numbers: u64, lanes_until: u64) {
    run_is_single_reads::<2>(rt, bytes, numbers / 2, lanes_until);
    run_is_single_reads::<3>(rt, bytes, numbers / 3, lanes_until);
    run_is_single_reads::<4>(rt, bytes, numbers / 4, lanes_until);
    passing_is_single_reads(rt, bytes, numbers);
    some_are_single_reads::<2>(rt, bytes);
    some_are_single_reads::<3>(rt, bytes);
    some_are_single_reads::<4>(rt, bytes);
}

fn run_is_single_reads<const AXES: usize>(
    rt: &impl Abort,
    bytes: &[u8],
    points: u64,
    lanes_until: u64,
)
    requires { IsAxes AXES }
{
    let mut run = Cursor::new(bytes);
    let mut each = EachNumber {
        single: Cursor::new(bytes),
        lanes_until,
        taken: 0,
        axis: 0,
        are_same: true,
    };
    let numbers = points.saturating_mul(AXES as u64);
    match run.take_run::<AXES, _>(points, &mut each) {
        Ok(()) => equal(rt, each.taken, numbers),
        Err(fault) => {
            equal(rt, each.taken < numbers, true);
            equal(rt, each.single.svarint(), Err(fault));
        }
    }
    equal(rt, each.are_same, true);
    end_alike(rt, &run, &each.single);
}

fn some_are_single_reads<const K: usize>(rt: &impl Abort, bytes: &[u8])
where
    Wide: Together<K>,
    requires { K ≤ 8 }
{
    let mut together = Cursor::new(bytes);
    let mut single = Cursor::new(bytes);
    equal(rt, together.svarints::<K>(), read_each::<K>(&mut single));
    end_alike(rt, &together, &single);
}

// So many numbers, one after another.
fn read_each<const K: usize>(single: &mut Cursor) -> Result<[i64; K], NumFault> {
    let mut numbers = [0; K];
    for i in 0..K {
        match single.svarint() {
            Ok(number) => numbers[i] = number,
            Err(fault) => return Err(fault),
        }
    }
    Ok(numbers)
}

fn passing_is_single_reads(rt: &impl Abort, bytes: &[u8], numbers: u64) {
    let mut single = Cursor::new(bytes);
    let mut wanted = Ok(());
    for _ in 0..numbers {
        if let Err(fault) = single.uvarint() {
            wanted = Err(fault);
            break;
        }
    }
    let mut passing = Cursor::new(bytes);
    equal(rt, passing.pass_numbers(numbers), wanted);
    end_alike(rt, &passing, &single);
}

fn end_alike(rt: &impl Abort, many: &Cursor, single: &Cursor) {
    equal(rt, many.place(), single.place());
    equal(rt, many.read_count(), single.read_count());
}
