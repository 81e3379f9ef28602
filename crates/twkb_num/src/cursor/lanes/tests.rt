//! Lanes against reads one by one.
use super::*;
use crate::tests::equal;
use std::process::Abort;

/// Numbers that were read one by one, the length of the longest spelling, and where they end.
#[derive(Clone, Copy)]
struct Reads {
    numbers: [i64; 8],
    longest: usize,
    end: usize,
}

fn read_each(bytes: &[u8], many: usize) -> Reads {
    let mut cursor = Cursor::new(bytes);
    let mut numbers = [0; 8];
    let mut longest = 0;
    for number in numbers.iter_mut().take(many) {
        let place = cursor.place();
        let len = match cursor.svarint() {
            Ok(read) => {
                *number = read;
                cursor.place().saturating_sub(place)
            }
            Err(_) => usize::MAX,
        };
        longest = len.max(longest);
    }
    Reads {
        numbers,
        longest,
        end: cursor.place(),
    }
}

// Four numbers of at most four bytes each are read, the ones that single reads give, if 32 bytes are left; others aren't.
fn reads_four(rt: &impl Abort, bytes: &[u8]) {
    let reads = read_each(bytes, 4);
    let is_read = reads.longest <= 4 && 32 <= bytes.len();
    let mut cursor = Cursor::new(bytes);
    let four = cursor.lane_four();
    equal(rt, four.is_read, is_read);
    for (lane, number) in i32x4::from_le_bytes(four.lanes.to_le_bytes())
        .to_array()
        .into_iter()
        .zip(reads.numbers)
    {
        equal(rt, !is_read || i64::from(lane) == number, true);
    }
    ends(rt, &cursor, if is_read { reads.end } else { 0 });
}

// Eight numbers of at most two bytes each are read, the ones that single reads give, if 32 bytes are left; others aren't.
fn reads_eight(rt: &impl Abort, bytes: &[u8]) {
    let reads = read_each(bytes, 8);
    let is_read = reads.longest <= 2 && 32 <= bytes.len();
    let mut cursor = Cursor::new(bytes);
    let eight = cursor.lane_eight();
    equal(rt, eight.is_read, is_read);
    for (lane, number) in i16x8::from_le_bytes(eight.lanes.to_le_bytes())
        .to_array()
        .into_iter()
        .zip(reads.numbers)
    {
        equal(rt, !is_read || i64::from(lane) == number, true);
    }
    ends(rt, &cursor, if is_read { reads.end } else { 0 });
}

fn ends(rt: &impl Abort, cursor: &Cursor, place: usize) {
    equal(rt, cursor.place(), place);
    equal(rt, cursor.read_count(), place as u64);
}

// Both calls, with all bytes, with 32 of them and with 31.
fn reads_both(rt: &impl Abort, bytes: &[u8; 40]) {
    for bytes in [&bytes[..], &bytes[..32], &bytes[..31]] {
        reads_four(rt, bytes);
        reads_eight(rt, bytes);
    }
}

#[test]
fn each_lane_has_each_length(rt: HostRuntime) {
    for lane in 0..8 {
        for more in 0..5 {
            let mut bytes = [0x33; 40];
            for byte in bytes.iter_mut().skip(lane).take(more) {
                *byte = 0x95;
            }
            reads_both(&rt, &bytes);
        }
    }
}

#[test]
fn lanes_of_many_lengths_are_read_as_one_by_one(rt: HostRuntime) {
    let mut state = 1u64;
    for round in 0..400u64 {
        let mut bytes = [0; 40];
        for byte in bytes.iter_mut() {
            state = state
                .wrapping_mul(6364136223846793005)
                .wrapping_add(1442695040888963407);
            // More bytes go on from round to round.
            let goes_on = (state >> 48) % 1024 < round;
            *byte = (state >> 57) as u8 + if goes_on { 128 } else { 0 };
        }
        reads_both(&rt, &bytes);
    }
}
