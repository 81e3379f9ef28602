//! Points at the limits of what an audit adds in lanes, against the plain reader: far from the base, bases far from zero,
//! sums that leave 64 bits by one, long numbers at each place, and such points at random.
use self::run::{Axes, BOTH, Case, EACH, FLAT, FORMS, Form, M, Run, Z, blob, boxes_agree};
use super::bytes::{GREATEST, number_of};
use super::random_runs::off_by_one;
use super::variants::{both_agree, set};
use super::{answers, false_claim, malformed, whole};
use random_layers::Dice;
use std::alloc::{AllocError, Global};
use std::process::Abort;
use std::test::Fail;
use twkb_body::{Claim, Why};

mod run;

// How many bytes there are after a geometry. Numbers in lanes are read only while some bytes are left.
const AFTER: [usize; 3] = [40, 0, 40];

// The case of this number: the forms in turn, and rings of one to five points.
fn case_of((axes, axis): (Axes, usize), number: usize) -> Case {
    Case {
        form: FORMS[number % 7],
        axes,
        axis,
        ring: (number % 5).wrapping_add(1),
        after: AFTER[number % 3],
    }
}

// Lanes are used while the last point is at most this far from the base.
const ROOM: i64 = 1 << 30;

// And while the base is at most this far from zero.
const FAR: i64 = 1 << 62;

const SHORT: [[i64; 2]; 8] = [
    [1, -1],
    [63, 63],
    [-64, -64],
    [8191, 8191],
    [-8192, -8192],
    [134217727, -134217728],
    [134217727, 134217727],
    [-134217728, -134217728],
];

#[test]
fn points_about_the_room_of_lanes(rt: HostRuntime) -> Result<(), Fail> {
    let mut number = 0usize;
    for each in EACH {
        for base in [0, 1 << 40, -FAR] {
            for far in [ROOM - 1, ROOM, ROOM + 1, 1 - ROOM, -ROOM, -ROOM - 1] {
                for count in 1..21usize {
                    number = number.wrapping_add(1);
                    let mut run = Run::new(rt.alloc());
                    if base != 0 {
                        run.add_in(each.1, base)?;
                    }
                    run.go(each.1, far)?;
                    run.add_in_turn(each.1, count, SHORT[number % 8])?;
                    boxes_agree(&rt, rt.alloc(), &case_of(each, number), &run)?;
                }
            }
        }
    }
    Ok(())
}

// The points in a run of short numbers.
const LONG: usize = 17;

const SIZES: [i64; 5] = [1, 64, 8191, 134217727, 1 << 40];

// Two numbers in turn whose sum is zero, of which the first leads from this place towards zero.
fn towards_zero(place: i64, number: usize) -> [i64; 2] {
    let size = SIZES[number % 5];
    if place < 0 {
        [size, size.wrapping_neg()]
    } else {
        [size.wrapping_neg(), size]
    }
}

// Adds 19 points, of which the one at `place` comes to `end`, and `beyond` further.
fn add_end(
    run: &mut Run,
    (axis, place): (usize, usize),
    (end, beyond): (i64, i64),
    number: usize,
) -> Result<(), AllocError> {
    let near = towards_zero(run.last_in(axis), number);
    run.add_in_turn(axis, place, near)?;
    let last = run.last_in(axis);
    let further = end
        .checked_sub(last)
        .and_then(|far| far.checked_add(beyond));
    if let Some(further) = further {
        run.add_in(axis, further)?;
        // No later point comes as far.
        let [back, forth] = towards_zero(end, number);
        run.add_in(axis, back.wrapping_mul(2))?;
        run.add_in_turn(axis, LONG.saturating_sub(place), [back, forth])?;
    }
    Ok(())
}

#[test]
fn points_that_leave_64_bits_by_one(rt: HostRuntime) -> Result<(), Fail> {
    let mut number = 0usize;
    for each in EACH {
        for base in [FAR, FAR + 1, i64::MAX, -FAR, -FAR - 1, -i64::MAX, i64::MIN] {
            for place in 0..LONG {
                for end in [(i64::MAX, 0), (i64::MAX, 1), (i64::MIN, 0), (i64::MIN, -1)] {
                    number = number.wrapping_add(1);
                    let mut run = Run::new(rt.alloc());
                    run.add_in_turn(each.1, 2 * (number / 4 % 2), [1, -1])?;
                    run.add_in(each.1, base)?;
                    add_end(&mut run, (each.1, place), end, number)?;
                    boxes_agree(&rt, rt.alloc(), &case_of(each, number), &run)?;
                }
            }
        }
    }
    Ok(())
}

// Numbers of five to ten bytes, the greatest of each and the least.
fn long_number(length: usize, is_negative: bool) -> i64 {
    let greatest = GREATEST.get(length.wrapping_sub(1)).copied().unwrap_or(0);
    if is_negative { -1 - greatest } else { greatest }
}

#[test]
fn long_numbers_at_each_place(rt: HostRuntime) -> Result<(), Fail> {
    let mut number = 0usize;
    for each in EACH {
        for length in 5..11usize {
            for is_negative in [false, true] {
                for place in 0..LONG {
                    number = number.wrapping_add(1);
                    let long = long_number(length, is_negative);
                    let near = towards_zero(long, number);
                    let mut run = Run::new(rt.alloc());
                    run.add_in_turn(each.1, place, near)?;
                    run.add_in(each.1, long)?;
                    run.add_in_turn(each.1, LONG.saturating_sub(place).saturating_sub(1), near)?;
                    boxes_agree(&rt, rt.alloc(), &case_of(each, number), &run)?;
                }
            }
        }
    }
    Ok(())
}

const RINGS: [Form; 5] = [
    (3, true, false),
    (5, true, false),
    (3, false, true),
    (3, true, true),
    (5, true, true),
];

// Three rings of `ring` points, with a long number at this point of all, and perhaps a number at the end that leaves 64 bits by one.
fn ring_agrees(
    rt: &impl Abort,
    alloc: Global,
    (axes, axis): (Axes, usize),
    (ring, place): (usize, usize),
    number: usize,
) -> Result<(), AllocError> {
    let long = long_number((number % 6).wrapping_add(5), number % 4 < 2);
    let near = towards_zero(long, number);
    let mut run = Run::new(alloc);
    run.add_in_turn(axis, place, near)?;
    run.add_in(axis, long)?;
    let left = ring
        .saturating_mul(3)
        .saturating_sub(place)
        .saturating_sub(1);
    run.add_in_turn(axis, left, near)?;
    let case = Case {
        form: RINGS[number % 5],
        axes,
        axis,
        ring,
        after: AFTER[number % 3],
    };
    boxes_agree(rt, alloc, &case, &run)?;
    let last = run.last_in(axis);
    let end = if last < 0 { i64::MIN } else { i64::MAX };
    if let Some(far) = end
        .wrapping_sub(last)
        .checked_add(if last < 0 { -1 } else { 1 })
    {
        let [back, forth] = towards_zero(last, number);
        run.add_in(axis, far)?;
        run.add_in(axis, back.wrapping_mul(2))?;
        run.add_in_turn(axis, ring, [back, forth])?;
        boxes_agree(rt, alloc, &case, &run)?;
    }
    Ok(())
}

#[test]
fn long_numbers_at_the_ends_of_rings(rt: HostRuntime) -> Result<(), Fail> {
    let mut number = 0usize;
    for each in EACH {
        for ring in [1, 2, 3, 4, 5, 8, 9, 16, 17usize] {
            for before in 0..3usize {
                let first = ring.wrapping_mul(before);
                for place in [first, first.wrapping_add(ring).wrapping_sub(1)] {
                    for _ in 0..6 {
                        number = number.wrapping_add(1);
                        ring_agrees(&rt, rt.alloc(), each, (ring, place), number)?;
                    }
                }
            }
        }
    }
    Ok(())
}

// Lines that are certified by both audits, by the format's own words: nine points from 2^27 - 1 to 2^30, and 2^62 and 2^63 - 1.
const KNOWN: [(&[u8], usize); 2] = [
    (
        &[
            0x02, 0x01, 0xFE, 0xFF, 0xFF, 0x7F, 0x82, 0x80, 0x80, 0x80, 0x07, 0x00, 0x00, 0x09,
            0xFE, 0xFF, 0xFF, 0x7F, 0x00, 0xFE, 0xFF, 0xFF, 0x7F, 0x00, 0xFE, 0xFF, 0xFF, 0x7F,
            0x00, 0xFE, 0xFF, 0xFF, 0x7F, 0x00, 0xFE, 0xFF, 0xFF, 0x7F, 0x00, 0xFE, 0xFF, 0xFF,
            0x7F, 0x00, 0xFE, 0xFF, 0xFF, 0x7F, 0x00, 0xFE, 0xFF, 0xFF, 0x7F, 0x00, 0x10, 0x00,
        ],
        9,
    ),
    (
        &[
            0x02, 0x01, 0x80, 0x80, 0x80, 0x80, 0x80, 0x80, 0x80, 0x80, 0x80, 0x01, 0xFE, 0xFF,
            0xFF, 0xFF, 0xFF, 0xFF, 0xFF, 0xFF, 0x7F, 0x00, 0x00, 0x02, 0x80, 0x80, 0x80, 0x80,
            0x80, 0x80, 0x80, 0x80, 0x80, 0x01, 0x00, 0xFE, 0xFF, 0xFF, 0xFF, 0xFF, 0xFF, 0xFF,
            0xFF, 0x7F, 0x00,
        ],
        2,
    ),
];

// Lines whose points leave 64 bits, without a box, also in Z alone, and in the second box of `KNOWN`.
const LEAVE: [(&[u8], usize); 3] = [
    (
        &[
            0x02, 0x00, 0x03, 0xFE, 0xFF, 0xFF, 0xFF, 0xFF, 0xFF, 0xFF, 0xFF, 0xFF, 0x01, 0x00,
            0x00, 0x00, 0x02, 0x00,
        ],
        16,
    ),
    (
        &[
            0x02, 0x08, 0x01, 0x03, 0x00, 0x00, 0xFF, 0xFF, 0xFF, 0xFF, 0xFF, 0xFF, 0xFF, 0xFF,
            0xFF, 0x01, 0x00, 0x00, 0x00, 0x00, 0x00, 0x01,
        ],
        21,
    ),
    (
        &[
            0x02, 0x01, 0x80, 0x80, 0x80, 0x80, 0x80, 0x80, 0x80, 0x80, 0x80, 0x01, 0xFE, 0xFF,
            0xFF, 0xFF, 0xFF, 0xFF, 0xFF, 0xFF, 0x7F, 0x00, 0x00, 0x03, 0x80, 0x80, 0x80, 0x80,
            0x80, 0x80, 0x80, 0x80, 0x80, 0x01, 0x00, 0xFE, 0xFF, 0xFF, 0xFF, 0xFF, 0xFF, 0xFF,
            0xFF, 0x7F, 0x00, 0x02, 0x00,
        ],
        45,
    ),
];

// The first line of `KNOWN` is in a box from the byte 2 on: with its byte 6 greater by two, the box is larger by one at the end, and
// with it less by two, smaller. With the last point one further, that point is outside.
#[test]
fn lines_with_known_answers(rt: HostRuntime) -> Result<(), Fail> {
    for &(bytes, vertices) in &KNOWN {
        answers(&rt, rt.alloc(), bytes, false, whole(bytes, vertices));
        answers(&rt, rt.alloc(), bytes, true, whole(bytes, vertices));
    }
    for &(bytes, offset) in &LEAVE {
        answers(&rt, rt.alloc(), bytes, false, malformed(offset, Why::Range));
        answers(&rt, rt.alloc(), bytes, true, malformed(offset, Why::Range));
    }
    let (bytes, vertices) = KNOWN[0];
    for (place, value, is_held) in [(6, 0x84, true), (6, 0x80, false), (54, 0x12, false)] {
        let mut changed = Vec::new(rt.alloc());
        changed.extend_from_slice(bytes)?;
        set(&rt, &mut changed, place, value);
        let boxed = false_claim(2, Claim::Box);
        let loose = false_claim(2, Claim::Loose);
        let (plain, tight) = if is_held {
            (whole(bytes, vertices), loose)
        } else {
            (boxed, boxed)
        };
        answers(&rt, rt.alloc(), &changed, false, plain);
        answers(&rt, rt.alloc(), &changed, true, tight);
    }
    Ok(())
}

const LIMITS: [i64; 7] = [0, FAR, -FAR, i64::MAX, i64::MIN, 1 << 40, -(1 << 40)];

// A number, short unless one in `rare` comes up: then of any length, or to a limit or beside it, or about as far as lanes have room.
fn number_after(dice: &mut Dice, last: i64, rare: u64) -> i64 {
    if !dice.once_in(rare) {
        let lengths = if dice.once_in(5) { 4 } else { 2 };
        return number_of(dice, lengths);
    }
    match dice.below(4) {
        0 => number_of(dice, 10),
        1 => dice.around(ROOM, 100),
        2 => dice.around(-ROOM, 100),
        _ => {
            let limit = LIMITS[(dice.below(7) % 7) as usize];
            dice.around(limit, 1).wrapping_sub(last)
        }
    }
}

// Points at random, and a box that holds them, mostly.
fn random_blob(alloc: Global, dice: &mut Dice, axes: Axes) -> Result<Vec<u8>, AllocError> {
    let mut run = Run::new(alloc);
    let rare = [400, 60, 10][(dice.below(3) % 3) as usize];
    for _ in 0..dice.below(36).saturating_add(1) {
        let mut step = [0i64; 4];
        for axis in 0..axes.1.min(4) {
            step[axis] = number_after(dice, run.last_in(axis), rare);
        }
        run.add(step)?;
    }
    let bounds = run.bounds().map(|(minimum, extent)| {
        let (less, more) = (off_by_one(dice), off_by_one(dice));
        (minimum.wrapping_sub(less), extent.wrapping_add(more))
    });
    let case = case_of((axes, 0), dice.below(35) as usize);
    Ok(blob(alloc, &case, &bounds, &run)?.0)
}

#[test]
fn random_points(rt: HostRuntime) -> Result<(), Fail> {
    for axes in [FLAT, Z, M, BOTH] {
        let mut certified = 0u64;
        for seed in 0..2000 {
            let bytes = random_blob(rt.alloc(), &mut Dice::new(seed), axes)?;
            if both_agree(&rt, rt.alloc(), &bytes) {
                certified = certified.saturating_add(1);
            }
        }
        assert!(&rt; 300 < certified && certified < 1700, "{certified}");
    }
    Ok(())
}
