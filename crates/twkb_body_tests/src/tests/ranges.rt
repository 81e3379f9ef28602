//! Points of X and Y in a box, at the ends of its ranges and beyond them, against the plain reader. There are ranges that fit a
//! lane and ranges that don't.
use super::runs::{Difference, alike, kinds_agree};
use std::alloc::{AllocError, Global};
use std::process::Abort;
use std::test::Fail;

// The differences of points with these places in one axis, and always `other` in the other axis.
fn in_axis(
    alloc: Global,
    axis: usize,
    places: &[i64],
    other: i64,
) -> Result<Vec<Difference>, AllocError> {
    let mut differences = Vec::new(alloc);
    let mut last = 0i64;
    let mut side = other;
    for &place in places {
        let along = (place.wrapping_sub(last), 1);
        let across = (side, 1);
        let both = if axis == 0 {
            [along, across]
        } else {
            [across, along]
        };
        differences.extend_from_slice(&both)?;
        last = place;
        side = 0;
    }
    Ok(differences)
}

// The audits agree on points with these places in one axis, with its range, and at the only number of the range in the other.
fn places_agree(
    rt: &impl Abort,
    alloc: Global,
    axis: usize,
    range: (i64, i64),
    places: &[i64],
) -> Result<bool, AllocError> {
    let other = 100;
    let bounds = if axis == 0 {
        [range, (other, 0)]
    } else {
        [(other, 0), range]
    };
    let differences = in_axis(alloc, axis, places, other)?;
    kinds_agree(rt, alloc, &bounds, &differences)
}

// Lanes tell extents below this, and distances below twice as much.
const LANE: i64 = 1 << 30;

const MINIMA: [i64; 21] = [
    0,
    1,
    -1,
    LANE - 1,
    LANE,
    LANE + 1,
    1 - LANE,
    -LANE,
    -LANE - 1,
    2 * LANE - 1,
    2 * LANE,
    2 * LANE + 1,
    1 - 2 * LANE,
    -2 * LANE,
    -2 * LANE - 1,
    4 * LANE,
    -4 * LANE,
    4 * LANE + 1,
    -4 * LANE - 1,
    8 * LANE,
    -8 * LANE,
];

const EXTENTS: [i64; 15] = [
    0,
    1,
    LANE - 2,
    LANE - 1,
    LANE,
    LANE + 1,
    2 * LANE - 1,
    2 * LANE,
    2 * LANE + 1,
    4 * LANE - 1,
    4 * LANE,
    4 * LANE + 1,
    -1,
    -LANE,
    -4 * LANE,
];

// Points about both ends of a range, some near the point before them, and some far from it.
fn range_agrees(
    rt: &impl Abort,
    alloc: Global,
    axis: usize,
    (minimum, extent): (i64, i64),
) -> Result<(), AllocError> {
    let maximum = minimum.wrapping_add(extent);
    for from in [minimum, maximum] {
        for to in [minimum, maximum, 0] {
            for beside in [-1, 0, 1] {
                let there = to.wrapping_add(beside);
                let places = [from, from, from, there, there, from, from, there, from];
                places_agree(rt, alloc, axis, (minimum, extent), &places)?;
            }
        }
    }
    Ok(())
}

#[test]
fn ranges_about_what_fits_a_lane(rt: HostRuntime) -> Result<(), Fail> {
    for axis in 0..2usize {
        for minimum in MINIMA {
            for extent in EXTENTS {
                range_agrees(&rt, rt.alloc(), axis, (minimum, extent))?;
            }
        }
    }
    Ok(())
}

// Eleven points, all but one in the middle of a range.
fn one_agrees(
    rt: &impl Abort,
    alloc: Global,
    axis: usize,
    (minimum, extent): (i64, i64),
    (place, there): (usize, i64),
) -> Result<bool, AllocError> {
    let mut places = [minimum.wrapping_add(extent / 2); 11];
    if place < 11 {
        places[place] = there;
    }
    places_agree(rt, alloc, axis, (minimum, extent), &places)
}

// Points at each end of a range and outside of it by one, as the first, the second, and so on.
fn ends_agree(
    rt: &impl Abort,
    alloc: Global,
    axis: usize,
    (minimum, extent): (i64, i64),
) -> Result<(), AllocError> {
    let maximum = minimum.wrapping_add(extent);
    for place in 0..11usize {
        for (end, out) in [(minimum, -1), (maximum, 1)] {
            let at_end = one_agrees(rt, alloc, axis, (minimum, extent), (place, end))?;
            let outside = end.wrapping_add(out);
            let beyond = one_agrees(rt, alloc, axis, (minimum, extent), (place, outside))?;
            assert!(rt;
                at_end && !beyond,
                "{axis} {minimum} {extent} {place} {end}"
            );
        }
    }
    Ok(())
}

// Half of each extent takes a number of one byte, of two, and so on to five.
#[test]
fn a_point_outside_by_one(rt: HostRuntime) -> Result<(), Fail> {
    for axis in 0..2usize {
        for minimum in [
            0,
            -3,
            70,
            -9000,
            -(1 << 29),
            1 - LANE,
            2 * LANE - 1,
            -2 * LANE,
        ] {
            for extent in [0, 8, 120, 16000, 2000000, 200000000, LANE - 1] {
                ends_agree(&rt, rt.alloc(), axis, (minimum, extent))?;
            }
        }
    }
    Ok(())
}

// How far a point leaves a box: its distance wraps about 16 bits, 32 bits or 64, or is a negative number of a lane.
const FAR: [i64; 18] = [
    1 << 15,
    -(1 << 15),
    1 << 16,
    -(1 << 16),
    1 << 27,
    -(1 << 27),
    1 << 31,
    -(1 << 31),
    1 << 32,
    -(1 << 32),
    (1 << 32) - 1,
    1 - (1 << 32),
    (1 << 32) + 1,
    -(1 << 32) - 1,
    1 << 33,
    1 << 48,
    i64::MAX,
    i64::MIN,
];

#[test]
fn a_point_that_wraps(rt: HostRuntime) -> Result<(), Fail> {
    for axis in 0..2usize {
        for range in [
            (-5, 10),
            (-9000, 16000),
            (-5, LANE - 1),
            (1 - LANE, LANE - 1),
        ] {
            for place in 0..11usize {
                for far in FAR {
                    one_agrees(&rt, rt.alloc(), axis, range, (place, far))?;
                }
            }
        }
    }
    Ok(())
}

// Points in steps of one size from zero on, in a box that holds them and no more, or one number less at one end.
fn steps_agree(
    rt: &impl Abort,
    alloc: Global,
    count: usize,
    steps: [i64; 2],
) -> Result<(), AllocError> {
    let differences = alike(alloc, count, steps.map(|step| (step, 1)))?;
    let times = i64::try_from(count).unwrap_or(0);
    let exact = steps.map(|step| {
        let last = step.wrapping_mul(times);
        (step.min(last), last.wrapping_sub(step).wrapping_abs())
    });
    let certified = kinds_agree(rt, alloc, &exact, &differences)?;
    assert!(rt; certified, "{count} {steps:?}");
    for axis in 0..2 {
        for (low, less) in [(0, -1), (1, -1)] {
            let mut narrow = exact;
            let (minimum, extent) = exact[axis];
            narrow[axis] = (minimum.wrapping_add(low), extent.wrapping_add(less));
            let certified = kinds_agree(rt, alloc, &narrow, &differences)?;
            assert!(rt; !certified, "{count} {steps:?} {axis} {low}");
        }
    }
    Ok(())
}

// The greatest steps of each length, so that sums of four are as far from zero as they can be.
#[test]
fn steps_that_add_up(rt: HostRuntime) -> Result<(), Fail> {
    const STEPS: [i64; 9] = [
        1, 63, -64, 8191, -8192, 1048575, -1048576, 134217727, -134217728,
    ];
    for count in 1..13usize {
        for x in STEPS {
            for y in STEPS {
                steps_agree(&rt, rt.alloc(), count, [x, y])?;
            }
        }
    }
    Ok(())
}
