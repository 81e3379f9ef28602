//! Lines in a box, with a size and without, with Z, M or both and without, with minima and extents near zero and far from it,
//! against the plain reader.
use super::bytes::{GREATEST, put_bounds, put_bytes, put_points, put_unsigned};
use super::variants::{agrees, both_agree};
use std::alloc::{AllocError, Global};
use std::process::Abort;
use std::test::Fail;

// A number of which four times as much leaves 64 bits, and sums of two don't.
const NEAR: i64 = 1 << 61;

const MINIMA: [i64; 11] = [
    0,
    -7,
    NEAR - 1,
    NEAR,
    NEAR + 1,
    1 - NEAR,
    -NEAR,
    -NEAR - 1,
    2 * NEAR,
    i64::MAX,
    i64::MIN,
];

const EXTENTS: [i64; 10] = [
    0,
    1,
    NEAR - 1,
    NEAR,
    NEAR + 1,
    -1,
    1 - NEAR,
    -NEAR,
    i64::MAX,
    i64::MIN,
];

// The bytes before the box, and how many axes there are: X and Y, and Z, M or both after them.
type Axes = (&'static [u8], usize);

const FLAT: Axes = (&[0x02, 0x01], 2);

const Z: Axes = (&[0x02, 0x09, 0x01], 3);

const M: Axes = (&[0x02, 0x09, 0x02], 3);

const BOTH: Axes = (&[0x02, 0x09, 0x03], 4);

// Each axis.
const EACH: [(Axes, usize); 6] = [(FLAT, 0), (FLAT, 1), (Z, 2), (M, 2), (BOTH, 2), (BOTH, 3)];

// A line with a box, by minimum and extent of each axis, perhaps with a size, and `after` bytes after it.
fn line_in_box(
    alloc: Global,
    (before, axes): Axes,
    bounds: &[(i64, i64); 4],
    points: &[[i64; 4]],
    (has_size, after): (bool, usize),
) -> Result<Vec<u8>, AllocError> {
    let mut sized = Vec::new(alloc);
    put_bounds(&mut sized, &bounds[..axes.min(4)])?;
    sized.push((points.len() % 128) as u8)?;
    put_points(&mut sized, axes, points)?;
    let mut out = Vec::new(alloc);
    match before {
        [first, metadata, extended @ ..] if has_size => {
            out.extend_from_slice(&[*first, *metadata | 2])?;
            out.extend_from_slice(extended)?;
            put_unsigned(&mut out, sized.len() as u64)?;
        }
        _ => out.extend_from_slice(before)?,
    }
    out.extend_from_slice(&sized)?;
    put_bytes(&mut out, 0x00, after)?;
    Ok(out)
}

// Both audits agree with the plain reader on a line with a size and without, and with bytes after it and with none.
fn line_agrees(
    rt: &impl Abort,
    alloc: Global,
    axes: Axes,
    bounds: &[(i64, i64); 4],
    points: &[[i64; 4]],
) -> Result<(), AllocError> {
    for ends in [(false, 0), (false, 8), (true, 0), (true, 8)] {
        let bytes = line_in_box(alloc, axes, bounds, points, ends)?;
        both_agree(rt, alloc, &bytes);
    }
    Ok(())
}

// The value `this` in one axis, and `that` in the others.
fn in_axis<T: Copy>(axis: usize, this: T, that: T) -> [T; 4] {
    let mut all = [that; 4];
    if axis < 4 {
        all[axis] = this;
    }
    all
}

// A line from an end of the box, or from beside it, to a place as near and back again, in one axis.
fn ends_agree(
    rt: &impl Abort,
    alloc: Global,
    (axes, axis): (Axes, usize),
    (minimum, extent): (i64, i64),
) -> Result<(), AllocError> {
    let bounds = in_axis(axis, (minimum, extent), (-3, 6));
    for end in [minimum, minimum.wrapping_add(extent)] {
        for (from, to) in [(-1, 0), (0, -1), (0, 0), (0, 1), (1, 0)] {
            let first = in_axis(axis, end.wrapping_add(from), 3);
            let second = in_axis(axis, end.wrapping_add(to), -3);
            line_agrees(rt, alloc, axes, &bounds, &[first, second, first])?;
        }
    }
    Ok(())
}

#[test]
fn ends_of_near_boxes_and_far_ones(rt: HostRuntime) -> Result<(), Fail> {
    for &each in &EACH {
        for &minimum in &MINIMA {
            for &extent in &EXTENTS {
                ends_agree(&rt, rt.alloc(), each, (minimum, extent))?;
            }
        }
    }
    Ok(())
}

// Boxes that hold numbers about once and twice as far from zero as `NEAR`.
const FAR_BOXES: [(i64, i64); 10] = [
    (0, NEAR),
    (NEAR, NEAR),
    (NEAR, 0),
    (-NEAR, NEAR),
    (-NEAR, 0),
    (-NEAR - 1, NEAR),
    (i64::MIN, i64::MAX),
    (i64::MAX, 0),
    (-1, i64::MAX),
    (0, i64::MAX),
];

const STEPS: [i64; 7] = [0, 1, -1, 134217727, -134217728, 134217728, NEAR];

// Lines that begin at `first` in one axis, and make a step in it.
fn steps_agree(
    rt: &impl Abort,
    alloc: Global,
    (axes, axis): (Axes, usize),
    first: i64,
) -> Result<(), AllocError> {
    for &range in &FAR_BOXES {
        for &step in &STEPS {
            let second = first.wrapping_add(step);
            let points = [first, second, first, second].map(|at| in_axis(axis, at, 0));
            line_agrees(rt, alloc, axes, &in_axis(axis, range, (0, 0)), &points)?;
        }
    }
    Ok(())
}

#[test]
fn sums_about_what_is_near(rt: HostRuntime) -> Result<(), Fail> {
    for &each in &EACH {
        for about in [NEAR, -NEAR, 2 * NEAR, -2 * NEAR, i64::MAX, i64::MIN] {
            for beside in [-1, 0, 1] {
                steps_agree(&rt, rt.alloc(), each, about.wrapping_add(beside))?;
            }
        }
    }
    Ok(())
}

// The box that reaches from zero to a number.
fn reaching(number: i64) -> (i64, i64) {
    let minimum = number.min(0);
    (minimum, number.max(0).wrapping_sub(minimum))
}

// A point after another, in a box that just holds it or misses it by one at one end of one axis, and bytes after it.
fn point_agrees(
    rt: &impl Abort,
    alloc: Global,
    axes: Axes,
    point: [i64; 4],
) -> Result<(), AllocError> {
    for missed in 0..=axes.1.min(4) {
        for (low, high) in [(1, -1), (0, -1)] {
            let mut bounds = point.map(reaching);
            if 0 < missed {
                let (minimum, extent) = bounds[missed - 1];
                bounds[missed - 1] = (minimum.wrapping_add(low), extent.wrapping_add(high));
            }
            for after in [0, 5, 6, 7, 8] {
                for has_size in [false, true] {
                    let ends = (has_size, after);
                    let bytes = line_in_box(alloc, axes, &bounds, &[[0; 4], point], ends)?;
                    agrees(rt, alloc, &bytes, false);
                }
            }
        }
    }
    Ok(())
}

#[test]
fn numbers_of_every_two_lengths(rt: HostRuntime) -> Result<(), Fail> {
    for &a in &GREATEST {
        point_agrees(&rt, rt.alloc(), Z, [200, -1, a, 0])?;
        point_agrees(&rt, rt.alloc(), M, [200, -1, -1 - a, 0])?;
        for &b in &GREATEST {
            for (a, b) in [(a, b), (a.wrapping_neg(), b), (a, -1 - b)] {
                point_agrees(&rt, rt.alloc(), FLAT, [a, b, 0, 0])?;
                point_agrees(&rt, rt.alloc(), BOTH, [200, -1, a, b])?;
            }
        }
    }
    Ok(())
}

// A line of short numbers, with each number of bytes after the last one.
#[test]
fn bytes_behind_the_last_point(rt: HostRuntime) -> Result<(), Fail> {
    const POINTS: [[i64; 4]; 5] = [
        [1, 1, 1, 1],
        [64, 64, -9, 9000],
        [9000, -5, -9, 0],
        [0, 3, 2000000, 2000000],
        [-2000000, 2000000, 0, 0],
    ];
    let bounds = [
        (-2000000, 2009000),
        (-5, 2000005),
        (-9, 2000009),
        (0, 2000000),
    ];
    for axes in [FLAT, Z, BOTH] {
        for count in 0..6usize {
            for after in 0..12usize {
                let points = &POINTS[..count.min(5)];
                for has_size in [false, true] {
                    let ends = (has_size, after);
                    let bytes = line_in_box(rt.alloc(), axes, &bounds, points, ends)?;
                    both_agree(&rt, rt.alloc(), &bytes);
                }
            }
        }
    }
    Ok(())
}
