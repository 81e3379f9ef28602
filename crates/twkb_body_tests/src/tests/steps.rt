//! Boxes whose ends are a step away from the vertices, a little less, and more, on each side of each axis.
use super::bytes::{put, put_points};
use super::{answers, false_claim, whole};
use std::alloc::{AllocError, Global};
use std::process::Abort;
use std::test::Fail;
use twkb_body::Claim;

// The precisions of a box: of X and Y, of Z, and of M; the type byte and the extended dimensions byte that say so.
const PRECISIONS: [([i8; 3], [u8; 2]); 5] = [
    ([0, 0, 0], [0x07, 0x03]),
    ([-8, 7, 3], [0xF7, 0x7F]),
    ([6, 1, 5], [0xC7, 0xA7]),
    ([7, 7, 7], [0xE7, 0xFF]),
    ([2, 4, 6], [0x47, 0xD3]),
];
// The least end of each axis in steps, of which each box has three.
const LEAST: [i64; 4] = [-2, 5, -9, 0];

// A step of this axis, which is one in the last digit, in units.
fn step(precisions: &[i8; 3], axis: usize) -> i64 {
    let precision = match axis {
        2 => precisions[1],
        3 => precisions[2],
        _ => precisions[0],
    };
    let mut step = 1i64;
    for _ in precision..7 {
        step = step.wrapping_mul(10);
    }
    step
}

// The least or the greatest corner of a box of three steps, moved into the box by `away` in one axis, in units.
fn corner(precisions: &[i8; 3], is_greatest: bool, axis: usize, away: i64) -> [i64; 4] {
    let mut corner = [0i64; 4];
    for k in 0..4 {
        let step = step(precisions, k);
        let inwards = if k == axis { away } else { 0 };
        corner[k] = if is_greatest {
            (LEAST[k].wrapping_add(3))
                .wrapping_mul(step)
                .wrapping_sub(inwards)
        } else {
            LEAST[k].wrapping_mul(step).wrapping_add(inwards)
        };
    }
    corner
}

// A collection with a box of three steps in each axis, over a line of two points in units.
fn boxed(
    alloc: Global,
    [first, extended]: [u8; 2],
    points: &[[i64; 4]; 2],
) -> Result<Vec<u8>, AllocError> {
    let mut out = Vec::new(alloc);
    out.extend_from_slice(&[first, 0x09, extended])?;
    for &least in &LEAST {
        put(&mut out, least)?;
        put(&mut out, 3)?;
    }
    // One line of two points, each axis with seven digits.
    out.extend_from_slice(&[0x01, 0xE2, 0x08, 0xFF, 0x02])?;
    put_points(&mut out, 4, points)?;
    Ok(out)
}

// Both audits judge a box that is `away` units away from the vertices at one end.
fn judged(
    rt: &impl Abort,
    alloc: Global,
    (precisions, bytes): &([i8; 3], [u8; 2]),
    axis: usize,
    is_greatest: bool,
    away: i64,
) -> Result<(), Fail> {
    let (low, high) = if is_greatest { (0, away) } else { (away, 0) };
    let from = corner(precisions, false, axis, low);
    let to = corner(precisions, true, axis, high);
    let bytes = boxed(alloc, *bytes, &[from, to])?;
    let certified = whole(&bytes, 2);
    answers(rt, alloc, &bytes, false, certified);
    let wanted = if away < step(precisions, axis) {
        certified
    } else {
        false_claim(3, Claim::Loose)
    };
    answers(rt, alloc, &bytes, true, wanted);
    Ok(())
}

// Both ends of an axis are judged if they are 0 units away, about a step, and two steps.
fn both_judged(
    rt: &impl Abort,
    alloc: Global,
    precisions: &([i8; 3], [u8; 2]),
    axis: usize,
) -> Result<(), Fail> {
    let step = step(&precisions.0, axis);
    let nearer = step.wrapping_sub(1);
    let farther = step.wrapping_add(1);
    for away in [0, nearer, step, farther, step.wrapping_mul(2)] {
        judged(rt, alloc, precisions, axis, false, away)?;
        judged(rt, alloc, precisions, axis, true, away)?;
    }
    Ok(())
}

#[test]
fn loose_from_a_step_on(rt: HostRuntime) -> Result<(), Fail> {
    for precisions in &PRECISIONS {
        for axis in 0..4 {
            both_judged(&rt, rt.alloc(), precisions, axis)?;
        }
    }
    Ok(())
}
