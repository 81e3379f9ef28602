//! Layers of lines, polygons, multipoints and multilines at random, in boxes that are right, wider or narrower by one, whole or
//! with a byte changed, against the plain reader.
use super::bytes::number_of;
use super::runs::{Bounds, Difference, KINDS, in_box};
use super::variants::agrees;
use random_layers::Dice;
use std::alloc::{AllocError, Global};
use std::process::Abort;
use std::test::Fail;

/// Mostly 0, otherwise -1, 0 or 1.
pub fn off_by_one(dice: &mut Dice) -> i64 {
    if dice.once_in(12) {
        dice.around(0, 1)
    } else {
        0
    }
}

// The differences of `count` points in X and Y, mostly of few bytes each, and the box that holds the points.
fn differences(
    alloc: Global,
    dice: &mut Dice,
    count: u64,
) -> Result<(Vec<Difference>, Bounds), AllocError> {
    let lengths = dice.below(5).wrapping_add(1);
    let mut all = Vec::new(alloc);
    let mut last = [0i64; 2];
    let mut ends = [(i64::MAX, i64::MIN); 2];
    for k in 0..count.saturating_mul(2) {
        let axis = (k % 2) as usize;
        let number = number_of(dice, lengths);
        let least = if dice.once_in(40) { dice.below(6) } else { 1 };
        all.push((number, least))?;
        last[axis] = last[axis].wrapping_add(number);
        let (low, high) = ends[axis];
        ends[axis] = (low.min(last[axis]), high.max(last[axis]));
    }
    let bounds = ends.map(|(low, high)| (low, high.wrapping_sub(low)));
    Ok((all, bounds))
}

// A geometry in a box that holds it, mostly.
fn geometry(alloc: Global, dice: &mut Dice) -> Result<Vec<u8>, AllocError> {
    let count = dice.below(14);
    let (all, exact) = differences(alloc, dice, count)?;
    let bounds = exact.map(|(minimum, extent)| {
        let (less, more) = (off_by_one(dice), off_by_one(dice));
        (minimum.wrapping_sub(less), extent.wrapping_add(more))
    });
    let kind = KINDS[(dice.below(4) % 4) as usize];
    let first = dice.below(14) as usize;
    in_box(alloc, kind, &bounds, first, &all)
}

// Some geometries, one after another, and where each begins.
fn layer(alloc: Global, dice: &mut Dice) -> Result<(Vec<u8>, Vec<usize>), AllocError> {
    let mut bytes = Vec::new(alloc);
    let mut starts = Vec::new(alloc);
    for _ in 0..=dice.below(4) {
        starts.push(bytes.len())?;
        let next = geometry(alloc, dice)?;
        bytes.extend_from_slice(&next)?;
    }
    Ok((bytes, starts))
}

// From each start on the audits agree with the plain reader. Returns how many blobs are certified.
fn layer_agrees(rt: &impl Abort, alloc: Global, bytes: &[u8], starts: &[usize]) -> u64 {
    let mut certified = 0u64;
    for &start in starts {
        let rest = bytes.get(start..).unwrap_or(&[]);
        if agrees(rt, alloc, rest, false) {
            certified = certified.saturating_add(1);
        }
    }
    certified
}

// Many are certified, and many are refused.
#[test]
fn random_runs_in_boxes(rt: HostRuntime) -> Result<(), Fail> {
    let (mut blobs, mut certified) = (0u64, 0u64);
    for seed in 0..10000 {
        let mut dice = Dice::new(seed);
        let (mut bytes, starts) = layer(rt.alloc(), &mut dice)?;
        let more = layer_agrees(&rt, rt.alloc(), &bytes, &starts);
        certified = certified.saturating_add(more);
        blobs = blobs.saturating_add(starts.len() as u64);
        for _ in 0..4 {
            let place = dice.below(bytes.len() as u64) as usize;
            if let Some(byte) = bytes.get_mut(place) {
                *byte = (dice.below(256) % 256) as u8;
            }
            layer_agrees(&rt, rt.alloc(), &bytes, &starts);
        }
    }
    let refused = blobs.saturating_sub(certified);
    assert!(&rt;
        10000 < certified && 1000 < refused,
        "{certified} of {blobs}"
    );
    Ok(())
}
