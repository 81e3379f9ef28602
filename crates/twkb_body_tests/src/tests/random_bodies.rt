//! Geometries at random of each kind but a collection, each against a plain reader: numbers of each length, sums that leave 64
//! bits, boxes whose ends are met or missed by one, and the end of the bytes at each distance.
use super::bytes::{number_of, put, put_bytes, put_padded, put_unsigned};
use super::variants::random_blobs_agree;
use random_layers::Dice;
use std::alloc::{AllocError, Global};
use std::test::Fail;
use twkb_num::zigzag;

// The bytes of points, and the sum of each axis so far, with its least and its greatest value.
#[derive(Drop)]
struct Points {
    bytes: Vec<u8>,
    axes: usize,
    sums: [i64; 3],
    ranges: [(i64, i64); 3],
}

// Puts a number, mostly of one to three bytes, otherwise of one to ten. Now and then its last bytes have groups of zeros.
fn put_number(points: &mut Points, dice: &mut Dice, axis: usize) -> Result<(), AllocError> {
    let lengths = if dice.once_in(8) { 10 } else { 3 };
    let number = number_of(dice, lengths);
    let least = if dice.once_in(10) { dice.below(6) } else { 1 };
    put_padded(&mut points.bytes, zigzag(number), least)?;
    if axis < 3 {
        let sum = points.sums[axis].wrapping_add(number);
        let (lowest, highest) = points.ranges[axis];
        points.sums[axis] = sum;
        points.ranges[axis] = (lowest.min(sum), highest.max(sum));
    }
    Ok(())
}

// Puts `count` points.
fn put_points(points: &mut Points, dice: &mut Dice, count: u64) -> Result<(), AllocError> {
    for _ in 0..count {
        for axis in 0..points.axes {
            put_number(points, dice, axis)?;
        }
    }
    Ok(())
}

// Puts `runs` runs of points, each after its count.
fn put_runs(points: &mut Points, dice: &mut Dice, runs: u64) -> Result<(), AllocError> {
    for _ in 0..runs {
        let count = dice.below(9);
        put_unsigned(&mut points.bytes, count)?;
        put_points(points, dice, count)?;
    }
    Ok(())
}

// Puts a body of this kind.
fn put_body(points: &mut Points, dice: &mut Dice, kind: u64) -> Result<(), AllocError> {
    if kind == 1 {
        return put_points(points, dice, 1);
    }
    if kind == 2 || kind == 4 {
        return put_runs(points, dice, 1);
    }
    let parts = if dice.once_in(2) { 1 } else { dice.below(4) };
    put_unsigned(&mut points.bytes, parts)?;
    if kind != 6 {
        return put_runs(points, dice, parts);
    }
    for _ in 0..parts {
        let rings = dice.below(4);
        put_unsigned(&mut points.bytes, rings)?;
        put_runs(points, dice, rings)?;
    }
    Ok(())
}

// Puts a box round the points, which now and then misses a point by one.
fn put_box(out: &mut Vec<u8>, dice: &mut Dice, points: &Points) -> Result<(), AllocError> {
    for &(lowest, highest) in &points.ranges[..points.axes.min(3)] {
        let missed = if dice.once_in(9) {
            dice.around(0, 1)
        } else {
            0
        };
        put(out, lowest.wrapping_add(missed))?;
        put(out, highest.wrapping_sub(lowest))?;
    }
    Ok(())
}

// A geometry of X and Y, and perhaps Z, at some precision, with a box and a size or none.
fn whole_geometry(alloc: Global, dice: &mut Dice) -> Result<Vec<u8>, AllocError> {
    let kind = dice.below(6).saturating_add(1);
    let (has_z, has_box, has_size) = (dice.once_in(4), dice.once_in(2), dice.once_in(3));
    let mut points = Points {
        bytes: Vec::new(alloc),
        axes: if has_z { 3 } else { 2 },
        sums: [0; 3],
        ranges: [(i64::MAX, i64::MIN); 3],
    };
    put_body(&mut points, dice, kind)?;
    let mut sized = Vec::new(alloc);
    if has_box {
        put_box(&mut sized, dice, &points)?;
    }
    sized.extend_from_slice(&points.bytes)?;
    let mut out = Vec::new(alloc);
    out.push((kind % 8) as u8 | ((dice.below(16) % 16) as u8) << 4)?;
    out.push(u8::from(has_box) | 2 * u8::from(has_size) | 8 * u8::from(has_z))?;
    put_bytes(&mut out, 0x01, usize::from(has_z))?;
    if has_size {
        put_unsigned(&mut out, sized.len() as u64)?;
    }
    out.extend_from_slice(&sized)?;
    Ok(out)
}

/// A geometry of any kind but a collection, with some bytes after it, or cut.
pub fn geometry(alloc: Global, dice: &mut Dice) -> Result<Vec<u8>, AllocError> {
    let mut out = whole_geometry(alloc, dice)?;
    if dice.once_in(6) {
        let less = dice.below(9) as usize;
        out.truncate(out.len().saturating_sub(less));
    }
    let behind = [0x81, 0x00, 0xFF][(dice.below(3) % 3) as usize];
    put_bytes(&mut out, behind, dice.below(11) as usize)?;
    Ok(out)
}

#[test]
fn random_geometries(rt: HostRuntime) -> Result<(), Fail> {
    let certified = random_blobs_agree(&rt, rt.alloc(), geometry)?;
    assert!(&rt; 1500 < certified && certified < 3500, "{certified}");
    Ok(())
}
