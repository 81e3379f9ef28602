//! Scans past boxes with Z or M: how many bytes are read where the window is missed in X, in another axis, or in none.
use super::slots::in_units;
use super::{certified, equal, window};
use std::alloc::{AllocError, Global};
use std::process::Abort;
use std::test::Fail;
use twkb_layer::{Bounds, Span};
use twkb_num::zigzag;

/// The point's raw integers. X and Y have precision 7, at which one of them is a unit, and Z and M have precision 0.
const X: i64 = 20;

const Y: i64 = -7;

const Z: i64 = 3;

const M: i64 = 2;

/// How many units 1 in Z or M is.
const UNIT: i128 = 10_000_000;

/// Bytes for a number: one, as many as a lane takes or one more, as many as a word takes or one more, and the most there can be.
const LENGTHS: [usize; 6] = [1, 4, 5, 8, 9, 10];

/// A point that no window here holds, without any field.
const ELSEWHERE: [u8; 4] = [0x01, 0x00, 0x02, 0x04];

/// A spelling of a small number in this many bytes.
fn push_padded(out: &mut Vec<u8>, number: i64, length: usize) -> Result<(), AllocError> {
    let first = (zigzag(number) % 128) as u8;
    if length <= 1 {
        out.push(first)?;
        return Ok(());
    }
    out.push(first + 0x80)?;
    for _ in 2..length {
        out.push(0x80)?;
    }
    out.push(0)?;
    Ok(())
}

/// The coordinates of a point with Z if bit 0 is set, and with M if bit 1 is.
fn coordinates(alloc: Global, extended: u8) -> Result<Vec<i64>, AllocError> {
    let mut all = Vec::new(alloc);
    all.extend_from_slice(&[X, Y])?;
    if extended % 2 == 1 {
        all.push(Z)?;
    }
    if extended / 2 == 1 {
        all.push(M)?;
    }
    Ok(all)
}

/// The point with a size, a box and an extended dimensions byte, and the length of its header. Each minimum of the box takes `flat`
/// bytes in X and Y, and `further` bytes in Z and M.
fn boxed_point(
    alloc: Global,
    extended: u8,
    flat: usize,
    further: usize,
) -> Result<(Vec<u8>, u64), AllocError> {
    let all = coordinates(alloc, extended)?;
    let mut rest = Vec::new(alloc);
    for (axis, &coordinate) in all.iter().enumerate() {
        push_padded(&mut rest, coordinate, if axis < 2 { flat } else { further })?;
        rest.push(0)?;
    }
    let header = rest.len() as u64 + 4;
    for &coordinate in &all {
        push_padded(&mut rest, coordinate, 1)?;
    }
    let mut out = Vec::new(alloc);
    out.extend_from_slice(&[0xE1, 0x0B, extended, (rest.len() % 128) as u8])?;
    out.extend_from_slice(&rest)?;
    Ok((out, header))
}

/// A scan of the bytes for these ranges: how many hits, and how many bytes were read.
fn scanned(rt: &impl Abort, alloc: Global, bytes: &[u8], ranges: &Bounds) -> (usize, u64) {
    let mut layer = certified(rt, alloc, bytes);
    let before = layer.read_count();
    let found = layer.scan(&window(ranges), &mut []);
    (found, layer.read_count().saturating_sub(before))
}

/// The point is read up to the end of its box where a window misses it in an axis that it has, and whole otherwise. A window in an
/// axis that it lacks doesn't hold it.
fn is_read_as_far(
    rt: &impl Abort,
    alloc: Global,
    extended: u8,
    lengths: (usize, usize),
    others: usize,
) -> Result<(), AllocError> {
    let (mut bytes, header) = boxed_point(alloc, extended, lengths.0, lengths.1)?;
    let whole = bytes.len() as u64;
    for _ in 0..others {
        bytes.extend_from_slice(&ELSEWHERE)?;
    }
    let all = bytes.len() as u64;
    // All but the bytes after the header of the point.
    let hopped = all.saturating_sub(whole.saturating_sub(header));
    let (hit, unseen, missed) = ((1, all), (0, all), (0, hopped));
    let here = in_units((20, 20), (-7, -7));
    let high = Some(Span {
        lo: 4 * UNIT,
        hi: 9 * UNIT,
    });
    let windows = [
        (here, hit),
        (in_units((21, 30), (-7, -7)), missed),
        (in_units((10, 19), (-7, -7)), missed),
        (in_units((20, 20), (-6, 0)), missed),
        (
            Bounds { z: high, ..here },
            if extended % 2 == 1 { missed } else { unseen },
        ),
        (
            Bounds { m: high, ..here },
            if extended / 2 == 1 { missed } else { unseen },
        ),
    ];
    for (ranges, expected) in &windows {
        equal(rt, scanned(rt, alloc, &bytes, ranges), *expected);
    }
    Ok(())
}

#[test]
fn boxes_with_z_or_m(rt: HostRuntime) -> Result<(), Fail> {
    for extended in 0..4 {
        for &flat in &LENGTHS {
            for &further in &LENGTHS {
                for others in [0, 10] {
                    is_read_as_far(&rt, rt.alloc(), extended, (flat, further), others)?;
                }
            }
        }
    }
    Ok(())
}
