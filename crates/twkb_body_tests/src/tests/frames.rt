//! Collections in boxes over members of all sorts, against the plain reader: with boxes of their own, with none, at other
//! precisions, and members that no box of raw numbers holds.
use super::bytes::{put, put_bounds, put_unsigned};
use super::variants::both_agree;
use std::alloc::{AllocError, Global};
use std::process::Abort;
use std::test::Fail;

// Minimum and extent of X, and of Y.
type Bounds = [(i64, i64); 2];

// From 0 to 10.
const TO_TEN: Option<Bounds> = Some([(0, 10), (0, 10)]);

// No box, a box from 0 to 10, one wider by one on each side, and boxes narrower by one on one side of one axis.
const BOXES: [Option<Bounds>; 7] = [
    None,
    TO_TEN,
    Some([(-1, 12), (-1, 12)]),
    Some([(1, 9), (0, 10)]),
    Some([(0, 9), (0, 10)]),
    Some([(0, 10), (1, 9)]),
    Some([(0, 10), (0, 9)]),
];

const MIDDLE: &[u8] = &[0x01, 0x00, 0x0A, 0x0A];

// Members of all sorts.
const MEMBERS: [&[u8]; 31] = [
    // Points in the middle of 0 to 10, at each of its ends, and outside by one.
    MIDDLE,
    &[0x01, 0x00, 0x00, 0x0A],
    &[0x01, 0x00, 0x14, 0x0A],
    &[0x01, 0x00, 0x0A, 0x00],
    &[0x01, 0x00, 0x0A, 0x14],
    &[0x01, 0x00, 0x01, 0x0A],
    &[0x01, 0x00, 0x16, 0x0A],
    &[0x01, 0x00, 0x0A, 0x01],
    &[0x01, 0x00, 0x0A, 0x16],
    // A point with a size, and one whose size is false.
    &[0x01, 0x02, 0x02, 0x14, 0x14],
    &[0x01, 0x02, 0x03, 0x0A, 0x0A],
    // The point (5 5) in a box from 0 to 10, in one that pokes out on each side, and in one that doesn't hold it.
    &[0x01, 0x01, 0x00, 0x14, 0x00, 0x14, 0x0A, 0x0A],
    &[0x01, 0x01, 0x01, 0x16, 0x00, 0x14, 0x0A, 0x0A],
    &[0x01, 0x01, 0x00, 0x16, 0x00, 0x14, 0x0A, 0x0A],
    &[0x01, 0x01, 0x00, 0x14, 0x01, 0x16, 0x0A, 0x0A],
    &[0x01, 0x01, 0x00, 0x14, 0x00, 0x16, 0x0A, 0x0A],
    &[0x01, 0x01, 0x00, 0x08, 0x00, 0x14, 0x0A, 0x0A],
    // A point that pokes out with its box.
    &[0x01, 0x01, 0x01, 0x16, 0x00, 0x14, 0x01, 0x0A],
    &[0x01, 0x03, 0x06, 0x00, 0x14, 0x00, 0x16, 0x0A, 0x16],
    // Empty members, without a box and in a box that lies elsewhere.
    &[0x01, 0x10],
    &[0x02, 0x13, 0x04, 0x28, 0x02, 0x28, 0x02],
    // Ids that differ, and equal ones.
    &[0x04, 0x04, 0x02, 0x02, 0x04, 0x0A, 0x0A, 0x02, 0x02],
    &[0x04, 0x04, 0x02, 0x02, 0x02, 0x0A, 0x0A, 0x02, 0x02],
    // Points with Z, one of them in a box, and an extended byte with neither Z nor M.
    &[0x01, 0x08, 0x01, 0x0A, 0x0A, 0x01],
    &[
        0x01, 0x09, 0x01, 0x00, 0x14, 0x00, 0x14, 0x00, 0x14, 0x0A, 0x0A, 0x01,
    ],
    &[0x01, 0x08, 0x00, 0x0A, 0x0A],
    // A line that leaves the box and comes back, and lines without points.
    &[0x02, 0x00, 0x03, 0x0A, 0x0A, 0x0C, 0x00, 0x0B, 0x00],
    &[0x02, 0x01, 0x00, 0x14, 0x00, 0x14, 0x00],
    &[0x05, 0x00, 0x02, 0x00, 0x00],
    // A collection over the point (11 5), and one whose box is false of it.
    &[0x07, 0x00, 0x01, 0x01, 0x00, 0x16, 0x0A],
    &[
        0x07, 0x01, 0x00, 0x14, 0x00, 0x14, 0x01, 0x01, 0x00, 0x16, 0x0A,
    ],
];

// The body of a collection: a box, if there is one, and members.
fn body(alloc: Global, bounds: &Option<Bounds>, members: &[&[u8]]) -> Result<Vec<u8>, AllocError> {
    let mut out = Vec::new(alloc);
    if let Some(bounds) = bounds {
        put_bounds(&mut out, bounds)?;
    }
    out.push((members.len() % 128) as u8)?;
    for member in members {
        out.extend_from_slice(member)?;
    }
    Ok(out)
}

// A collection at a precision, with a box if there is one, and for `Some` with a size that is too great by this number.
fn collection(
    alloc: Global,
    first: u8,
    bounds: &Option<Bounds>,
    size: Option<u64>,
    members: &[&[u8]],
) -> Result<Vec<u8>, AllocError> {
    let sized = body(alloc, bounds, members)?;
    let has_box = u8::from(bounds.is_some());
    let mut out = Vec::new(alloc);
    match size {
        Some(more) => {
            out.extend_from_slice(&[first, has_box | 2])?;
            put_unsigned(&mut out, (sized.len() as u64).wrapping_add(more))?;
        }
        None => out.extend_from_slice(&[first, has_box])?,
    }
    out.extend_from_slice(&sized)?;
    Ok(out)
}

// Both audits agree with the plain reader on a collection of these members in each box.
fn in_boxes_agree(
    rt: &impl Abort,
    alloc: Global,
    first: u8,
    members: &[&[u8]],
) -> Result<(), AllocError> {
    for bounds in &BOXES {
        let bytes = collection(alloc, first, bounds, None, members)?;
        both_agree(rt, alloc, &bytes);
    }
    Ok(())
}

#[test]
fn every_two_members(rt: HostRuntime) -> Result<(), Fail> {
    for &a in &MEMBERS {
        for &b in &MEMBERS {
            in_boxes_agree(&rt, rt.alloc(), 0x07, &[a, b])?;
        }
    }
    Ok(())
}

// A member in a collection in another, each in each box, with a point after the inner one; and with one more between them.
#[test]
fn boxes_of_two_levels(rt: HostRuntime) -> Result<(), Fail> {
    for &member in &MEMBERS {
        for inner in &BOXES {
            let below = collection(rt.alloc(), 0x07, inner, None, &[member])?;
            in_boxes_agree(&rt, rt.alloc(), 0x07, &[&below, MIDDLE])?;
            let middle = collection(rt.alloc(), 0x07, &None, Some(0), &[&below])?;
            in_boxes_agree(&rt, rt.alloc(), 0x07, &[MIDDLE, &middle])?;
        }
    }
    Ok(())
}

// Type bytes of a precision without a kind: 0, one digit less and one more.
const PRECISIONS: [u8; 3] = [0x00, 0x10, 0x20];

// A point, in a box that holds only it, if the metadata byte says that there is a box.
fn point_of(
    alloc: Global,
    [first, metadata]: [u8; 2],
    [x, y]: [i64; 2],
) -> Result<Vec<u8>, AllocError> {
    let mut out = Vec::new(alloc);
    out.extend_from_slice(&[first, metadata])?;
    if metadata == 1 {
        put_bounds(&mut out, &[(x, 0), (y, 0)])?;
    }
    put(&mut out, x)?;
    put(&mut out, y)?;
    Ok(out)
}

// A point at a precision, in a box that holds only it or without a box, in collections with boxes of another precision.
fn point_agrees(
    rt: &impl Abort,
    alloc: Global,
    (above, here): (u8, u8),
    point: [i64; 2],
) -> Result<(), AllocError> {
    for metadata in [0u8, 1] {
        let member = point_of(alloc, [here | 1, metadata], point)?;
        let below = collection(alloc, here | 7, &None, None, &[&member])?;
        in_boxes_agree(rt, alloc, above | 7, &[&member, &below])?;
    }
    Ok(())
}

// Points with each number in X, and in Y.
fn points_agree(rt: &impl Abort, alloc: Global, both: (u8, u8)) -> Result<(), AllocError> {
    const NUMBERS: [i64; 13] = [-11, -10, -1, 0, 1, 9, 10, 11, 12, 99, 100, 101, 110];
    for &number in &NUMBERS {
        point_agrees(rt, alloc, both, [number, 1])?;
        point_agrees(rt, alloc, both, [1, number])?;
    }
    Ok(())
}

#[test]
fn members_at_other_precisions(rt: HostRuntime) -> Result<(), Fail> {
    for &above in &PRECISIONS {
        for &here in &PRECISIONS {
            points_agree(&rt, rt.alloc(), (above, here))?;
        }
    }
    Ok(())
}

// `many` collections with true sizes round a member. One of them, number `other` from the inmost, has another box, and a
// size that is greater by `more`.
fn nested_agrees(
    rt: &impl Abort,
    alloc: Global,
    many: usize,
    (other, bounds, more): (usize, &Option<Bounds>, u64),
    member: &[u8],
) -> Result<(), AllocError> {
    let mut whole = Vec::new(alloc);
    whole.extend_from_slice(member)?;
    for k in 0..many {
        let (bounds, more) = if k == other {
            (bounds, more)
        } else {
            (&TO_TEN, 0)
        };
        whole = collection(alloc, 0x07, bounds, Some(more), &[&whole])?;
    }
    both_agree(rt, alloc, &whole);
    Ok(())
}

// Points in the middle, at the greatest X and beyond it, and a collection whose box is false.
const INMOST: [&[u8]; 4] = [
    MIDDLE,
    &[0x01, 0x00, 0x14, 0x0A],
    &[0x01, 0x00, 0x16, 0x0A],
    &[
        0x07, 0x01, 0x00, 0x14, 0x00, 0x14, 0x01, 0x01, 0x00, 0x16, 0x0A,
    ],
];

// Each of `INMOST` in `many` collections, of which number `other` has each box.
fn inmost_agree(
    rt: &impl Abort,
    alloc: Global,
    many: usize,
    other: usize,
) -> Result<(), AllocError> {
    for &member in &INMOST {
        for bounds in &BOXES {
            nested_agrees(rt, alloc, many, (other, bounds, 0), member)?;
        }
    }
    Ok(())
}

#[test]
fn boxes_at_each_depth(rt: HostRuntime) -> Result<(), Fail> {
    for many in [1, 2, 31, 62, 63, 64usize] {
        for other in [0, 1, 30, 61, 62, 63usize] {
            inmost_agree(&rt, rt.alloc(), many, other)?;
        }
    }
    for other in 0..63usize {
        for more in [1, u64::MAX] {
            nested_agrees(&rt, rt.alloc(), 63, (other, &TO_TEN, more), MIDDLE)?;
        }
    }
    Ok(())
}

// Minima and extents about the ends of 64 bits.
const FAR: [(i64, i64); 9] = [
    (0, 0),
    (0, i64::MAX),
    (i64::MIN, i64::MAX),
    (i64::MIN, 0),
    (i64::MAX, 0),
    (i64::MAX, i64::MAX),
    (1 << 62, 1 << 62),
    (0, -1),
    (i64::MIN, i64::MIN),
];

// How many axes there are: X, Y, and those that an extended dimensions byte announces.
fn axes_of(extended: u8) -> usize {
    2 + usize::from(extended % 2) + usize::from(extended / 2 % 2)
}

// Puts a header with an extended dimensions byte, unless it is 0, and with a box, if there is a range. The box has this range in the
// axis of this number, and holds only zero in the others.
fn put_header(
    out: &mut Vec<u8>,
    kind: u8,
    (extended, axis): (u8, usize),
    range: Option<(i64, i64)>,
) -> Result<(), AllocError> {
    let has_box = u8::from(range.is_some());
    if extended == 0 {
        out.extend_from_slice(&[kind, has_box])?;
    } else {
        out.extend_from_slice(&[kind, has_box | 8, extended])?;
    }
    let Some(range) = range else {
        return Ok(());
    };
    for k in 0..axes_of(extended) {
        put_bounds(out, &[if k == axis { range } else { (0, 0) }])?;
    }
    Ok(())
}

// Both audits agree with the plain reader on a point in a box or without one, which is in a collection in a box. The number is the
// point's coordinate in the axis of the ranges.
fn far_agrees(
    rt: &impl Abort,
    alloc: Global,
    (extended, axis): (u8, usize),
    (outer, inner): ((i64, i64), Option<(i64, i64)>),
    number: i64,
) -> Result<(), AllocError> {
    let mut bytes = Vec::new(alloc);
    put_header(&mut bytes, 0x07, (extended, axis), Some(outer))?;
    bytes.push(1)?;
    put_header(&mut bytes, 0x01, (extended, axis), inner)?;
    for k in 0..axes_of(extended) {
        put(&mut bytes, if k == axis { number } else { 0 })?;
    }
    both_agree(rt, alloc, &bytes);
    Ok(())
}

// They agree on each of five coordinates, in this box of the collection, and in each box of the point or without one.
fn far_boxes_agree(
    rt: &impl Abort,
    alloc: Global,
    axes: (u8, usize),
    outer: (i64, i64),
) -> Result<(), AllocError> {
    for number in [0, -1, 1 << 62, i64::MIN, i64::MAX] {
        far_agrees(rt, alloc, axes, (outer, None), number)?;
        for &inner in &FAR {
            far_agrees(rt, alloc, axes, (outer, Some(inner)), number)?;
        }
    }
    Ok(())
}

// Each axis of X and Y alone, with Z, with M, and with both.
#[test]
fn boxes_at_the_ends_of_64_bits(rt: HostRuntime) -> Result<(), Fail> {
    for extended in 0..4u8 {
        for axis in 0..axes_of(extended) {
            for &outer in &FAR {
                far_boxes_agree(&rt, rt.alloc(), (extended, axis), outer)?;
            }
        }
    }
    Ok(())
}
