//! Collections at random, in boxes that are right, wider or narrower by one, mostly at one precision, against the plain
//! reader.
use super::bytes::{put, put_bytes, put_unsigned};
use super::variants::random_blobs_agree;
use random_layers::Dice;
use std::alloc::{AllocError, Global};
use std::test::Fail;

// A geometry, as its bytes, and the least and the greatest number of each axis.
#[derive(Drop)]
struct Piece {
    bytes: Vec<u8>,
    ranges: [(i64, i64); 2],
}

const NOTHING: [(i64, i64); 2] = [(i64::MAX, i64::MIN); 2];

fn merged(a: &[(i64, i64); 2], b: &[(i64, i64); 2]) -> [(i64, i64); 2] {
    let mut ranges = *a;
    for axis in 0..2 {
        let (least, greatest) = a[axis];
        ranges[axis] = (least.min(b[axis].0), greatest.max(b[axis].1));
    }
    ranges
}

// Mostly 0, otherwise -1, 0 or 1.
fn off_by_one(dice: &mut Dice) -> i64 {
    if dice.once_in(12) {
        dice.around(0, 1)
    } else {
        0
    }
}

// Puts a box that mostly holds these ranges.
fn put_box(out: &mut Vec<u8>, dice: &mut Dice, ranges: &[(i64, i64); 2]) -> Result<(), AllocError> {
    for &(least, greatest) in ranges {
        let minimum = least.wrapping_add(off_by_one(dice));
        let maximum = greatest.wrapping_add(off_by_one(dice));
        put(out, minimum)?;
        put(out, maximum.wrapping_sub(minimum))?;
    }
    Ok(())
}

// A header and the body after it. Now and then the header has another precision than the others.
fn with_header(
    alloc: Global,
    dice: &mut Dice,
    (kind, metadata): (u8, u8),
    ranges: [(i64, i64); 2],
    body: &[u8],
) -> Result<Piece, AllocError> {
    let has_box = !dice.once_in(3);
    let has_size = dice.once_in(2);
    let mut sized = Vec::new(alloc);
    if has_box {
        put_box(&mut sized, dice, &ranges)?;
    }
    sized.extend_from_slice(body)?;
    let mut bytes = Vec::new(alloc);
    let precision = if dice.once_in(40) { 0x20 } else { 0x00 };
    bytes.push(precision | kind % 8)?;
    bytes.push(metadata | u8::from(has_box) | 2 * u8::from(has_size))?;
    if has_size {
        let more = if dice.once_in(30) { 1 } else { 0u64 };
        put_unsigned(&mut bytes, more.wrapping_add(sized.len() as u64))?;
    }
    bytes.extend_from_slice(&sized)?;
    Ok(Piece { bytes, ranges })
}

// Puts the bytes before the points of a kind: their count, if it has one, and a count of one for each level above.
fn put_counts(out: &mut Vec<u8>, kind: u8, count: u64) -> Result<(), AllocError> {
    match kind {
        1 => Ok(()),
        3 | 5 | 6 => {
            put_bytes(out, 0x01, usize::from(kind.saturating_sub(2)))?;
            put_unsigned(out, count)
        }
        _ => put_unsigned(out, count),
    }
}

// Puts some points about a middle, and before them their count, if the kind has one.
fn points(
    out: &mut Vec<u8>,
    dice: &mut Dice,
    (kind, count): (u8, u64),
) -> Result<[(i64, i64); 2], AllocError> {
    put_counts(out, kind, count)?;
    let middle = dice.around(0, 3000);
    let mut ranges = NOTHING;
    let mut last = [0i64; 2];
    for _ in 0..count {
        let (x, y) = (dice.around(middle, 90), dice.around(middle, 90));
        put(out, x.wrapping_sub(last[0]))?;
        put(out, y.wrapping_sub(last[1]))?;
        last = [x, y];
        ranges = merged(&ranges, &[(x, x), (y, y)]);
    }
    Ok(ranges)
}

// A geometry without members: now and then an empty one, or points with ids.
fn leaf(alloc: Global, dice: &mut Dice) -> Result<Piece, AllocError> {
    if dice.once_in(50) {
        return with_header(alloc, dice, (1, 0x10), [(0, 0); 2], &[]);
    }
    let mut body = Vec::new(alloc);
    if dice.once_in(50) {
        // Two points, whose ids differ, at (0 0).
        let ids = [0x02, 0x02, 0x04, 0x00, 0x00, 0x00, 0x00];
        return with_header(alloc, dice, (4, 0x04), [(0, 0); 2], &ids);
    }
    let kind = match dice.below(6) {
        0 => 1,
        1 => 3,
        2 => 4,
        3 => 5,
        4 => 6,
        _ => 2,
    };
    let count = if kind == 1 { 1 } else { dice.below(7) };
    let ranges = points(&mut body, dice, (kind, count))?;
    with_header(alloc, dice, (kind, 0), ranges, &body)
}

// A collection of the last few pieces, which are taken from the list.
fn collection(
    alloc: Global,
    dice: &mut Dice,
    pieces: &mut Vec<Piece>,
) -> Result<Piece, AllocError> {
    let count = (dice.below(4) as usize).min(pieces.len());
    let kept = pieces.len() - count;
    let mut body = Vec::new(alloc);
    put_unsigned(&mut body, count as u64)?;
    let mut ranges = NOTHING;
    for member in pieces.iter().skip(kept) {
        body.extend_from_slice(&member.bytes)?;
        ranges = merged(&ranges, &member.ranges);
    }
    pieces.truncate(kept);
    with_header(alloc, dice, (7, 0), ranges, &body)
}

// A blob made of some pieces, now and then with bytes after it, or cut.
fn blob(alloc: Global, dice: &mut Dice) -> Result<Vec<u8>, AllocError> {
    let mut pieces = Vec::new(alloc);
    for _ in 0..dice.below(9) {
        let piece = if dice.once_in(3) {
            collection(alloc, dice, &mut pieces)?
        } else {
            leaf(alloc, dice)?
        };
        pieces.push(piece)?;
    }
    let mut whole = collection(alloc, dice, &mut pieces)?;
    if dice.once_in(2) {
        whole.bytes.extend_from_slice(&[0x00; 8])?;
    } else if dice.once_in(8) {
        let less = dice.below(9) as usize;
        let left = whole.bytes.len().saturating_sub(less);
        whole.bytes.truncate(left);
    }
    Ok(whole.bytes)
}

// Many are certified, and many are refused.
#[test]
fn random_collections_in_boxes(rt: HostRuntime) -> Result<(), Fail> {
    let certified = random_blobs_agree(&rt, rt.alloc(), blob)?;
    assert!(&rt; 1000 < certified && certified < 3500, "{certified}");
    Ok(())
}
