//! Points of X and Y in a box, with differences of each length at each place, and with few bytes left, against the plain reader.
use super::bytes::{put_bounds, put_bytes, put_padded, put_unsigned};
use super::variants::{agrees, both_agree};
use std::alloc::{AllocError, Global};
use std::process::Abort;
use std::test::Fail;
use twkb_num::zigzag;

/// Minimum and extent of X, and of Y.
pub type Bounds = [(i64, i64); 2];

/// A difference, and how many bytes it takes at least.
pub type Difference = (i64, u64);

/// Kinds whose points come in lists: lines, polygons, multipoints, and multilines.
pub const KINDS: [u8; 4] = [2, 3, 4, 5];

/// A list of points, by differences in X and Y in turn.
pub fn put_list(out: &mut Vec<u8>, differences: &[Difference]) -> Result<(), AllocError> {
    put_unsigned(out, (differences.len() / 2) as u64)?;
    for &(number, least) in differences {
        put_padded(out, zigzag(number), least)?;
    }
    Ok(())
}

/// A geometry in a box. The points of a multiline are in two lines, of which the first has at most `first` of them, modulo 64.
pub fn in_box(
    alloc: Global,
    kind: u8,
    bounds: &Bounds,
    first: usize,
    differences: &[Difference],
) -> Result<Vec<u8>, AllocError> {
    let mut out = Vec::new(alloc);
    out.extend_from_slice(&[kind, 0x01])?;
    put_bounds(&mut out, bounds)?;
    match kind {
        3 => {
            out.push(1)?;
            put_list(&mut out, differences)?;
        }
        5 => {
            let (before, behind) = differences.split_at((2 * (first % 64)).min(differences.len()));
            out.push(2)?;
            put_list(&mut out, before)?;
            put_list(&mut out, behind)?;
        }
        _ => put_list(&mut out, differences)?,
    }
    Ok(out)
}

/// Each kind, at the end of the bytes and with others after it. `true` says that all are certified.
pub fn kinds_agree(
    rt: &impl Abort,
    alloc: Global,
    bounds: &Bounds,
    differences: &[Difference],
) -> Result<bool, AllocError> {
    let mut certified = true;
    for kind in KINDS {
        let mut bytes = in_box(alloc, kind, bounds, 5, differences)?;
        certified &= agrees(rt, alloc, &bytes, false);
        put_bytes(&mut bytes, 0xFF, 40)?;
        certified &= agrees(rt, alloc, &bytes, false);
    }
    Ok(certified)
}

// A box in which points are read four or two at once, and which holds half its extent on both sides of zero.
const WIDE: Bounds = [(-(1 << 29) - 20, (1 << 30) - 1); 2];

// The least and the greatest of each length up to four bytes, and two of five.
const ENDS: [Difference; 22] = [
    (0, 1),
    (63, 1),
    (-64, 1),
    (64, 1),
    (-65, 1),
    (8191, 1),
    (-8192, 1),
    (8192, 1),
    (-8193, 1),
    (1048575, 1),
    (-1048576, 1),
    (1048576, 1),
    (-1048577, 1),
    (134217727, 1),
    (-134217728, 1),
    (134217728, 1),
    (-134217729, 1),
    // Small differences that take more bytes than they need.
    (1, 2),
    (-1, 3),
    (0, 4),
    (1, 5),
    (-1, 10),
];

/// `count` points, each as far from the one before it.
pub fn alike(
    alloc: Global,
    count: usize,
    [x, y]: [Difference; 2],
) -> Result<Vec<Difference>, AllocError> {
    let mut differences = Vec::new(alloc);
    for _ in 0..count {
        differences.push(x)?;
        differences.push(y)?;
    }
    Ok(differences)
}

#[test]
fn differences_of_each_length_at_each_place(rt: HostRuntime) -> Result<(), Fail> {
    for count in 1..13usize {
        let mut differences = alike(rt.alloc(), count, [(1, 1), (-1, 1)])?;
        for place in 0..differences.len() {
            let kept = differences[place];
            for end in ENDS {
                differences[place] = end;
                let certified = kinds_agree(&rt, rt.alloc(), &WIDE, &differences)?;
                assert!(&rt; certified, "{count} {place} {end:?}");
            }
            differences[place] = kept;
        }
    }
    Ok(())
}

// A geometry with each number of bytes after it, from none to more than are read at once.
fn lengths_agree(
    rt: &impl Abort,
    alloc: Global,
    kind: u8,
    first: usize,
    differences: &[Difference],
) -> Result<(), AllocError> {
    let bytes = in_box(alloc, kind, &WIDE, first, differences)?;
    for fill in [0x00, 0xFF] {
        let mut longer = bytes.clone()?;
        for _ in 0..36 {
            let certified = both_agree(rt, alloc, &longer);
            assert!(rt; certified, "{kind} {first} {differences:?}");
            longer.push(fill)?;
        }
    }
    Ok(())
}

#[test]
fn bytes_left_at_each_place(rt: HostRuntime) -> Result<(), Fail> {
    for length in 1..6u64 {
        for count in 0..13usize {
            let differences = alike(rt.alloc(), count, [(1, length), (-1, 1)])?;
            for kind in KINDS {
                lengths_agree(&rt, rt.alloc(), kind, 1, &differences)?;
            }
            lengths_agree(&rt, rt.alloc(), 5, 4, &differences)?;
        }
    }
    Ok(())
}
