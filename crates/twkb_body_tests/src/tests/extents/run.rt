//! Points by their differences, in the least box that holds them and in boxes that are smaller or larger by one at an end, as lines,
//! rings, multipoints and in collections.
use super::super::bytes::{put, put_bounds, put_bytes, put_unsigned};
use super::super::variants::agrees;
use super::super::{answers, malformed};
use std::alloc::{AllocError, Global};
use std::process::Abort;
use twkb_body::Why;

/// An extended dimensions byte, or none, and how many axes there are.
pub type Axes = (&'static [u8], usize);

pub const FLAT: Axes = (&[], 2);

pub const Z: Axes = (&[0x01], 3);

pub const M: Axes = (&[0x02], 3);

pub const BOTH: Axes = (&[0x03], 4);

/// Each axis.
pub const EACH: [(Axes, usize); 12] = [
    (FLAT, 0),
    (FLAT, 1),
    (Z, 0),
    (Z, 1),
    (Z, 2),
    (M, 0),
    (M, 1),
    (M, 2),
    (BOTH, 0),
    (BOTH, 1),
    (BOTH, 2),
    (BOTH, 3),
];

/// A kind, whether it has a box, and whether it is in a collection with a box.
pub type Form = (u8, bool, bool);

pub const FORMS: [Form; 7] = [
    (2, true, false),
    (3, true, false),
    (4, true, false),
    (2, false, true),
    (3, true, true),
    (4, true, true),
    (5, false, true),
];

/// What the points are in, how many are in each ring but the last, the axis that is tried, and how
/// many bytes are after the geometry.
#[derive(Clone, Copy, Debug)]
pub struct Case {
    pub form: Form,
    pub axes: Axes,
    pub axis: usize,
    pub ring: usize,
    pub after: usize,
}

/// Points by their differences, with the last point, and the least and the greatest coordinate of each axis.
#[derive(Drop)]
pub struct Run {
    pub steps: Vec<[i64; 4]>,
    last: [i64; 4],
    ranges: [(i64, i64); 4],
    /// The point and the axis of the first number that leads out of 64 bits.
    pub leaves: Option<(usize, usize)>,
}

impl Run {
    pub fn new(alloc: Global) -> Run {
        Run {
            steps: Vec::new(alloc),
            last: [0; 4],
            ranges: [(i64::MAX, i64::MIN); 4],
            leaves: None,
        }
    }

    pub fn add(&mut self, step: [i64; 4]) -> Result<(), AllocError> {
        for axis in 0..4 {
            let (sum, leaves) = self.last[axis].overflowing_add(step[axis]);
            if leaves && self.leaves.is_none() {
                self.leaves = Some((self.steps.len(), axis));
            }
            let (low, high) = self.ranges[axis];
            self.last[axis] = sum;
            self.ranges[axis] = (low.min(sum), high.max(sum));
        }
        self.steps.push(step)?;
        Ok(())
    }

    /// Adds a point by its number in one axis. In the others it is beside the point before.
    pub fn add_in(&mut self, axis: usize, number: i64) -> Result<(), AllocError> {
        let side = if self.steps.len() % 2 == 0 { 1 } else { -1 };
        let mut step = [side; 4];
        if axis < 4 {
            step[axis] = number;
        }
        self.add(step)
    }

    /// Adds `count` points by two numbers in turn.
    pub fn add_in_turn(
        &mut self,
        axis: usize,
        count: usize,
        numbers: [i64; 2],
    ) -> Result<(), AllocError> {
        for k in 0..count {
            self.add_in(axis, numbers[k % 2])?;
        }
        Ok(())
    }

    /// Adds eight points by the greatest or the least number of four bytes, and one more, to come this far.
    pub fn go(&mut self, axis: usize, far: i64) -> Result<(), AllocError> {
        let number = if far < 0 { -(1 << 27) } else { (1 << 27) - 1 };
        self.add_in_turn(axis, 8, [number, number])?;
        self.add_in(axis, far.wrapping_sub(8i64.wrapping_mul(number)))
    }

    /// The last coordinate of an axis.
    pub fn last_in(&self, axis: usize) -> i64 {
        if axis < 4 { self.last[axis] } else { 0 }
    }

    /// Minimum and extent of each axis.
    pub fn bounds(&self) -> [(i64, i64); 4] {
        self.ranges.map(|(low, high)| (low, high.wrapping_sub(low)))
    }
}

// Puts a header, with a box or without.
fn put_header(
    out: &mut Vec<u8>,
    kind: u8,
    has_box: bool,
    extended: &[u8],
    bounds: &[(i64, i64)],
) -> Result<(), AllocError> {
    out.push(kind)?;
    out.push(u8::from(has_box) | if extended.is_empty() { 0 } else { 8 })?;
    out.extend_from_slice(extended)?;
    if has_box {
        put_bounds(out, bounds)?;
    }
    Ok(())
}

// Puts points, in rings or lines of so many, if there are parts. Returns where the number is that leads out of 64 bits.
fn put_run(
    out: &mut Vec<u8>,
    axes: usize,
    parts: Option<usize>,
    run: &Run,
) -> Result<usize, AllocError> {
    let points = run.steps.len();
    let part = parts.unwrap_or(points).max(1);
    if parts.is_some() {
        put_unsigned(out, points.div_ceil(part) as u64)?;
    }
    let mut place = 0;
    for (k, step) in run.steps.iter().enumerate() {
        if k % part == 0 {
            put_unsigned(out, part.min(points.wrapping_sub(k)) as u64)?;
        }
        for axis in 0..axes.min(4) {
            if run.leaves == Some((k, axis)) {
                place = out.len();
            }
            put(out, step[axis])?;
        }
    }
    Ok(place)
}

/// The points of a case in boxes, and where the number is that leads out of 64 bits. A collection has an empty member before them.
pub fn blob(
    alloc: Global,
    case: &Case,
    bounds: &[(i64, i64); 4],
    run: &Run,
) -> Result<(Vec<u8>, usize), AllocError> {
    let (kind, has_box, is_below) = case.form;
    let (extended, axes) = case.axes;
    let bounds = &bounds[..axes.min(4)];
    let mut out = Vec::new(alloc);
    if is_below {
        put_header(&mut out, 7, true, extended, bounds)?;
        out.extend_from_slice(&[0x02, 0x01, 0x10])?;
    }
    put_header(&mut out, kind, has_box, extended, bounds)?;
    let parts = if kind % 2 == 1 { Some(case.ring) } else { None };
    let place = put_run(&mut out, axes, parts, run)?;
    put_bytes(&mut out, 0xFF, case.after)?;
    Ok((out, place))
}

// What both audits say, plain and tight, as the plain reader does.
fn certified(
    rt: &impl Abort,
    alloc: Global,
    case: &Case,
    bounds: &[(i64, i64); 4],
    run: &Run,
) -> Result<[bool; 2], AllocError> {
    let (bytes, place) = blob(alloc, case, bounds, run)?;
    if run.leaves.is_some() {
        answers(rt, alloc, &bytes, false, malformed(place, Why::Range));
        answers(rt, alloc, &bytes, true, malformed(place, Why::Range));
    }
    Ok([false, true].map(|is_tight| agrees(rt, alloc, &bytes, is_tight)))
}

// How minimum and extent change, and what the audits say then: smaller by one at each end, and larger.
const ENDS: [((i64, i64), [bool; 2]); 4] = [
    ((1, -1), [false, false]),
    ((0, -1), [false, false]),
    ((-1, 1), [true, false]),
    ((0, 1), [true, false]),
];

/// The audits agree on the points in the least box, and in boxes that are smaller or larger by one at an end of the axis. Only boxes
// that 64 bits can say are tried.
pub fn boxes_agree(
    rt: &impl Abort,
    alloc: Global,
    case: &Case,
    run: &Run,
) -> Result<(), AllocError> {
    let exact = run.bounds();
    let got = certified(rt, alloc, case, &exact, run)?;
    if run.leaves.is_some() {
        assert!(rt; got == [false, false], "{case:?} {:?}", run.steps);
        return Ok(());
    }
    if exact.iter().any(|&(_, extent)| extent < 0) {
        return Ok(());
    }
    assert!(rt; got == [true, true], "{case:?} {:?}", run.steps);
    let axis = case.axis % 4;
    for ((low, more), wanted) in ENDS {
        let (minimum, extent) = exact[axis];
        if let (Some(minimum), Some(extent)) = (
            minimum.checked_add(low),
            extent.checked_add(more),
        ) {
            let mut bounds = exact;
            bounds[axis] = (minimum, extent);
            let got = certified(rt, alloc, case, &bounds, run)?;
            assert!(rt; got == wanted, "{case:?} {low} {more} {:?}", run.steps);
        }
    }
    Ok(())
}
