//! The worked files, and scans of them: what each finds, and how many bytes it reads.
use twkb_layer::{Bounds, Hit, Span};

pub const EMPTY: [u8; 0] = [];

/// The published line, from (1 1) to (5 5).
pub const PUBLISHED_LINE: [u8; 7] = [0x02, 0x00, 0x02, 0x02, 0x02, 0x08, 0x08];

/// The published line with a size and a box.
pub const BOXED_LINE: [u8; 12] = [
    0x02, 0x03, 0x09, 0x02, 0x08, 0x02, 0x08, 0x02, 0x02, 0x02, 0x08, 0x08,
];

/// The boxed line, and a point at (10 10) with a box and no size.
pub const TWO_BLOBS: [u8; 20] = [
    0x02, 0x03, 0x09, 0x02, 0x08, 0x02, 0x08, 0x02, 0x02, 0x02, 0x08, 0x08, 0x01, 0x01, 0x14, 0x00,
    0x14, 0x00, 0x14, 0x14,
];

/// The hits of `TWO_BLOBS`, if a window has vertices of both inside.
pub const LINE_HIT: Hit = Hit { blob: 0, offset: 0 };

pub const POINT_HIT: Hit = Hit {
    blob: 1,
    offset: 12,
};

/// A point at (41230 0), at a precision of -1.
pub const COARSE_POINT: [u8; 5] = [0x11, 0x00, 0xB6, 0x40, 0x00];

/// A collection of a point at (10 10) with a size and a box, and of one at (1 2).
pub const HOP_IN_A_COLLECTION: [u8; 16] = [
    0x07, 0x00, 0x02, 0x01, 0x03, 0x06, 0x14, 0x00, 0x14, 0x00, 0x14, 0x14, 0x01, 0x00, 0x02, 0x04,
];

/// Two rings of a polygon, whose differences run on.
pub const TWO_RINGS: [u8; 9] = [0x03, 0x00, 0x02, 0x01, 0x02, 0x02, 0x01, 0x02, 0x02];

/// Two points of a collection, each at (1 1), since differences start again at a header.
pub const TWO_MEMBERS: [u8; 11] = [
    0x07, 0x00, 0x02, 0x01, 0x00, 0x02, 0x02, 0x01, 0x00, 0x02, 0x02,
];

/// Two points with a size and nothing else, at (1 2) and at (3 -4) and at a precision of 1.
pub const SIZED_POINTS: [u8; 10] = [0x21, 0x02, 0x02, 0x14, 0x28, 0x21, 0x02, 0x02, 0x3C, 0x4F];

/// `SIZED_POINTS`, then one at (-700000 400000) and one whose X takes five bytes, at (30000000 1).
pub const LONGER_SIZED_POINTS: [u8; 29] = [
    0x21, 0x02, 0x02, 0x14, 0x28, 0x21, 0x02, 0x02, 0x3C, 0x4F, 0x01, 0x02, 0x06, 0xBF, 0xB9, 0x55,
    0x80, 0xEA, 0x30, 0x01, 0x02, 0x07, 0x80, 0x8E, 0xCE, 0x9C, 0x00, 0x82, 0x00,
];

pub const EMPTY_POINT: [u8; 2] = [0x01, 0x10];

/// An empty point whose box is at (10 10).
pub const EMPTY_BOXED_POINT: [u8; 6] = [0x01, 0x11, 0x14, 0x00, 0x14, 0x00];

/// A line from (1 1) to (2 2), and one of (3 3) alone.
pub const TWO_LINES: [u8; 11] = [
    0x05, 0x00, 0x02, 0x02, 0x02, 0x02, 0x02, 0x02, 0x01, 0x02, 0x02,
];

/// A point at (1 2) with Z = 1.00.
pub const POINT_WITH_Z: [u8; 7] = [0x01, 0x08, 0x09, 0x02, 0x04, 0xC8, 0x01];

/// A point at (1 2) with M = 1.000.
pub const POINT_WITH_M: [u8; 7] = [0x01, 0x08, 0x62, 0x02, 0x04, 0xD0, 0x0F];

/// A point at (1 2 3) with a size and a box.
pub const BOXED_POINT: [u8; 13] = [
    0x01, 0x0B, 0x01, 0x09, 0x02, 0x00, 0x04, 0x00, 0x06, 0x00, 0x02, 0x04, 0x06,
];

/// A collection whose box has Z, of a point at (1 1) that has none.
pub const Z_IN_THE_BOX_ALONE: [u8; 14] = [
    0x07, 0x09, 0x01, 0x00, 0x02, 0x00, 0x02, 0x14, 0x00, 0x01, 0x01, 0x00, 0x02, 0x02,
];

/// As many ids as a count can announce, and none of them there.
pub const MANY_IDS_ANNOUNCED: [u8; 12] = [
    0x04, 0x04, 0xFF, 0xFF, 0xFF, 0xFF, 0xFF, 0xFF, 0xFF, 0xFF, 0xFF, 0x01,
];

/// A scan of a layer: its one hit, if there is one, and the bytes that it reads, without a directory and with one.
#[derive(Clone, Copy)]
pub struct Case {
    pub bytes: &'static [u8],
    pub window: Bounds,
    pub hit: Option<Hit>,
    pub read: u64,
    pub read_by_directory: u64,
}

fn scan_of(bytes: &'static [u8], window: Bounds, hit: Option<Hit>, reads: (u64, u64)) -> Case {
    Case {
        bytes,
        window,
        hit,
        read: reads.0,
        read_by_directory: reads.1,
    }
}

// Windows over X and Y.
fn flat_cases() -> [Case; 23] {
    let far = flat((6, 9), (0, 9));
    let corner = flat((5, 9), (5, 9));
    let at_ten = flat((10, 10), (10, 10));
    let at_two = flat((2, 2), (2, 2));
    let left_above = flat((-700_000, -700_000), (400_000, 400_000));
    let right = flat((30_000_000, 30_000_000), (1, 1));
    let first = hit(0, 0);
    [
        scan_of(&EMPTY, flat((0, 1), (0, 1)), None, (0, 0)),
        scan_of(&PUBLISHED_LINE, corner, first, (7, 7)),
        scan_of(&BOXED_LINE, far, None, (7, 0)),
        scan_of(&BOXED_LINE, flat((2, 3), (2, 3)), None, (12, 12)),
        scan_of(&BOXED_LINE, corner, first, (12, 12)),
        scan_of(&TWO_BLOBS, far, None, (15, 0)),
        scan_of(&TWO_BLOBS, at_ten, hit(1, 12), (15, 8)),
        scan_of(&COARSE_POINT, flat((41230, 41230), (0, 0)), first, (5, 5)),
        scan_of(&HOP_IN_A_COLLECTION, flat((0, 5), (0, 5)), first, (14, 14)),
        scan_of(&TWO_RINGS, at_two, first, (9, 9)),
        scan_of(&TWO_MEMBERS, at_two, None, (11, 11)),
        scan_of(&EMPTY_BOXED_POINT, flat((0, 1), (0, 1)), None, (6, 0)),
        scan_of(&EMPTY_POINT, flat((0, 1), (0, 1)), None, (2, 2)),
        scan_of(&TWO_LINES, flat((3, 3), (3, 3)), first, (11, 11)),
        // A range upside down has nothing inside. A box misses it if it is below the lower bound or above the upper bound.
        scan_of(&PUBLISHED_LINE, flat((5, 1), (1, 5)), None, (7, 7)),
        scan_of(&BOXED_LINE, flat((1, 5), (9, 0)), None, (7, 0)),
        scan_of(&BOXED_LINE, flat((4, 2), (1, 5)), None, (12, 12)),
        // No word of eight bytes ends with the first point. The last point's X takes five bytes.
        scan_of(&SIZED_POINTS, flat((1, 1), (2, 2)), first, (10, 10)),
        scan_of(&SIZED_POINTS, flat((3, 3), (-4, -4)), hit(1, 5), (10, 10)),
        scan_of(&SIZED_POINTS, flat((2, 2), (-9, 9)), None, (10, 10)),
        scan_of(&SIZED_POINTS, flat((0, 9), (-3, 1)), None, (10, 10)),
        scan_of(&LONGER_SIZED_POINTS, left_above, hit(2, 10), (29, 29)),
        scan_of(&LONGER_SIZED_POINTS, right, hit(3, 19), (29, 29)),
    ]
}

// Windows that bound Z or M too.
fn cases_of_more_axes() -> [Case; 13] {
    let at_the_point = flat((1, 1), (2, 2));
    let z = |lo: i128, hi: i128| with_z(at_the_point, (lo, hi));
    let on_the_line = flat((1, 5), (1, 5));
    let around = flat((0, 5), (0, 5));
    let below_one = Span {
        lo: 0,
        hi: 9_900_000,
    };
    let first = hit(0, 0);
    [
        scan_of(&BOXED_POINT, z(4, 5), None, (10, 0)),
        scan_of(&BOXED_POINT, z(3, 3), first, (13, 13)),
        scan_of(&BOXED_POINT, z(9, 0), None, (10, 0)),
        scan_of(&POINT_WITH_Z, z(1, 1), first, (7, 7)),
        scan_of(
            &POINT_WITH_Z,
            Bounds {
                z: Some(below_one),
                ..at_the_point
            },
            None,
            (7, 7),
        ),
        scan_of(&POINT_WITH_Z, z(2, 0), None, (7, 7)),
        scan_of(&SIZED_POINTS, z(0, 0), None, (10, 10)),
        scan_of(&PUBLISHED_LINE, with_z(on_the_line, (0, 0)), None, (7, 7)),
        scan_of(&POINT_WITH_M, with_m(at_the_point, (1, 1)), first, (7, 7)),
        scan_of(&POINT_WITH_M, with_m(at_the_point, (2, 0)), None, (7, 7)),
        scan_of(&POINT_WITH_M, z(0, 9), None, (7, 7)),
        scan_of(&Z_IN_THE_BOX_ALONE, with_z(around, (0, 5)), None, (14, 0)),
        scan_of(&Z_IN_THE_BOX_ALONE, flat((1, 1), (1, 1)), first, (14, 14)),
    ]
}

/// All scans of worked layers.
pub fn cases() -> [Case; 36] {
    let first = flat_cases();
    let mut all = [first[0]; 36];
    all[..23].copy_from_slice(&first);
    all[23..].copy_from_slice(&cases_of_more_axes());
    all
}

pub fn hit(blob: usize, offset: usize) -> Option<Hit> {
    Some(Hit { blob, offset })
}

/// The ranges of a window of whole coordinates.
pub fn flat(x: (i128, i128), y: (i128, i128)) -> Bounds {
    Bounds {
        x: span(x),
        y: span(y),
        z: None,
        m: None,
    }
}

pub fn with_z(flat: Bounds, z: (i128, i128)) -> Bounds {
    Bounds {
        z: Some(span(z)),
        ..flat
    }
}

pub fn with_m(flat: Bounds, m: (i128, i128)) -> Bounds {
    Bounds {
        m: Some(span(m)),
        ..flat
    }
}

const UNITS: i128 = 10_000_000;

pub fn span(ends: (i128, i128)) -> Span {
    Span {
        lo: ends.0.saturating_mul(UNITS),
        hi: ends.1.saturating_mul(UNITS),
    }
}
