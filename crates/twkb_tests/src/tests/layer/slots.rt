//! Windows in raw integers, with boxes whose ends a directory keeps in raw integers and boxes whose ends it doesn't.
use super::{certified, equal, window};
use std::alloc::Global;
use std::process::Abort;
use twkb_layer::{Bounds, Directory, Span};
use twkb_num::zigzag;

// A scan with a directory of one blob: how many hits, and how many bytes were read.
fn looked_up(rt: &impl Abort, alloc: Global, bytes: &[u8], ranges: &Bounds) -> (usize, u64) {
    let mut layer = certified(rt, alloc, bytes);
    let directory = Directory::build(alloc, &mut layer).expect(rt, "there is memory");
    let before = layer.read_count();
    let found = directory.scan(&mut layer, &window(ranges), &mut []);
    (found, layer.read_count().saturating_sub(before))
}

pub fn in_units(x: (i128, i128), y: (i128, i128)) -> Bounds {
    Bounds {
        x: Span { lo: x.0, hi: x.1 },
        y: Span { lo: y.0, hi: y.1 },
        z: None,
        m: None,
    }
}

// A point with a size and a box, at this number in X and at 0 in Y. Each of the two spellings of the number takes ten bytes.
fn point_at(first: u8, x: i64) -> [u8; 27] {
    let mut point = [0; 27];
    point[0] = first;
    point[1] = 0x03;
    point[2] = 24;
    let mut rest = zigzag(x);
    for place in 3..13 {
        let more = if place < 12 { 0x80 } else { 0 };
        let byte = (rest % 128) as u8 + more;
        point[place] = byte;
        point[place + 13] = byte;
        rest /= 128;
    }
    point
}

// The first byte of a point, the ends of a window in X, and the least and the greatest number of such points inside. If the
// least is above the greatest, there is none.
const ROUNDED: [(u8, i128, i128, i64, i64); 19] = [
    (0xE1, -3, 5, -3, 5),
    (0xC1, -20, 20, -2, 2),
    (0xC1, -21, 21, -2, 2),
    (0xC1, -19, 19, -1, 1),
    (0xC1, 11, 19, 2, 1),
    (0xC1, -19, -11, -1, -2),
    (0xF1, 1, 1_000_000_000_000_000, 1, 1),
    (0xF1, -1, -1, 0, -1),
    // Ends at which a division has 64 bits, and ends just beyond them.
    (0xE1, LEAST, GREATEST, i64::MIN, i64::MAX),
    (0xC1, LEAST, GREATEST, -TENTH, TENTH),
    (0xC1, LEAST - 1, GREATEST + 1, -TENTH, TENTH),
    (0xC1, LEAST - 2, GREATEST + 3, -TENTH - 1, TENTH + 1),
    (0xF1, LEAST, GREATEST, -9_223, 9_223),
    (0xF1, GREATEST + 1, i128::MAX, 9_224, i64::MAX),
    (0xF1, i128::MIN, LEAST - 1, i64::MIN, -9_224),
    (0xF1, GREATEST + 1, LEAST - 1, 9_224, -9_224),
    (0xE1, i128::MIN, i128::MAX, i64::MIN, i64::MAX),
    (0xF1, i128::MAX, i128::MIN, i64::MAX, i64::MIN),
    (0xF1, i128::MIN, i128::MAX, i64::MIN, i64::MAX),
];

const LEAST: i128 = i64::MIN as i128;

const GREATEST: i128 = i64::MAX as i128;

const TENTH: i64 = 922_337_203_685_477_580;

// Both ends are hit, and the numbers beside them are not.
#[test]
fn windows_are_rounded_inward(rt: HostRuntime) {
    for &(first, lo, hi, least, greatest) in &ROUNDED {
        let ranges = in_units((lo, hi), (0, 0));
        for x in [
            least.saturating_sub(1),
            least,
            greatest,
            greatest.saturating_add(1),
        ] {
            let is_inside = least <= x && x <= greatest;
            let answer = if is_inside { (1, 27) } else { (0, 0) };
            let point = point_at(first, x);
            equal(&rt, looked_up(&rt, rt.alloc(), &point, &ranges), answer);
        }
    }
}

// The first bytes of a point of each precision, from -8 to 7, and how many units a coordinate of 1 is.
const PRECISIONS: [(u8, i64); 16] = [
    (0xF1, 1_000_000_000_000_000),
    (0xD1, 100_000_000_000_000),
    (0xB1, 10_000_000_000_000),
    (0x91, 1_000_000_000_000),
    (0x71, 100_000_000_000),
    (0x51, 10_000_000_000),
    (0x31, 1_000_000_000),
    (0x11, 100_000_000),
    (0x01, 10_000_000),
    (0x21, 1_000_000),
    (0x41, 100_000),
    (0x61, 10_000),
    (0x81, 1_000),
    (0xA1, 100),
    (0xC1, 10),
    (0xE1, 1),
];

// A window that is one unit off in X or in Y misses the box of the point at 3 and -4, whatever its precision.
#[test]
fn boxes_of_each_precision(rt: HostRuntime) {
    for &(first, unit) in &PRECISIONS {
        let point = [first, 0x03, 0x06, 0x06, 0x00, 0x07, 0x00, 0x06, 0x07];
        let (x, y) = (3 * i128::from(unit), -4 * i128::from(unit));
        let cases = [
            (in_units((x, x), (y, y)), (1, 9)),
            (in_units((x + 1, x + 9), (y, y)), (0, 0)),
            (in_units((x - 9, x - 1), (y, y)), (0, 0)),
            (in_units((x, x), (y + 1, y + 9)), (0, 0)),
            (in_units((x, x), (y - 9, y - 1)), (0, 0)),
        ];
        for (ranges, answer) in cases {
            equal(&rt, looked_up(&rt, rt.alloc(), &point, &ranges), answer);
        }
    }
}

// A point at precision 7, with Y at 0 and X near an end of 64 bits: where its box is, and its varint's first byte.
const NEAR_AN_END: [(i64, u8); 4] = [
    (i64::MAX - 1, 0xFC),
    (i64::MAX, 0xFE),
    (i64::MIN, 0xFF),
    (i64::MIN + 1, 0xFD),
];

#[test]
fn boxes_at_the_ends_of_64_bits(rt: HostRuntime) {
    for &(place, low) in &NEAR_AN_END {
        let point = [
            0xE1, 0x03, 0x18, low, 0xFF, 0xFF, 0xFF, 0xFF, 0xFF, 0xFF, 0xFF, 0xFF, 0x01, 0x00,
            0x00, 0x00, low, 0xFF, 0xFF, 0xFF, 0xFF, 0xFF, 0xFF, 0xFF, 0xFF, 0x01, 0x00,
        ];
        let x = i128::from(place);
        let cases = [
            (in_units((x, x), (0, 0)), (1, 27)),
            (in_units((x + 1, x + 9), (0, 0)), (0, 0)),
            (in_units((x - 9, x - 1), (0, 0)), (0, 0)),
            (in_units((x, x), (1, 9)), (0, 0)),
            (in_units((i128::MIN, i128::MAX), (0, 0)), (1, 27)),
        ];
        for (ranges, answer) in cases {
            equal(&rt, looked_up(&rt, rt.alloc(), &point, &ranges), answer);
        }
    }
}
