//! Headers whose fields are known from the format's own words: worked headers, every type byte, every metadata byte,
//! and the places of refusals.
use super::equal;
use std::process::Abort;
use twkb_head::*;

mod raw_heads;

const KINDS: [Kind; 7] = [
    Kind::Point,
    Kind::LineString,
    Kind::Polygon,
    Kind::MultiPoint,
    Kind::MultiLineString,
    Kind::MultiPolygon,
    Kind::GeometryCollection,
];

// The precisions that the raw numbers 0 to 15 mean.
const PRECISIONS: [i8; 16] = [0, -1, 1, -2, 2, -3, 3, -4, 4, -5, 5, -6, 6, -7, 7, -8];

// A header of two bytes with nothing announced.
fn plain(kind: Kind) -> Head {
    Head {
        kind,
        xy: 0,
        z: None,
        m: None,
        size: None,
        bounds: None,
        ids: false,
        empty: false,
        start: 0,
        stop: 2,
    }
}

fn span(lo: i128, hi: i128) -> Span {
    Span { lo, hi }
}

// A box of X and Y alone.
fn flat(x: Span, y: Span) -> Bounds {
    Bounds {
        x,
        y,
        z: None,
        m: None,
    }
}

#[test]
fn member_with_size_and_box(rt: HostRuntime) {
    let mut cursor = Cursor::new(&[
        0x07, 0x00, 0x02, 0x01, 0x03, 0x06, 0x14, 0x00, 0x14, 0x00, 0x14, 0x14, 0x01, 0x00, 0x02,
        0x04,
    ]);
    cursor.go_to(3);
    let ten = span(100_000_000, 100_000_000);
    let expected = Head {
        size: Some(SizeField {
            value: 6,
            offset: 5,
            after: 6,
        }),
        bounds: Some(BoxField {
            bounds: flat(ten, ten),
            offset: 6,
        }),
        start: 3,
        stop: 10,
        ..plain(Kind::Point)
    };
    equal(&rt, read_head(&mut cursor, 2), Ok(expected));
    equal(&rt, cursor.place(), 10);
    equal(&rt, cursor.read_count(), 7);
}

// A box from 2^63-1 to twice that number: the maximum exceeds 64 bits.
const GREATEST: [u8; 24] = [
    0x01, 0x01, 0xFE, 0xFF, 0xFF, 0xFF, 0xFF, 0xFF, 0xFF, 0xFF, 0xFF, 0x01, 0xFE, 0xFF, 0xFF, 0xFF,
    0xFF, 0xFF, 0xFF, 0xFF, 0xFF, 0x01, 0x00, 0x00,
];

#[test]
fn boxes_in_units(rt: HostRuntime) {
    let one_to_five = span(10_000_000, 50_000_000);
    let zero = span(0, 0);
    let greatest = span(
        92_233_720_368_547_758_070_000_000,
        184_467_440_737_095_516_140_000_000,
    );
    let tens = span(412_300_000_000, 412_300_000_000);
    let table: [(&[u8], Span, Span); 4] = [
        (
            &[0x02, 0x01, 0x02, 0x08, 0x02, 0x08],
            one_to_five,
            one_to_five,
        ),
        // A negative width.
        (
            &[0x02, 0x01, 0x02, 0x01, 0x00, 0x00],
            span(10_000_000, 0),
            zero,
        ),
        (&GREATEST, greatest, zero),
        (
            &[0x11, 0x01, 0xB6, 0x40, 0x00, 0x00, 0x02],
            tens,
            span(0, 100_000_000),
        ),
    ];
    for (bytes, x, y) in table {
        let bounds = match read_head(&mut Cursor::new(bytes), 1) {
            Ok(head) => head.bounds,
            Err(_) => None,
        };
        let bounds = bounds.map(|field| field.bounds);
        equal(&rt, (bounds, bytes), (Some(flat(x, y)), bytes));
    }
}

#[test]
fn every_type_byte(rt: HostRuntime) {
    for byte in 0..=255u8 {
        for depth in [1, 63, 64] {
            let low = usize::from(byte & 15);
            let why = match low {
                1..=6 => None,
                7 if depth == 64 => Some(Why::Depth),
                7 => None,
                _ => Some(Why::Kind),
            };
            let expected = match why {
                Some(why) => Err(Malformed { offset: 0, why }),
                None => Ok(Head {
                    xy: PRECISIONS[usize::from(byte >> 4)],
                    ..plain(KINDS[(low + 6) % 7])
                }),
            };
            let answer = read_head(&mut Cursor::new(&[byte, 0x00]), depth);
            equal(&rt, (answer, byte, depth), (expected, byte, depth));
        }
    }
}

// After the metadata byte come bytes 0x07: as extended dimensions Z at precision 1 and M at precision 0, as a size 7,
// and in a box -4 with the width -4.
fn expected_of(kind: Kind, metadata: u8) -> Head {
    let extended = metadata & 8 != 0;
    let sized = metadata & 2 != 0;
    let boxed = metadata & 1 != 0;
    let size_place = if extended { 3 } else { 2 };
    let box_place = if sized { size_place + 1 } else { size_place };
    let whole = span(-40_000_000, -80_000_000);
    let tenth = span(-4_000_000, -8_000_000);
    let bounds = Bounds {
        x: whole,
        y: whole,
        z: extended.then_some(tenth),
        m: extended.then_some(whole),
    };
    let numbers = match (boxed, extended) {
        (false, _) => 0,
        (true, false) => 4,
        (true, true) => 8,
    };
    Head {
        z: extended.then_some(1),
        m: extended.then_some(0),
        size: sized.then_some(SizeField {
            value: 7,
            offset: size_place,
            after: size_place + 1,
        }),
        bounds: boxed.then_some(BoxField {
            bounds,
            offset: box_place,
        }),
        ids: metadata & 20 == 4 && kind == Kind::MultiPoint,
        empty: metadata & 16 != 0,
        stop: box_place + numbers,
        ..plain(kind)
    }
}

#[test]
fn every_metadata_byte(rt: HostRuntime) {
    for metadata in 0..=255u8 {
        for (kind, byte) in [(Kind::Point, 1), (Kind::MultiPoint, 4)] {
            let bytes = [byte, metadata, 7, 7, 7, 7, 7, 7, 7, 7, 7, 7];
            let answer = read_head(&mut Cursor::new(&bytes), 1);
            let expected = expected_of(kind, metadata);
            equal(&rt, (answer, metadata), (Ok(expected), metadata));
        }
    }
}

#[test]
fn extended_dimensions(rt: HostRuntime) {
    let table = [
        (0x00, None, None),
        (0x03, Some(0), Some(0)),
        (0x09, Some(2), None),
        (0x62, None, Some(3)),
        (0xFC, None, None),
        (0x3F, Some(7), Some(1)),
        (0xE7, Some(1), Some(7)),
    ];
    for (byte, z, m) in table {
        let answer = read_head(&mut Cursor::new(&[0x01, 0x08, byte]), 1);
        let expected = Head {
            z,
            m,
            stop: 3,
            ..plain(Kind::Point)
        };
        equal(&rt, (answer, byte), (Ok(expected), byte));
    }
}

// Nine bytes with the top bit set, and a tenth that is too great.
const LONG: [u8; 12] = [
    0x01, 0x02, 0x80, 0x80, 0x80, 0x80, 0x80, 0x80, 0x80, 0x80, 0x80, 0x02,
];

#[test]
fn refusals_leave_the_place(rt: HostRuntime) {
    let table: [(&[u8], usize, Why, u64); 12] = [
        (&[], 0, Why::Cut, 0),
        (&[0x01], 1, Why::Cut, 1),
        (&[0x01, 0x08], 2, Why::Cut, 2),
        (&[0x01, 0x02], 2, Why::Cut, 2),
        (&[0x01, 0x01], 2, Why::Cut, 2),
        (&[0x01, 0x01, 0x14, 0x00, 0x14], 5, Why::Cut, 5),
        (&[0x01, 0x03, 0x09, 0x14, 0x80], 4, Why::Cut, 5),
        (&[0x01, 0x09, 0x01, 2, 2, 2, 2, 2], 8, Why::Cut, 8),
        (&LONG, 2, Why::Varint, 12),
        (&LONG[..11], 2, Why::Cut, 11),
        (&[0x08], 0, Why::Kind, 1),
        (&[0x00, 0x00], 0, Why::Kind, 1),
    ];
    for (bytes, offset, why, looked_at) in table {
        let mut cursor = Cursor::new(bytes);
        let answer = read_head(&mut cursor, 1);
        equal(
            &rt,
            (answer, bytes),
            (Err(Malformed { offset, why }), bytes),
        );
        equal(&rt, cursor.place(), 0);
        equal(&rt, cursor.read_count(), looked_at);
    }
}

#[test]
fn boxes_hold_vertices(rt: HostRuntime) {
    let range = span(-1, 1);
    let bounds = Bounds {
        z: Some(range),
        ..flat(range, range)
    };
    let table = [
        (1, -1, None, Some(9), true),
        (1, -1, Some(1), None, true),
        (1, -1, Some(2), None, false),
        (1, -1, Some(-2), None, false),
        (2, 0, None, None, false),
        (-2, 0, None, None, false),
        (0, 2, Some(0), None, false),
        (0, -2, Some(0), None, false),
    ];
    for (x, y, z, m, held) in table {
        let vertex = Vertex { x, y, z, m };
        equal(&rt, (bounds.holds(&vertex), vertex), (held, vertex));
    }
    // A range whose lower end is above its upper end holds nothing.
    let vertex = Vertex {
        x: 0,
        y: 0,
        z: None,
        m: None,
    };
    equal(&rt, flat(span(1, 0), range).holds(&vertex), false);
}
