//! Headers with raw boxes: worked ones, read at once and in two steps.
use super::*;

fn range(minimum: i64, extent: i64) -> RawRange {
    RawRange { minimum, extent }
}

// The fields of a line in X and Y at precision 0, without size, box and ids.
const BARE: Fields = Fields {
    kind: Kind::LineString,
    axes: Axes {
        xy: 0,
        z: None,
        m: None,
    },
    size: None,
    bounds: None,
    box_place: 2,
    ids: false,
    empty: false,
    start: 0,
    stop: 2,
};

// A header is read at once, and in two steps; each byte is counted once.
fn is_read(rt: &impl Abort, bytes: &[u8], expected: Fields) {
    let mut cursor = Cursor::new(bytes);
    equal(rt, (read_raw(&mut cursor, 1), bytes), (Ok(expected), bytes));
    let passed = (expected.stop, expected.stop as u64);
    equal(rt, (cursor.place(), cursor.read_count()), passed);
    let mut cursor = Cursor::new(bytes);
    let answer = match begin_head(&mut cursor, 1) {
        Some(begun) => take_rest::<BoxCalled>(&mut cursor, begun).ok(),
        None => None,
    };
    equal(rt, (answer, bytes), (Some(expected), bytes));
    equal(rt, (cursor.place(), cursor.read_count()), passed);
}

// A line with a size and a box in X and Y, and bits that mean nothing: it is read as without these bits.
#[test]
fn bits_that_mean_nothing(rt: HostRuntime) {
    for metadata in [0x03, 0x23, 0xE3] {
        let bytes = [
            0x12, metadata, 0x09, 0x02, 0x08, 0x02, 0x07, 0x02, 0x02, 0x02, 0x08, 0x08,
        ];
        let expected = Fields {
            axes: Axes::flat(-1),
            size: Some(SizeField {
                value: 9,
                offset: 2,
                after: 3,
            }),
            bounds: Some(RawBox::flat(range(1, 4), range(1, -4))),
            box_place: 3,
            stop: 7,
            ..BARE
        };
        is_read(&rt, &bytes, expected);
    }
}

#[test]
fn raw_boxes_in_the_order_of_the_axes(rt: HostRuntime) {
    // Z at precision 2 and M at precision 3, each of them alone, and neither.
    let none = range(0, 0);
    let table = [
        (0x6B, Some(2), Some(3), range(-2, 5), range(3, -6), 11),
        (0x09, Some(2), None, range(-2, 5), none, 9),
        (0x62, None, Some(3), range(-2, 5), none, 9),
        (0x68, None, None, none, none, 7),
    ];
    for (extended, z, m, third, fourth, stop) in table {
        let bytes = [
            0x02, 0x09, extended, 0x02, 0x08, 0x01, 0x07, 0x03, 0x0A, 0x06, 0x0B, 0x00,
        ];
        let expected = Fields {
            axes: Axes { xy: 0, z, m },
            bounds: Some(RawBox {
                x: range(1, 4),
                y: range(-1, -4),
                third,
                fourth,
            }),
            box_place: 3,
            stop,
            ..BARE
        };
        is_read(&rt, &bytes, expected);
    }
}

#[test]
fn where_a_box_would_stand(rt: HostRuntime) {
    let size = SizeField {
        value: 200,
        offset: 2,
        after: 4,
    };
    let table: [(&[u8], Option<SizeField>, bool, bool, usize); 5] = [
        (&[0x04, 0x00], None, false, false, 2),
        (&[0x04, 0xE4], None, true, false, 2),
        (&[0x04, 0x02, 0xC8, 0x01], Some(size), false, false, 4),
        (&[0x04, 0x06, 0xC8, 0x01, 0x07], Some(size), true, false, 4),
        (&[0x04, 0x16, 0xC8, 0x01, 0x07], Some(size), false, true, 4),
    ];
    for (bytes, size, ids, empty, stop) in table {
        let expected = Fields {
            kind: Kind::MultiPoint,
            size,
            box_place: stop,
            ids,
            empty,
            stop,
            ..BARE
        };
        is_read(&rt, bytes, expected);
    }
}

#[test]
fn headers_have_two_bytes(rt: HostRuntime) {
    // Cut before and after the first byte, no kind, a collection at the deepest level, and one above it.
    let table: [(&[u8], u8, bool); 5] = [
        (&[], 1, false),
        (&[0x01], 1, false),
        (&[0x08, 0x00], 1, false),
        (&[0x07, 0x00], DEEPEST, false),
        (&[0x07, 0x00], DEEPEST - 1, true),
    ];
    for (bytes, depth, begun) in table {
        let answer = begin_head(&mut Cursor::new(bytes), depth);
        equal(&rt, (answer.is_some(), bytes), (begun, bytes));
    }
}

// The questions that skims ask about the first two bytes: which fields follow.
#[test]
fn every_first_two_bytes(rt: HostRuntime) {
    for first in 0..=255u8 {
        for metadata in 0..=255u8 {
            let expected = match first & 15 {
                1..=7 => Some([
                    metadata & 31 == 3,
                    metadata & 31 == 11,
                    metadata & 31 == 2 && first & 15 == 1,
                ]),
                _ => None,
            };
            let said = begin_head(&mut Cursor::new(&[first, metadata]), 1).map(|begun| {
                [
                    begun.is_flat_boxed(),
                    begun.is_further_boxed(),
                    begun.is_sized_point(),
                ]
            });
            equal(&rt, (said, first, metadata), (expected, first, metadata));
        }
    }
}

// Two bytes begin a header of a kind and of fields exactly if they say both. The bits from 32 on of the second byte say nothing.
#[test]
fn headers_begun_as_one_kind(rt: HostRuntime) {
    for (kind, code) in [
        (Kind::Point, 1),
        (Kind::LineString, 2),
        (Kind::GeometryCollection, 7),
    ] {
        for fields in 0..32u8 {
            for both in 0..=u16::MAX {
                let bytes = both.to_le_bytes();
                let [first, metadata] = bytes;
                let mut cursor = Cursor::new(&bytes);
                cursor.go_to(2);
                let expected = if first & 15 == code && metadata & 31 == fields {
                    Some(Begun {
                        kind,
                        xy: PRECISIONS[usize::from(first / 16)],
                        metadata: fields,
                        start: 0,
                    })
                } else {
                    None
                };
                let answer = begun_as(&cursor, kind, fields, first, metadata);
                equal(&rt, (answer, bytes, fields), (expected, bytes, fields));
            }
        }
    }
}

// Numbers are near up to 2^61 on both sides of zero.
#[test]
fn near_numbers(rt: HostRuntime) {
    const NEAR: i64 = 1 << 61;
    for (number, is_near) in [
        (NEAR, true),
        (-NEAR, true),
        (NEAR + 1, false),
        (-NEAR - 1, false),
    ] {
        let (near, ranges) = (range(0, 0), [range(number, 0), range(0, number)]);
        for far in ranges {
            equal(&rt, (far.is_near(), far), (is_near, far));
            for (x, third) in [(far, near), (near, far)] {
                let bounds = RawBox {
                    third,
                    ..RawBox::flat(x, near)
                };
                equal(&rt, (bounds.is_near(), bounds), (is_near, bounds));
            }
        }
    }
}
