//! Tests of what no contract says of the calls from other languages: the answers for worked files.
ghost use Rattle.twkb_layer.specs.Layer.{IsCounted};

use self::windows::UNREAD;
use super::equal;
use super::layer::worked::TWO_BLOBS;
use random_layers::FALLING_IDS;
use refusing::Refusing;
use std::alloc::Allocator;
use std::process::Abort;
use twkb_call::{
    Hit, Layer, Point, Row, Scanned, Units, Verdict, answer_name, certify, certify_tight, draw,
    kind_name, list, parse_window, scan, type_name,
};

mod windows;

// A line with a size that is too great by one.
const SIZE_OFF_BY_ONE: [u8; 12] = [
    0x02, 0x03, 0x0A, 0x02, 0x08, 0x02, 0x08, 0x02, 0x02, 0x02, 0x08, 0x08,
];

// A line from (1 1) to (5 5) with a box from (1 1) to (6 6).
const LOOSE: [u8; 12] = [
    0x02, 0x03, 0x09, 0x02, 0x0A, 0x02, 0x0A, 0x02, 0x02, 0x02, 0x08, 0x08,
];

const NO_MEMORY: Verdict = Verdict {
    answer: 2,
    kind: 0,
    blobs: 0,
    vertices: 0,
    blob: 0,
    offset: 0,
};

fn yes(blobs: usize, vertices: usize) -> Verdict {
    Verdict {
        answer: 0,
        kind: 0,
        blobs,
        vertices,
        blob: 0,
        offset: 0,
    }
}

fn no(blob: usize, offset: usize, kind: u32) -> Verdict {
    Verdict {
        answer: 1,
        kind,
        blobs: 0,
        vertices: 0,
        blob,
        offset,
    }
}

#[test]
fn verdicts(rt: HostRuntime) {
    let alloc = rt.alloc();
    // The verdicts of the plain call and of the tight one.
    let table: [(&[u8], Verdict, Verdict); 6] = [
        (&[], yes(0, 0), yes(0, 0)),
        (&TWO_BLOBS, yes(2, 3), yes(2, 3)),
        (&SIZE_OFF_BY_ONE, no(0, 2, 6), no(0, 2, 6)),
        (&TWO_BLOBS[..13], no(1, 13, 1), no(1, 13, 1)),
        (&LOOSE, yes(1, 2), no(0, 3, 9)),
        (&FALLING_IDS, yes(1, 17), yes(1, 17)),
    ];
    for (bytes, plainly, tightly) in table {
        equal(&rt, (certify(&mut &alloc, bytes), bytes), (plainly, bytes));
        let verdict = certify_tight(&mut &alloc, bytes);
        equal(&rt, (verdict, bytes), (tightly, bytes));
    }
}

#[test]
fn each_allocation_is_refused(rt: HostRuntime) {
    let mut refusals = 0u64;
    for call in 0..100u64 {
        let memory = Refusing::new(rt.alloc(), call);
        let verdict = certify(&mut &memory, &FALLING_IDS);
        if !memory.has_refused() {
            equal(&rt, verdict, yes(1, 17));
            break;
        }
        equal(&rt, verdict, NO_MEMORY);
        equal(
            &rt,
            certify_tight(&mut &Refusing::new(rt.alloc(), call), &FALLING_IDS),
            NO_MEMORY,
        );
        refusals = call + 1;
    }
    assert!(rt; 0 < refusals && refusals < 100, "{refusals}");
}

fn certify_lent(bytes: &[u8], mut ids: &mut [i64]) -> Verdict {
    certify(&mut ids, bytes)
}

fn certify_tight_lent(bytes: &[u8], mut ids: &mut [i64]) -> Verdict {
    certify_tight(&mut ids, bytes)
}

#[test]
fn verdicts_in_lent_room(rt: HostRuntime) {
    let mut none: [i64; 0] = [];
    equal(&rt, certify_lent(&[], &mut none), yes(0, 0));
    equal(&rt, certify_lent(&TWO_BLOBS, &mut none), yes(2, 3));
    equal(&rt, certify_lent(&SIZE_OFF_BY_ONE, &mut none), no(0, 2, 6));
    equal(&rt, certify_lent(&LOOSE, &mut none), yes(1, 2));
    equal(&rt, certify_tight_lent(&TWO_BLOBS, &mut none), yes(2, 3));
    equal(&rt, certify_tight_lent(&LOOSE, &mut none), no(0, 3, 9));
    equal(&rt, certify_lent(&FALLING_IDS, &mut none), NO_MEMORY);
    let mut sixteen = [0; 16];
    equal(&rt, certify_lent(&FALLING_IDS, &mut sixteen), NO_MEMORY);
    let verdict = certify_tight_lent(&FALLING_IDS, &mut sixteen);
    equal(&rt, verdict, NO_MEMORY);
    let mut seventeen = [0; 17];
    equal(&rt, certify_lent(&FALLING_IDS, &mut seventeen), yes(1, 17));
    let verdict = certify_tight_lent(&FALLING_IDS, &mut seventeen);
    equal(&rt, verdict, yes(1, 17));
    let mut equal_ids = FALLING_IDS;
    equal_ids[19] = equal_ids[3];
    equal(&rt, certify_lent(&equal_ids, &mut seventeen), no(0, 3, 8));
    let verdict = certify_tight_lent(&equal_ids, &mut seventeen);
    equal(&rt, verdict, no(0, 3, 8));
}

/// The bytes as a layer that was certified before.
fn layer_of<'a, A: Allocator>(rt: &impl Abort, mut alloc: &A, bytes: &'a [u8]) -> Layer<'a>
    ensures { IsCounted result.bytes.now result.blobs result.vertices }
{
    let verdict = certify(&mut alloc, bytes);
    if verdict.answer != 0 {
        panic!(rt; "{verdict:?}, of {bytes:?}");
    }
    Layer::new(bytes, verdict.blobs, verdict.vertices)
}

const NONE: Row = Row {
    blob: 9,
    offset: 9,
    bytes: 9,
    vertices: 9,
    kind: 9,
    precision: 9,
    has_size: false,
    has_box: false,
};

const LINE: Row = Row {
    blob: 0,
    offset: 0,
    bytes: 12,
    vertices: 2,
    kind: 2,
    precision: 0,
    has_size: true,
    has_box: true,
};

const POINT: Row = Row {
    blob: 1,
    offset: 12,
    bytes: 8,
    vertices: 1,
    kind: 1,
    precision: 0,
    has_size: false,
    has_box: true,
};

#[test]
fn rows_that_fit(rt: HostRuntime) {
    let layer = layer_of(&rt, &rt.alloc(), &TWO_BLOBS);
    let mut none: [Row; 0] = [];
    equal(&rt, list(&layer, &mut none), 2);
    let mut one = [NONE];
    equal(&rt, list(&layer, &mut one), 2);
    equal(&rt, one, [LINE]);
    let mut three = [NONE, NONE, NONE];
    equal(&rt, list(&layer, &mut three), 2);
    equal(&rt, three, [LINE, POINT, NONE]);
}

const NO_HIT: Hit = Hit {
    blob: 9,
    offset: 9,
    bytes: 9,
};

// The two blobs of `TWO_BLOBS`.
const LINE_HIT: Hit = Hit {
    blob: 0,
    offset: 0,
    bytes: 12,
};

const POINT_HIT: Hit = Hit {
    blob: 1,
    offset: 12,
    bytes: 8,
};

#[test]
fn hits_that_fit(rt: HostRuntime) {
    let layer = layer_of(&rt, &rt.alloc(), &TWO_BLOBS);
    let table: [(&[u8], usize, u64, [Hit; 1]); 4] = [
        (b"x=5..10,y=5..10", 2, 20, [LINE_HIT]),
        (b"x=6..10,y=5..10", 1, 15, [POINT_HIT]),
        (b"x=6..9,y=0..9", 0, 15, [NO_HIT]),
        (b"x=5..10,y=5..10,z=0..1", 0, 20, [NO_HIT]),
    ];
    for (text, hits, bytes_read, first) in table {
        let mut window = UNREAD;
        equal(&rt, parse_window(text, &mut window), 0);
        let mut none: [Hit; 0] = [];
        let scanned = Scanned { hits, bytes_read };
        equal(&rt, scan(&layer, &window, &mut none), scanned);
        let mut one = [NO_HIT];
        equal(&rt, scan(&layer, &window, &mut one), scanned);
        equal(&rt, one, first);
    }
}

// The names are the words that the program prints, with zeros after them.
#[test]
fn names(rt: HostRuntime) {
    equal(&rt, &type_name(1)[..6], &b"point\0"[..]);
    equal(&rt, &type_name(7)[..19], &b"geometrycollection\0"[..]);
    equal(&rt, type_name(8)[0], 0);
    equal(&rt, kind_name(0)[0], 0);
    equal(&rt, &kind_name(9)[..6], &b"loose\0"[..]);
    equal(&rt, &answer_name(2)[..10], &b"no memory\0"[..]);
}

// A line from (-1 1) to (3 -2).
const CROSSING_LINE: [u8; 7] = [0x02, 0x00, 0x02, 0x01, 0x02, 0x08, 0x05];

const NO_POINT: Point = Point {
    x: Units { low: 9, high: 9 },
    y: Units { low: 9, high: 9 },
};

/// A point at whole coordinates that aren't negative.
fn point(x: u8, y: u8) -> Point {
    Point {
        x: Units {
            low: u64::from(x) * 10_000_000,
            high: 0,
        },
        y: Units {
            low: u64::from(y) * 10_000_000,
            high: 0,
        },
    }
}

#[test]
fn vertices_that_fit(rt: HostRuntime) {
    let layer = layer_of(&rt, &rt.alloc(), &TWO_BLOBS);
    let mut none: [Point; 0] = [];
    equal(&rt, draw(&layer, &mut none), 3);
    let mut two = [NO_POINT, NO_POINT];
    equal(&rt, draw(&layer, &mut two), 3);
    equal(&rt, two, [point(1, 1), point(5, 5)]);
    let mut four = [NO_POINT, NO_POINT, NO_POINT, NO_POINT];
    equal(&rt, draw(&layer, &mut four), 3);
    equal(
        &rt,
        four,
        [point(1, 1), point(5, 5), point(10, 10), NO_POINT],
    );
}

#[test]
fn vertices_in_two_words(rt: HostRuntime) {
    let layer = layer_of(&rt, &rt.alloc(), &CROSSING_LINE);
    let mut room = [NO_POINT, NO_POINT];
    equal(&rt, draw(&layer, &mut room), 2);
    // -10^7 and -2 * 10^7, less 2^64 in the high word.
    let one_west = Units {
        low: 18_446_744_073_699_551_616,
        high: -1,
    };
    let two_south = Units {
        low: 18_446_744_073_689_551_616,
        high: -1,
    };
    equal(
        &rt,
        room,
        [
            Point {
                x: one_west,
                ..point(0, 1)
            },
            Point {
                y: two_south,
                ..point(3, 0)
            },
        ],
    );
}
