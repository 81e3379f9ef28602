//! Tight checking: worked files that are refused, each refused allocation, and random layers against a plain reader.
use super::long_lists::growths;
use super::worked::Z_IN_THE_BOX_ALONE;
use super::{equal, no};
use plain::{Claim, Fault};
use random_layers::{Dice, SEVENTEEN_IDS};
use std::alloc::Global;
use std::process::Abort;
use twkb_layer::{Cursor, Refusal, certify, certify_tight};

// The answers of the plain call and of the tight one.
#[test]
fn layers_are_refused(rt: HostRuntime) {
    let table: [(&[u8], Option<Refusal>, Option<Refusal>); 8] = [
        (&LINE_BOXED_FROM_ZERO, None, no(0, 2, 9)),
        (&LINE_BOXED_TO_SIX, None, no(0, 2, 9)),
        (&BOX_ROUND_A_MEMBER, None, no(0, 3, 9)),
        (&LOOSE_IN_THE_SECOND, None, no(1, 7, 9)),
        (&LOOSE_BEFORE_A_FALSE_SIZE, no(1, 13, 6), no(0, 2, 9)),
        (&Z_IN_THE_BOX_ALONE, None, no(0, 3, 9)),
        (&BOX_THAT_IS_FALSE, no(0, 3, 7), no(0, 3, 7)),
        (&EQUAL_IDS, no(0, 3, 8), no(0, 3, 8)),
    ];
    for (bytes, plainly, tightly) in table {
        let refusal = certify(rt.alloc(), Cursor::new(bytes)).err();
        equal(&rt, (refusal, bytes), (plainly, bytes));
        let refusal = certify_tight(rt.alloc(), Cursor::new(bytes)).err();
        equal(&rt, (refusal, bytes), (tightly, bytes));
    }
}

// The line from (1 1) to (5 5), whose box goes from 0 to 5 in X, and from 1 to 6.
const LINE_BOXED_FROM_ZERO: [u8; 11] = [
    0x02, 0x01, 0x00, 0x0A, 0x02, 0x08, 0x02, 0x02, 0x02, 0x08, 0x08,
];

const LINE_BOXED_TO_SIX: [u8; 11] = [
    0x02, 0x01, 0x02, 0x0A, 0x02, 0x08, 0x02, 0x02, 0x02, 0x08, 0x08,
];

// A collection with a box from 0 to 1 in Z, and in it a point at 1.
const BOX_ROUND_A_MEMBER: [u8; 16] = [
    0x07, 0x09, 0x01, 0x02, 0x00, 0x02, 0x00, 0x00, 0x02, 0x01, 0x01, 0x08, 0x01, 0x02, 0x02, 0x02,
];

// A point, and a point with a size and with a box that is too large in Y.
const LOOSE_IN_THE_SECOND: [u8; 13] = [
    0x01, 0x00, 0x02, 0x04, 0x01, 0x03, 0x06, 0x02, 0x00, 0x02, 0x02, 0x02, 0x04,
];

// A line with a loose box from 0 to 5 in X, and a point with a false size.
const LOOSE_BEFORE_A_FALSE_SIZE: [u8; 16] = [
    0x02, 0x01, 0x00, 0x0A, 0x02, 0x08, 0x02, 0x02, 0x02, 0x08, 0x08, 0x01, 0x02, 0x03, 0x02, 0x04,
];

// A box from 1 to 4 in X round the line, with a size.
const BOX_THAT_IS_FALSE: [u8; 12] = [
    0x02, 0x03, 0x09, 0x02, 0x06, 0x02, 0x08, 0x02, 0x02, 0x02, 0x08, 0x08,
];

// Seventeen ids, of which the last is equal to the first.
const EQUAL_IDS: [u8; 54] = [
    0x04, 0x04, 0x11, 0x00, 0x02, 0x04, 0x06, 0x08, 0x0A, 0x0C, 0x0E, 0x10, 0x12, 0x14, 0x16, 0x18,
    0x1A, 0x1C, 0x1E, 0x00, 0, 0, 0, 0, 0, 0, 0, 0, 0, 0, 0, 0, 0, 0, 0, 0, 0, 0, 0, 0, 0, 0, 0, 0,
    0, 0, 0, 0, 0, 0, 0, 0, 0, 0,
];

#[test]
fn each_allocation_is_refused(rt: HostRuntime) {
    let layers: [(&[u8], Option<Refusal>); 2] = [(&SEVENTEEN_IDS, None), (&EQUAL_IDS, no(0, 3, 8))];
    for (bytes, wanted) in layers {
        assert!(rt; growths(&rt, rt.alloc(), bytes, true, wanted) > 0);
    }
}

/// The refusal that the plain reader gives for a layer, read blob by blob.
pub fn plain_refusal(alloc: Global, bytes: &[u8], is_tight: bool) -> Option<Refusal> {
    let mut left = bytes;
    let mut start = 0usize;
    for blob in 0..bytes.len() {
        if left.is_empty() {
            break;
        }
        let answer = if is_tight {
            plain::read_blob_tight(alloc, left)
        } else {
            plain::read_blob(alloc, left)
        };
        let whole = match answer {
            Ok(layer) => layer.geometries.first().map_or(0, |tree| tree.whole),
            Err(fault) => return Some(refusal(blob, start, fault)),
        };
        start = start.wrapping_add(whole);
        left = bytes.get(start..).unwrap_or(&[]);
    }
    None
}

fn refusal(blob: usize, start: usize, fault: Fault) -> Refusal {
    let (offset, kind) = match fault {
        Fault::Malformed(malformed) => (malformed.offset, malformed.why as u8),
        Fault::FalseClaim { offset, claim } => (
            offset,
            match claim {
                Claim::Size => 6,
                Claim::Box => 7,
                Claim::Ids => 8,
                Claim::Loose => 9,
            },
        ),
        Fault::Memory => return Refusal::Memory,
    };
    Refusal::No {
        blob,
        offset: start.wrapping_add(offset),
        kind,
    }
}

// How many seeds there are layers of. Each layer is tried as it is, and `CHANGES` times with one byte changed.
const LAYERS: u64 = 1000;

const CHANGES: u64 = 20;

#[test]
fn random_layers(rt: HostRuntime) {
    let mut kinds = [0usize; 10];
    for seed in 0..LAYERS {
        let mut bytes = random_layers::layer(rt.alloc(), seed).expect(&rt, "there is memory");
        agrees(&rt, rt.alloc(), &bytes, &mut kinds);
        let mut dice = Dice::new(seed);
        for _ in 0..CHANGES {
            let place = dice.below(bytes.len() as u64) as usize;
            let old = bytes.get(place).copied().unwrap_or(0);
            let new = (dice.below(256) % 256) as u8;
            if let Some(byte) = bytes.get_mut(place) {
                *byte = new;
            }
            agrees(&rt, rt.alloc(), &bytes, &mut kinds);
            if let Some(byte) = bytes.get_mut(place) {
                *byte = old;
            }
        }
    }
    // Layers without a loose box, and refusals of the kinds that changed bytes lead to often.
    let [accepted, cut, _, kind, _, _, size, boxed, _, loose] = kinds;
    let often = [accepted, cut, kind, size, boxed, loose];
    assert!(rt; often.iter().all(|&times| times > 1000), "{kinds:?}");
}

// Whether both calls answer as the plain reader does.
fn agrees(rt: &impl Abort, alloc: Global, bytes: &[u8], kinds: &mut [usize; 10]) {
    let refusal = certify(alloc, Cursor::new(bytes)).err();
    equal(
        rt,
        (refusal, bytes),
        (plain_refusal(alloc, bytes, false), bytes),
    );
    let refusal = certify_tight(alloc, Cursor::new(bytes)).err();
    equal(
        rt,
        (refusal, bytes),
        (plain_refusal(alloc, bytes, true), bytes),
    );
    let kind = match refusal {
        Some(Refusal::No { kind, .. }) => usize::from(kind),
        _ => 0,
    };
    if let Some(times) = kinds.get_mut(kind) {
        *times = times.saturating_add(1);
    }
}
