//! Worked files: layers that are certified, all but one in tight checking too, and layers that are refused.
use super::worked::{
    BOXED_LINE, BOXED_POINT, EMPTY, EMPTY_BOXED_POINT, MANY_IDS_ANNOUNCED, TWO_BLOBS,
    Z_IN_THE_BOX_ALONE,
};
use super::{equal, is_certified, no};
use random_layers::SEVENTEEN_IDS;
use std::alloc::Global;
use std::process::Abort;
use twkb_layer::{Cursor, Refusal, certify, certify_tight};

#[test]
fn layers_are_certified(rt: HostRuntime) {
    // The numbers of blobs and of vertices, and whether no box is loose.
    let table: [(&[u8], usize, usize, bool); 10] = [
        (&EMPTY, 0, 0, true),
        (&BOXED_LINE, 1, 2, true),
        (&TWO_BLOBS, 2, 3, true),
        (&TWO_POINTS, 2, 2, true),
        (&BOX_AT_ANOTHER_PRECISION, 1, 1, true),
        (&NOTHING_IN_LESS_THAN_NOTHING, 1, 0, true),
        (&Z_IN_THE_BOX_ALONE, 1, 1, false),
        (&BOXED_POINT, 1, 1, true),
        (&EMPTY_BOXED_POINT, 1, 0, true),
        (&SEVENTEEN_IDS, 1, 17, true),
    ];
    for (bytes, blobs, vertices, is_tight) in table {
        let answer = certify(rt.alloc(), Cursor::new(bytes));
        is_certified(&rt, answer, bytes, blobs, vertices);
        if is_tight {
            let answer = certify_tight(rt.alloc(), Cursor::new(bytes));
            is_certified(&rt, answer, bytes, blobs, vertices);
        }
    }
}

#[test]
fn malformed_layers_are_refused(rt: HostRuntime) {
    are_refused(
        &rt,
        rt.alloc(),
        &[
            (&POINT_CUT_BEHIND_A_LINE, no(1, 10, 1)),
            (&MANY_IDS_ANNOUNCED, no(0, 12, 1)),
            (&LONG_COORDINATE, no(0, 2, 2)),
            (&[0x07, 0x00, 0x01, 0x0F, 0x00], no(0, 3, 3)),
            (&SUM_PAST_64_BITS, no(0, 14, 5)),
        ],
    );
}

#[test]
fn false_claims_are_refused(rt: HostRuntime) {
    are_refused(
        &rt,
        rt.alloc(),
        &[
            (&[0x01, 0x02, 0x03, 0x02, 0x04, 0x08], no(0, 2, 6)),
            (&BOX_OF_A_MEMBER, no(0, 5, 7)),
            (&EQUAL_IDS_BEFORE_A_SIZE, no(0, 3, 8)),
            (&BOX_BEHIND_A_LINE, no(1, 10, 7)),
        ],
    );
}

fn are_refused(rt: &impl Abort, alloc: Global, table: &[(&[u8], Option<Refusal>)]) {
    for &(bytes, wanted) in table {
        let refusal = certify(alloc, Cursor::new(bytes)).err();
        equal(rt, (refusal, bytes), (wanted, bytes));
    }
}

const TWO_POINTS: [u8; 9] = [0x01, 0x02, 0x02, 0x02, 0x04, 0x01, 0x00, 0x02, 0x04];

// A collection from 1 to 2, and in it a point at 1.5.
const BOX_AT_ANOTHER_PRECISION: [u8; 11] = [
    0x07, 0x01, 0x02, 0x02, 0x02, 0x02, 0x01, 0x21, 0x00, 0x1E, 0x1E,
];

const NOTHING_IN_LESS_THAN_NOTHING: [u8; 7] = [0x02, 0x01, 0x02, 0x01, 0x00, 0x00, 0x00];

const POINT_CUT_BEHIND_A_LINE: [u8; 10] = [
    0x02, 0x00, 0x02, 0x02, 0x02, 0x08, 0x08, 0x01, 0x00, 0x02,
];

pub const LONG_COORDINATE: [u8; 12] = [
    0x01, 0x00, 0x80, 0x80, 0x80, 0x80, 0x80, 0x80, 0x80, 0x80, 0x80, 0x02,
];

pub const SUM_PAST_64_BITS: [u8; 16] = [
    0x02, 0x00, 0x02, 0xFE, 0xFF, 0xFF, 0xFF, 0xFF, 0xFF, 0xFF, 0xFF, 0xFF, 0x01, 0x00, 0x02, 0x00,
];

pub const BOX_OF_A_MEMBER: [u8; 11] = [
    0x07, 0x00, 0x01, 0x01, 0x01, 0x14, 0x00, 0x14, 0x00, 0x02, 0x04,
];

pub const EQUAL_IDS_BEFORE_A_SIZE: [u8; 12] = [
    0x07, 0x04, 0x02, 0x02, 0x02, 0x01, 0x02, 0x03, 0x02, 0x04, 0x01, 0x10,
];

const BOX_BEHIND_A_LINE: [u8; 19] = [
    0x02, 0x00, 0x02, 0x02, 0x02, 0x08, 0x08, 0x02, 0x03, 0x09, 0x02, 0x06, 0x02, 0x08, 0x02, 0x02,
    0x02, 0x08, 0x08,
];
