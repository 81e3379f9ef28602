//! Lists of worked layers.
use super::worked::{
    BOXED_LINE, BOXED_POINT, COARSE_POINT, EMPTY, EMPTY_BOXED_POINT, HOP_IN_A_COLLECTION,
    TWO_BLOBS, TWO_LINES, TWO_RINGS,
};
use super::{certified, equal};
use random_layers::SEVENTEEN_IDS;
use std::alloc::Global;
use std::process::Abort;
use twkb_layer::{Kind, Row};

const LINE: Row = Row {
    blob: 0,
    offset: 0,
    bytes: 12,
    vertices: 2,
    kind: Kind::LineString,
    precision: 0,
    has_size: true,
    has_box: true,
};

const POINT: Row = Row {
    blob: 1,
    offset: 12,
    bytes: 8,
    vertices: 1,
    kind: Kind::Point,
    precision: 0,
    has_size: false,
    has_box: true,
};

pub const LINE_AND_POINT: [Row; 2] = [LINE, POINT];

#[test]
fn one_row_per_blob(rt: HostRuntime) {
    let mut layer = certified(&rt, rt.alloc(), &TWO_BLOBS);
    let rows = layer.list(rt.alloc()).expect(&rt, "there is memory");
    equal(&rt, rows.as_slice(), LINE_AND_POINT.as_slice());
    let again = layer.list(rt.alloc()).expect(&rt, "there is memory");
    equal(&rt, again.as_slice(), rows.as_slice());
}

#[test]
fn no_row_of_the_empty_layer(rt: HostRuntime) {
    let mut layer = certified(&rt, rt.alloc(), &EMPTY);
    let rows = layer.list(rt.alloc()).expect(&rt, "there is memory");
    assert!(rt; rows.is_empty());
}

#[test]
fn rows_of_one_blob(rt: HostRuntime) {
    let table: [(&[u8], Row); 8] = [
        (&BOXED_LINE, LINE),
        (&COARSE_POINT, plain_row(Kind::Point, -1, 5, 1)),
        (
            &HOP_IN_A_COLLECTION,
            plain_row(Kind::GeometryCollection, 0, 16, 2),
        ),
        (&TWO_RINGS, plain_row(Kind::Polygon, 0, 9, 2)),
        (&TWO_LINES, plain_row(Kind::MultiLineString, 0, 11, 3)),
        (&SEVENTEEN_IDS, plain_row(Kind::MultiPoint, 0, 54, 17)),
        (
            &EMPTY_BOXED_POINT,
            Row {
                has_box: true,
                ..plain_row(Kind::Point, 0, 6, 0)
            },
        ),
        (
            &BOXED_POINT,
            Row {
                has_size: true,
                has_box: true,
                ..plain_row(Kind::Point, 0, 13, 1)
            },
        ),
    ];
    for (bytes, row) in table {
        has_one_row(&rt, rt.alloc(), bytes, row);
    }
}

/// The list of the layer is only this row.
pub fn has_one_row(rt: &impl Abort, alloc: Global, bytes: &[u8], row: Row) {
    let mut layer = certified(rt, alloc, bytes);
    let rows = layer.list(alloc).expect(rt, "there is memory");
    equal(rt, rows.as_slice(), [row].as_slice());
}

// The row of the first blob, if it has neither a size nor a box.
fn plain_row(kind: Kind, precision: i8, bytes: usize, vertices: usize) -> Row {
    Row {
        blob: 0,
        offset: 0,
        bytes,
        vertices,
        kind,
        precision,
        has_size: false,
        has_box: false,
    }
}

// The row in each place of a room before a list.
const NOTHING: Row = Row { blob: 9, ..POINT };

#[test]
fn as_many_rows_as_fit(rt: HostRuntime) {
    let mut layer = certified(&rt, rt.alloc(), &TWO_BLOBS);
    let mut none: [Row; 0] = [];
    equal(&rt, layer.list_into(&mut none), 2);
    let mut one = [NOTHING];
    equal(&rt, layer.list_into(&mut one), 2);
    equal(&rt, one, [LINE]);
    let mut two = [NOTHING, NOTHING];
    equal(&rt, layer.list_into(&mut two), 2);
    equal(&rt, two, LINE_AND_POINT);
    let mut three = [NOTHING, NOTHING, NOTHING];
    equal(&rt, layer.list_into(&mut three), 2);
    equal(&rt, three, [LINE, POINT, NOTHING]);
}

#[test]
fn blobs_behind_those_that_fit_stay_unread(rt: HostRuntime) {
    let mut layer = certified(&rt, rt.alloc(), &TWO_BLOBS);
    let before = layer.read_count();
    let mut one = [NOTHING];
    layer.list_into(&mut one);
    // The line has twelve bytes, each of which is read once.
    equal(&rt, layer.read_count().saturating_sub(before), 12);
}
