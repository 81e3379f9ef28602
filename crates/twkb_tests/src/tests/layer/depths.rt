//! Layers of collections in one another, as deep as they may be: certified, listed and scanned, and refused.
ghost use Rattle.std.specs.Prelude.{◌≡◌};
ghost use Rattle.twkb_layer.specs.Directory.{IsDirectoryOf};

use super::lists::has_one_row;
use super::plain_scans::{plain_hits, plain_layer};
use super::worked::flat;
use super::{NOWHERE, certified, equal, window};
use random_layers::{TWO_COLLECTIONS, nested};
use std::alloc::{AllocError, Global};
use std::process::Abort;
use std::test::Fail;
use twkb_layer::{
    Bounds, Certified, Cursor, Directory, Hit, Kind, Refusal, Row, certify, certify_tight,
};

/// The deepest blob: its points are at depth 64, and their collections at depth 63.
pub fn deepest(alloc: Global) -> Result<Vec<u8>, AllocError> {
    nested(alloc, 61, &TWO_COLLECTIONS)
}

// The deepest blob with a box round all of it, and a point at (1 2) after it.
fn boxed_and_a_point(alloc: Global) -> Result<Vec<u8>, AllocError> {
    let mut bytes = Vec::new(alloc);
    bytes.extend_from_slice(&[0x07, 0x01, 0x02, 0x12, 0x04, 0x10, 0x01])?;
    bytes.extend_from_slice(&nested(alloc, 60, &TWO_COLLECTIONS)?)?;
    bytes.extend_from_slice(&[0x01, 0x00, 0x02, 0x04])?;
    Ok(bytes)
}

#[test]
fn nesting(rt: HostRuntime) -> Result<(), Fail> {
    let table: [(usize, &[u8], Option<Refusal>); 9] = [
        (31, &[0x01, 0x10], None),
        (32, &[], no(96, 1)),
        (63, &[0x01, 0x10], None),
        (63, &[0x01, 0x00, 0x02, 0x04], None),
        (62, &[0x07, 0x00, 0x00], None),
        (63, &[], no(189, 1)),
        (63, &[0x07, 0x00, 0x00], no(189, 4)),
        (64, &[0x01, 0x10], no(189, 4)),
        (63, &[0x08], no(189, 3)),
    ];
    for (collections, inmost, refusal) in table {
        let bytes = nested(rt.alloc(), collections, inmost)?;
        equal(&rt, certify(rt.alloc(), Cursor::new(&bytes)).err(), refusal);
        equal(
            &rt,
            certify_tight(rt.alloc(), Cursor::new(&bytes)).err(),
            refusal,
        );
    }
    Ok(())
}

fn no(offset: usize, kind: u8) -> Option<Refusal> {
    Some(Refusal::No {
        blob: 0,
        offset,
        kind,
    })
}

// The place and the value of a byte that is changed in the deepest blob, and the offset and the kind of the refusal.
const CHANGES: [(usize, u8, usize, u8); 9] = [
    // The size of a collection at depth 63, one less and one more.
    (188, 0x0D, 188, 6),
    (188, 0x0F, 188, 6),
    // The sizes of two points at depth 64.
    (196, 0x05, 196, 6),
    (196, 0x07, 196, 6),
    (208, 0x05, 208, 6),
    (208, 0x07, 208, 6),
    // A box from 11 to 11 at depth 63, and at depth 64.
    (189, 0x16, 189, 7),
    (197, 0x16, 197, 7),
    // A collection in place of a point.
    (215, 0x07, 215, 4),
];

#[test]
fn one_byte_false(rt: HostRuntime) -> Result<(), Fail> {
    for &(place, byte, offset, kind) in &CHANGES {
        let mut bytes = deepest(rt.alloc())?;
        if let Some(changed) = bytes.get_mut(place) {
            *changed = byte;
        }
        let refusal = certify(rt.alloc(), Cursor::new(&bytes)).err();
        equal(&rt, (refusal, byte, place), (no(offset, kind), byte, place));
    }
    Ok(())
}

#[test]
fn rows(rt: HostRuntime) -> Result<(), Fail> {
    let bytes = deepest(rt.alloc())?;
    let row = Row {
        blob: 0,
        offset: 0,
        bytes: 219,
        vertices: 3,
        kind: Kind::GeometryCollection,
        precision: 0,
        has_size: false,
        has_box: false,
    };
    has_one_row(&rt, rt.alloc(), &bytes, row);
    Ok(())
}

// A window over the deepest blob with a box and the point after it: how many hits there are, the first of them, and the
// bytes that are read without a directory and with one.
#[derive(Clone, Copy)]
struct Expected {
    ranges: Bounds,
    hits: usize,
    first: Hit,
    read: u64,
    read_by_directory: u64,
}

fn case_of(ranges: Bounds, hits: usize, read: u64, read_by_directory: u64) -> Expected {
    let first = if hits > 0 {
        Hit { blob: 0, offset: 0 }
    } else {
        NOWHERE
    };
    Expected {
        ranges,
        hits,
        first,
        read,
        read_by_directory,
    }
}

fn cases() -> [Expected; 4] {
    [
        // The boxes at depths 63 and 64 miss it: ten bytes after the one and two after the other aren't read.
        case_of(flat((0, 5), (0, 5)), 2, 215, 215),
        // The box of the blob meets it, and the boxes below miss it.
        case_of(flat((3, 4), (3, 4)), 0, 215, 215),
        case_of(flat((10, 10), (10, 10)), 1, 227, 227),
        // The box of the blob misses it. Without a size the blob is hopped over only with a directory.
        case_of(flat((20, 30), (0, 5)), 0, 215, 4),
    ]
}

#[test]
fn scans(rt: HostRuntime) -> Result<(), Fail> {
    let bytes = boxed_and_a_point(rt.alloc())?;
    let plain = plain_layer(&rt, rt.alloc(), &bytes);
    let mut layer = certified(&rt, rt.alloc(), &bytes);
    for case in cases() {
        scans_plainly_to(&rt, &mut layer, &case);
        equal(&rt, plain_hits(&plain, &case.ranges).1, case.hits);
        equal(&rt, plain.work(&case.ranges).read, case.read);
    }
    Ok(())
}

fn scans_plainly_to(rt: &impl Abort, layer: &mut Certified, case: &Expected) {
    let before = layer.read_count();
    let mut room = [NOWHERE; 1];
    let found = layer.scan(&window(&case.ranges), &mut room);
    equal(rt, found, case.hits);
    equal(rt, room, [case.first]);
    equal(rt, layer.read_count(), before.saturating_add(case.read));
}

#[test]
fn scans_by_a_directory(rt: HostRuntime) -> Result<(), Fail> {
    let bytes = boxed_and_a_point(rt.alloc())?;
    let plain = plain_layer(&rt, rt.alloc(), &bytes);
    let mut layer = certified(&rt, rt.alloc(), &bytes);
    let directory = Directory::build(rt.alloc(), &mut layer).expect(&rt, "there is memory");
    for case in cases() {
        scans_to(&rt, &directory, &mut layer, &case);
        let work = plain.work_by_directory(&case.ranges);
        equal(&rt, work.read, case.read_by_directory);
    }
    Ok(())
}

fn scans_to(rt: &impl Abort, directory: &Directory<Global>, layer: &mut Certified, case: &Expected)
    requires { IsDirectoryOf directory.now layer.old.bytes }
    ensures { layer.new.bytes ≡ layer.old.bytes }
{
    let before = layer.read_count();
    let mut room = [NOWHERE; 1];
    let found = directory.scan(layer, &window(&case.ranges), &mut room);
    equal(rt, found, case.hits);
    equal(rt, room, [case.first]);
    let read = before.saturating_add(case.read_by_directory);
    equal(rt, layer.read_count(), read);
}
