//! The plain reader itself, on the worked scans: other tests rely on it.
ghost use Rattle.std.specs.Prelude.{◌≡◌};
ghost use Rattle.twkb_layer.specs.Directory.{IsDirectoryOf};

use super::worked::{Case, cases};
use super::{NOWHERE, equal, window};
use plain::{Layer, read_layer};
use std::alloc::Global;
use std::process::Abort;
use twkb_layer::{Bounds, Certified, Directory, Hit};

// More places than any layer of the tests has blobs.
pub type Room = [Hit; 24];

/// A room with the hits that the plain reader finds, and their number.
pub fn plain_hits(plain: &Layer, ranges: &Bounds) -> (Room, usize) {
    let mut room = [NOWHERE; 24];
    let mut found = 0usize;
    let mut blob = 0usize;
    for geometry in &plain.geometries {
        if geometry.depth > 1 {
            continue;
        }
        if plain.has_vertex_inside(geometry, ranges) {
            if let Some(hit) = room.get_mut(found) {
                *hit = Hit {
                    blob,
                    offset: geometry.offset,
                };
            }
            found = found.saturating_add(1);
        }
        blob = blob.saturating_add(1);
    }
    (room, found)
}

/// The layer that the plain reader reads from the bytes of a certified layer.
pub fn plain_layer(rt: &impl Abort, alloc: Global, bytes: &[u8]) -> Layer {
    match read_layer(alloc, bytes) {
        Ok(layer) => layer,
        Err(fault) => panic!(rt; "{fault:?}, of {bytes:?}"),
    }
}

/// A scan without a directory finds the plain reader's blobs and reads as many bytes as it says. Returns how many blobs it finds.
pub fn scan_agrees(rt: &impl Abort, plain: &Layer, layer: &mut Certified, ranges: &Bounds) -> usize
    ensures { layer.new.bytes ≡ layer.old.bytes }
{
    let read = layer.read_count().saturating_add(plain.work(ranges).read);
    let mut room = [NOWHERE; 24];
    let found = layer.scan(&window(ranges), &mut room);
    is_as_plain(rt, plain, ranges, (room, found), (layer.read_count(), read));
    found
}

/// A scan with a directory finds the plain reader's blobs and reads as many bytes as the plain reader says.
pub fn directory_scan_agrees(
    rt: &impl Abort,
    plain: &Layer,
    directory: &Directory<Global>,
    layer: &mut Certified,
    ranges: &Bounds,
)
    requires { IsDirectoryOf directory.now layer.old.bytes }
    ensures { layer.new.bytes ≡ layer.old.bytes }
{
    let read = layer
        .read_count()
        .saturating_add(plain.work_by_directory(ranges).read);
    let mut room = [NOWHERE; 24];
    let found = directory.scan(layer, &window(ranges), &mut room);
    is_as_plain(rt, plain, ranges, (room, found), (layer.read_count(), read));
}

// The hits are the hits that the plain reader finds, and the two counts of bytes are equal.
fn is_as_plain(
    rt: &impl Abort,
    plain: &Layer,
    ranges: &Bounds,
    hits: (Room, usize),
    counts: (u64, u64),
) {
    let case = (ranges, plain.vertices.as_slice());
    equal(rt, (hits, case), (plain_hits(plain, ranges), case));
    equal(rt, (counts.0, case), (counts.1, case));
}

#[test]
fn worked_scans_by_the_plain_reader(rt: HostRuntime) {
    for case in cases() {
        scans_to(&rt, rt.alloc(), &case);
    }
}

fn scans_to(rt: &impl Abort, alloc: Global, case: &Case) {
    let plain = plain_layer(rt, alloc, case.bytes);
    let (room, found) = plain_hits(&plain, &case.window);
    equal(rt, found, usize::from(case.hit.is_some()));
    equal(rt, room[0], case.hit.unwrap_or(NOWHERE));
    equal(rt, plain.work(&case.window).read, case.read);
    equal(
        rt,
        plain.work_by_directory(&case.window).read,
        case.read_by_directory,
    );
}
