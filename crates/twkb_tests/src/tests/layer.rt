//! Tests of what no contract says of layers: the answers for worked files, and each refused allocation.
ghost use Rattle.std.specs.Prelude.{◌≡◌};

use super::equal;
use std::alloc::Global;
use std::process::Abort;
use twkb_layer::{Bounds, Certified, Cursor, Hit, Refusal, Window, certify};
use worked::Case;

mod cuts;
mod decimals;
mod depths;
mod directories;
mod further_boxes;
mod layers;
mod lines;
mod lists;
mod long_lists;
mod memory;
mod neighbours;
mod northernmost;
mod plain_scans;
mod random;
mod scans;
mod slots;
mod texts;
mod tight;
mod visits;
pub mod worked;

/// The bytes of a certified layer.
fn certified<'a>(rt: &impl Abort, alloc: Global, bytes: &'a [u8]) -> Certified<'a>
    ensures { result.bytes ≡ bytes.now }
{
    match certify(alloc, Cursor::new(bytes)) {
        Ok(layer) => layer,
        Err(refusal) => panic!(rt; "{refusal}, of {bytes:?}"),
    }
}

/// The answer is a layer with these numbers of blobs and vertices, of which each byte was counted once.
fn is_certified(
    rt: &impl Abort,
    answer: Result<Certified, Refusal>,
    bytes: &[u8],
    blobs: usize,
    vertices: usize,
) {
    match answer {
        Ok(layer) => {
            equal(rt, layer.blobs(), blobs);
            equal(rt, layer.vertices(), vertices);
            equal(rt, layer.len(), bytes.len());
            equal(rt, layer.read_count(), bytes.len() as u64);
        }
        Err(refusal) => panic!(rt; "{refusal}, of {bytes:?}"),
    }
}

/// The refusal of a layer for a malformed field or a false claim.
fn no(blob: usize, offset: usize, kind: u8) -> Option<Refusal> {
    Some(Refusal::No { blob, offset, kind })
}

/// The window of these ranges.
fn window(ranges: &Bounds) -> Window {
    let mut window = Window::new(ranges.x, ranges.y);
    if let Some(z) = ranges.z {
        window = window.with_z(z);
    }
    if let Some(m) = ranges.m {
        window = window.with_m(m);
    }
    window
}

/// The hit in each place of a room before a scan.
const NOWHERE: Hit = Hit { blob: 9, offset: 9 };

// A scan found the hit of the case, or none, put no other into the room, and read as many bytes as wanted.
fn found_as_worked(
    rt: &impl Abort,
    case: &Case,
    (room, found): ([Hit; 2], usize),
    (read, wanted): (u64, u64),
) {
    let Case { bytes, window, .. } = case;
    equal(
        rt,
        (found, window, bytes),
        (usize::from(case.hit.is_some()), window, bytes),
    );
    equal(
        rt,
        (room, window, bytes),
        ([case.hit.unwrap_or(NOWHERE), NOWHERE], window, bytes),
    );
    equal(rt, (read, window, bytes), (wanted, window, bytes));
}
