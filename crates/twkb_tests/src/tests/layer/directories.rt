//! Scans with a directory, and the bytes that they read.
ghost use Rattle.std.specs.Prelude.{◌≡◌};
ghost use Rattle.twkb_layer.specs.Directory.{IsDirectoryOf};

use super::worked::{Case, LINE_HIT, POINT_HIT, TWO_BLOBS, cases, flat};
use super::{NOWHERE, certified, equal, found_as_worked, window};
use std::alloc::Global;
use std::process::Abort;
use twkb_layer::{Certified, Directory};

#[test]
fn worked_scans_by_a_directory(rt: HostRuntime) {
    for case in cases() {
        scans_twice(&rt, rt.alloc(), &case);
    }
}

// Two scans with one directory have the same hits and read the same bytes, with another call between them.
fn scans_twice(rt: &impl Abort, alloc: Global, case: &Case) {
    let mut layer = certified(rt, alloc, case.bytes);
    let directory = Directory::build(alloc, &mut layer).expect(rt, "there is memory");
    scans_to(rt, &directory, &mut layer, case);
    let found = layer.scan(&window(&case.window), &mut []);
    equal(rt, found, usize::from(case.hit.is_some()));
    scans_to(rt, &directory, &mut layer, case);
}

fn scans_to(rt: &impl Abort, directory: &Directory<Global>, layer: &mut Certified, case: &Case)
    requires { IsDirectoryOf directory.now layer.old.bytes }
    ensures { layer.new.bytes ≡ layer.old.bytes }
{
    let window = window(&case.window);
    let before = layer.read_count();
    let mut room = [NOWHERE; 2];
    let found = directory.scan(layer, &window, &mut room);
    let read = before.saturating_add(case.read_by_directory);
    found_as_worked(rt, case, (room, found), (layer.read_count(), read));
}

#[test]
fn rooms(rt: HostRuntime) {
    let mut layer = certified(&rt, rt.alloc(), &TWO_BLOBS);
    let directory = Directory::build(rt.alloc(), &mut layer).expect(&rt, "there is memory");
    let both = window(&flat((0, 10), (0, 10)));
    equal(&rt, directory.scan(&mut layer, &both, &mut []), 2);
    let mut one = [NOWHERE; 1];
    equal(&rt, directory.scan(&mut layer, &both, &mut one), 2);
    equal(&rt, one, [LINE_HIT]);
    let mut three = [NOWHERE; 3];
    equal(&rt, directory.scan(&mut layer, &both, &mut three), 2);
    equal(&rt, three, [LINE_HIT, POINT_HIT, NOWHERE]);
}

// The directory of one layer fits another over equal bytes.
#[test]
fn equal_bytes(rt: HostRuntime) {
    let mut first = certified(&rt, rt.alloc(), &TWO_BLOBS);
    let directory = Directory::build(rt.alloc(), &mut first).expect(&rt, "there is memory");
    let mut second = certified(&rt, rt.alloc(), &TWO_BLOBS);
    let found = directory.scan(&mut second, &window(&flat((10, 10), (10, 10))), &mut []);
    equal(&rt, found, 1);
}

// One directory is used for many windows.
#[test]
fn many_windows(rt: HostRuntime) {
    let mut layer = certified(&rt, rt.alloc(), &TWO_BLOBS);
    let directory = Directory::build(rt.alloc(), &mut layer).expect(&rt, "there is memory");
    let windows = [
        flat((0, 10), (0, 10)),
        flat((1, 1), (1, 1)),
        flat((6, 9), (0, 9)),
    ];
    let mut hits = 0usize;
    for ranges in windows {
        hits = hits.saturating_add(directory.scan(&mut layer, &window(&ranges), &mut []));
    }
    equal(&rt, hits, 3);
}
