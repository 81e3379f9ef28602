//! Scans of worked layers.
use super::worked::{Case, LINE_HIT, POINT_HIT, TWO_BLOBS, cases, flat};
use super::{NOWHERE, certified, equal, found_as_worked, window};
use std::alloc::Global;
use std::process::Abort;

#[test]
fn worked_scans(rt: HostRuntime) {
    for case in cases() {
        scans_twice(&rt, rt.alloc(), &case);
    }
}

// Two scans of one layer have the same hits and read the same bytes.
fn scans_twice(rt: &impl Abort, alloc: Global, case: &Case) {
    let mut layer = certified(rt, alloc, case.bytes);
    let window = window(&case.window);
    for _ in 0..2 {
        let before = layer.read_count();
        let mut room = [NOWHERE; 2];
        let found = layer.scan(&window, &mut room);
        let read = before.saturating_add(case.read);
        found_as_worked(rt, case, (room, found), (layer.read_count(), read));
    }
}

#[test]
fn rooms(rt: HostRuntime) {
    let mut layer = certified(&rt, rt.alloc(), &TWO_BLOBS);
    let both = window(&flat((0, 10), (0, 10)));
    equal(&rt, layer.scan(&both, &mut []), 2);
    let mut one = [NOWHERE; 1];
    equal(&rt, layer.scan(&both, &mut one), 2);
    equal(&rt, one, [LINE_HIT]);
    let mut three = [NOWHERE; 3];
    equal(&rt, layer.scan(&both, &mut three), 2);
    equal(&rt, three, [LINE_HIT, POINT_HIT, NOWHERE]);
}
