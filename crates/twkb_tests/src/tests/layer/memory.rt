//! Allocations that are refused, each in turn.
use super::lists::LINE_AND_POINT;
use super::worked::{EMPTY, MANY_IDS_ANNOUNCED, TWO_BLOBS, flat};
use super::{certified, equal, window};
use random_layers::FALLING_IDS;
use refusing::Refusing;
use std::alloc::{Allocator, Global};
use std::process::Abort;
use twkb_layer::{Certified, Cursor, Directory, Refusal, certify_tight_with, certify_with};

/// Certifies once with all memory from an allocator, and returns whether the answer was that memory ran out.
fn runs_out<A: Allocator>(rt: &impl Abort, mut memory: &A, bytes: &[u8]) -> bool {
    match certify_with(&mut memory, Cursor::new(bytes)) {
        Ok(layer) => {
            equal(rt, layer.blobs(), 1);
            equal(rt, layer.vertices(), 17);
            false
        }
        Err(refusal) => {
            equal(rt, refusal, Refusal::Memory);
            true
        }
    }
}

// Each request for memory is refused in turn, until a run meets no refusal. A run returns whether memory was refused.
// After a refusal the allocator grants everything, so the run succeeds when it is tried again.
fn each_is_refused<F: FnMut(&Refusing<Global>) -> bool>(rt: &impl Abort, alloc: Global, mut run: F)
    requires { F.IsAlwaysCallable run }
{
    let mut refusals = 0u64;
    for call in 0..100u64 {
        let memory = Refusing::new(alloc, call);
        let is_out = run(&memory);
        equal(rt, is_out, memory.has_refused());
        if !is_out {
            break;
        }
        assert!(rt; !run(&memory));
        refusals = call + 1;
    }
    assert!(rt; 0 < refusals && refusals < 100, "{refusals}");
}

// A list of more than sixteen ids.
#[test]
fn each_allocation_is_refused(rt: HostRuntime) {
    each_is_refused(&rt, rt.alloc(), |memory| {
        runs_out(&rt, memory, &FALLING_IDS)
    });
}

// A multipoint that announces 1001 ids and has sixteen, the most that need no memory.
const SIXTEEN_OF_MANY: [u8; 20] = [
    0x04, 0x04, 0xE9, 0x07, 0x00, 0x02, 0x04, 0x06, 0x08, 0x0A, 0x0C, 0x0E, 0x10, 0x12, 0x14, 0x16,
    0x18, 0x1A, 0x1C, 0x1E,
];

// As many points as a count can announce, without ids: with no point there, and with two.
const MANY_POINTS: [u8; 12] = [
    0x04, 0x00, 0xFF, 0xFF, 0xFF, 0xFF, 0xFF, 0xFF, 0xFF, 0xFF, 0xFF, 0x01,
];

const TWO_OF_MANY_POINTS: [u8; 16] = [
    0x04, 0x00, 0xFF, 0xFF, 0xFF, 0xFF, 0xFF, 0xFF, 0xFF, 0xFF, 0xFF, 0x01, 0x02, 0x02, 0x02, 0x02,
];

// As many points as a count can announce, in a line and in the second ring of a polygon, and as many members of a collection,
// of which one is there.
const MANY_POINTS_OF_A_LINE: [u8; 12] = [
    0x02, 0x00, 0xFF, 0xFF, 0xFF, 0xFF, 0xFF, 0xFF, 0xFF, 0xFF, 0xFF, 0x01,
];

const MANY_POINTS_OF_A_RING: [u8; 14] = [
    0x03, 0x00, 0x02, 0x00, 0xFF, 0xFF, 0xFF, 0xFF, 0xFF, 0xFF, 0xFF, 0xFF, 0xFF, 0x01,
];

const MANY_MEMBERS: [u8; 14] = [
    0x07, 0x00, 0xFF, 0xFF, 0xFF, 0xFF, 0xFF, 0xFF, 0xFF, 0xFF, 0xFF, 0x01, 0x01, 0x10,
];

#[test]
fn counts_take_no_memory(rt: HostRuntime) {
    let layers: [&[u8]; 7] = [
        &MANY_IDS_ANNOUNCED,
        &SIXTEEN_OF_MANY,
        &MANY_POINTS,
        &TWO_OF_MANY_POINTS,
        &MANY_POINTS_OF_A_LINE,
        &MANY_POINTS_OF_A_RING,
        &MANY_MEMBERS,
    ];
    for bytes in layers {
        let memory = Refusing::new(rt.alloc(), 0);
        let cut_at_the_end = Refusal::No {
            blob: 0,
            offset: bytes.len(),
            kind: 1,
        };
        let refusal = certify_with(&mut &memory, Cursor::new(bytes)).err();
        equal(&rt, refusal, Some(cut_at_the_end));
        let refusal = certify_tight_with(&mut &memory, Cursor::new(bytes)).err();
        equal(&rt, refusal, Some(cut_at_the_end));
        assert!(rt; !memory.has_refused());
    }
}

// A scan of the two blobs finds them.
fn finds_both(rt: &impl Abort, layer: &mut Certified) {
    let found = layer.scan(&window(&flat((0, 10), (0, 10))), &mut []);
    equal(rt, found, 2);
}

// Lists two blobs with all memory from an allocator, and returns whether memory was refused. A refusal comes before any
// byte is read.
fn list_runs_out<A: Allocator>(rt: &impl Abort, memory: &A, layer: &mut Certified) -> bool {
    let before = layer.read_count();
    let Ok(rows) = layer.list_in(memory) else {
        equal(rt, layer.read_count(), before);
        return true;
    };
    equal(rt, rows.as_slice(), LINE_AND_POINT.as_slice());
    // Each of the twenty bytes is read once.
    equal(rt, layer.read_count().saturating_sub(before), 20);
    finds_both(rt, layer);
    false
}

#[test]
fn refused_lists_may_be_repeated(rt: HostRuntime) {
    let mut layer = certified(&rt, rt.alloc(), &TWO_BLOBS);
    each_is_refused(&rt, rt.alloc(), |memory| {
        list_runs_out(&rt, memory, &mut layer)
    });
}

// Builds a directory of two blobs with all memory from an allocator, and returns whether memory was refused.
fn directory_runs_out<A: Allocator>(rt: &impl Abort, memory: &A, layer: &mut Certified) -> bool {
    let before = layer.read_count();
    let Ok(directory) = Directory::build_in(memory, layer) else {
        equal(rt, layer.read_count(), before);
        return true;
    };
    // The line has a size, so only the seven bytes of its header are read. All eight bytes of the point are read.
    equal(rt, layer.read_count().saturating_sub(before), 15);
    let found = directory.scan(layer, &window(&flat((0, 10), (0, 10))), &mut []);
    equal(rt, found, 2);
    finds_both(rt, layer);
    false
}

#[test]
fn refused_directories_may_be_built_again(rt: HostRuntime) {
    let mut layer = certified(&rt, rt.alloc(), &TWO_BLOBS);
    each_is_refused(&rt, rt.alloc(), |memory| {
        directory_runs_out(&rt, memory, &mut layer)
    });
}

// An allocator that would refuse its first call isn't asked.
#[test]
fn the_empty_layer_needs_no_memory(rt: HostRuntime) {
    let memory = Refusing::new(rt.alloc(), 0);
    let mut layer = certify_with(&mut &memory, Cursor::new(&EMPTY)).expect(
        &rt,
        "no memory is asked for",
    );
    let rows = layer.list_in(&memory).expect(&rt, "no memory is asked for");
    assert!(rt; rows.is_empty());
    let directory = Directory::build_in(&memory, &mut layer).expect(&rt, "no memory is asked for");
    equal(
        &rt,
        directory.scan(&mut layer, &window(&flat((0, 9), (0, 9))), &mut []),
        0,
    );
    assert!(rt; !memory.has_refused());
}
