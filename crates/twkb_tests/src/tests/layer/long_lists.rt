//! Lists of a thousand ids: in rising order, in other orders, and with two equal ids.
use super::{equal, is_certified};
use random_layers::{FALLING_IDS, SEVENTEEN_IDS};
use refusing::Refusing;
use std::alloc::{AllocError, Allocator, Global};
use std::process::Abort;
use std::test::Fail;
use twkb_layer::{
    AuditRoom, Cursor, Refusal, certify, certify_tight, certify_tight_with, certify_with,
};

const MANY: u64 = 1000;

// A list of a thousand members, each with one vertex: the bytes that begin it, and the bytes of a member.
#[derive(Clone, Copy, Debug)]
struct List {
    head: [u8; 4],
    member: &'static [u8],
}

const LISTS: [List; 3] = [
    // A multipoint whose points are all at (0 0).
    List {
        head: [0x04, 0x04, 0xE8, 0x07],
        member: &[0x00, 0x00],
    },
    // Lines of a point at (0 0).
    List {
        head: [0x05, 0x04, 0xE8, 0x07],
        member: &[0x01, 0x00, 0x00],
    },
    // A collection of points at (1 1).
    List {
        head: [0x07, 0x04, 0xE8, 0x07],
        member: &[0x01, 0x00, 0x02, 0x02],
    },
];

// The place of the list's first id: after a point of four bytes, and the four bytes before the ids.
const FIRST_ID: usize = 8;

// Steps that give the ids from 0 to 999: the id at a place is the step times the place, modulo 1000.
const RISING: u64 = 1;

const MIXED: u64 = 37;

const FALLING: u64 = 999;

// The step of the ids, and a place with the id of another place. If the two are one place, all ids differ.
#[derive(Clone, Copy, Debug)]
struct Ids {
    step: u64,
    place: u64,
    other: u64,
}

fn different(step: u64) -> Ids {
    Ids {
        step,
        place: 0,
        other: 0,
    }
}

// The last id is the first one again.
fn equal_at_the_ends(step: u64) -> Ids {
    Ids {
        step,
        place: 999,
        other: 0,
    }
}

// A point at (1 2), and the list.
fn layer(alloc: Global, list: &List, ids: &Ids) -> Result<Vec<u8>, AllocError> {
    let mut bytes = Vec::new(alloc);
    bytes.extend_from_slice(&[0x01, 0x00, 0x02, 0x04])?;
    bytes.extend_from_slice(&list.head)?;
    for k in 0..MANY {
        let place = if k == ids.place { ids.other } else { k };
        let id = place.wrapping_mul(ids.step) % MANY;
        // Twice the id, in two bytes.
        let low = (id % 64) as u8;
        let high = (id / 64 % 128) as u8;
        bytes.extend_from_slice(&[low.wrapping_mul(2) | 0x80, high])?;
    }
    for _ in 0..MANY {
        bytes.extend_from_slice(list.member)?;
    }
    Ok(bytes)
}

#[test]
fn different_ids_are_certified(rt: HostRuntime) -> Result<(), Fail> {
    for &list in &LISTS {
        for step in [RISING, MIXED, FALLING] {
            let bytes = layer(rt.alloc(), &list, &different(step))?;
            let plainly = certify(rt.alloc(), Cursor::new(&bytes));
            let tightly = certify_tight(rt.alloc(), Cursor::new(&bytes));
            is_certified(&rt, plainly, &bytes, 2, 1001);
            is_certified(&rt, tightly, &bytes, 2, 1001);
        }
    }
    Ok(())
}

// Two places with equal ids: neighbors, the first and the last, and two between.
const EQUAL: [(u64, u64); 6] = [
    (1, 0),
    (999, 0),
    (0, 999),
    (999, 998),
    (500, 499),
    (17, 873),
];

const EQUAL_IDS: Option<Refusal> = Some(Refusal::No {
    blob: 1,
    offset: FIRST_ID,
    kind: 8,
});

#[test]
fn equal_ids_are_refused(rt: HostRuntime) -> Result<(), Fail> {
    for &list in &LISTS {
        for step in [RISING, MIXED, FALLING] {
            for &(place, other) in &EQUAL {
                let ids = Ids { step, place, other };
                let case = (list.head, step, place);
                let bytes = layer(rt.alloc(), &list, &ids)?;
                let refusal = certify(rt.alloc(), Cursor::new(&bytes)).err();
                equal(&rt, (refusal, case), (EQUAL_IDS, case));
                let refusal = certify_tight(rt.alloc(), Cursor::new(&bytes)).err();
                equal(&rt, (refusal, case), (EQUAL_IDS, case));
            }
        }
    }
    Ok(())
}

fn refusal_in<A: Allocator>(mut memory: &A, bytes: &[u8], is_tight: bool) -> Option<Refusal> {
    refusal_by(&mut memory, bytes, is_tight)
}

fn refusal_by<R: AuditRoom>(room: &mut R, bytes: &[u8], is_tight: bool) -> Option<Refusal> {
    let cursor = Cursor::new(bytes);
    if is_tight {
        certify_tight_with(room, cursor).err()
    } else {
        certify_with(room, cursor).err()
    }
}

/// How many times memory grows. Each growth is refused in turn, until a run without a refusal gives the answer.
pub fn growths(
    rt: &impl Abort,
    alloc: Global,
    bytes: &[u8],
    is_tight: bool,
    wanted: Option<Refusal>,
) -> u64 {
    for call in 0..100u64 {
        let memory = Refusing::new(alloc, call);
        let refusal = refusal_in(&memory, bytes, is_tight);
        if !memory.has_refused() {
            equal(rt, refusal, wanted);
            return call;
        }
        equal(rt, (refusal, call), (Some(Refusal::Memory), call));
        // The allocator grants the next call, and a new cursor gives the answer.
        equal(rt, refusal_in(&memory, bytes, is_tight), wanted);
    }
    panic!(rt; "no run without a refusal");
}

fn growths_of(
    rt: &impl Abort,
    alloc: Global,
    list: &List,
    ids: &Ids,
    is_tight: bool,
    wanted: Option<Refusal>,
) -> u64 {
    let bytes = layer(alloc, list, ids).expect(rt, "there is memory");
    growths(rt, alloc, &bytes, is_tight, wanted)
}

#[test]
fn each_growth_is_refused(rt: HostRuntime) {
    let two_equal = equal_at_the_ends(RISING);
    for &list in &LISTS {
        for is_tight in [false, true] {
            for step in [RISING, MIXED, FALLING] {
                let ids = different(step);
                assert!(&rt; growths_of(&rt, rt.alloc(), &list, &ids, is_tight, None) > 1);
            }
            let refused = growths_of(&rt, rt.alloc(), &list, &two_equal, is_tight, EQUAL_IDS);
            assert!(&rt; refused > 1);
        }
    }
}

fn refusal_with(mut ids: &mut [i64], bytes: &[u8], is_tight: bool) -> Option<Refusal> {
    refusal_by(&mut ids, bytes, is_tight)
}

fn refusal_in_enough(bytes: &[u8], is_tight: bool) -> Option<Refusal> {
    let mut room = [0; 1000];
    refusal_with(&mut room, bytes, is_tight)
}

fn refusal_in_less(bytes: &[u8], is_tight: bool) -> Option<Refusal> {
    let mut room = [0; 999];
    refusal_with(&mut room, bytes, is_tight)
}

// Room for a thousand ids is enough for each list, and with one place less memory is wanted.
#[test]
fn lent_room(rt: HostRuntime) -> Result<(), Fail> {
    let two_equal = equal_at_the_ends(MIXED);
    for &list in &LISTS {
        for is_tight in [false, true] {
            for step in [RISING, MIXED, FALLING] {
                let bytes = layer(rt.alloc(), &list, &different(step))?;
                equal(&rt, refusal_in_enough(&bytes, is_tight), None);
                equal(
                    &rt,
                    refusal_in_less(&bytes, is_tight),
                    Some(Refusal::Memory),
                );
            }
            let bytes = layer(rt.alloc(), &list, &two_equal)?;
            equal(&rt, refusal_in_enough(&bytes, is_tight), EQUAL_IDS);
            equal(
                &rt,
                refusal_in_less(&bytes, is_tight),
                Some(Refusal::Memory),
            );
        }
    }
    Ok(())
}

// Memory is wanted from the seventeenth id on, which is the twentieth byte, and no byte before it.
#[test]
fn twenty_bytes_want_memory(rt: HostRuntime) {
    for is_tight in [false, true] {
        for bytes in [SEVENTEEN_IDS, FALLING_IDS] {
            for len in 0..=20 {
                let front = bytes.get(..len).unwrap_or(&[]);
                let memory = Refusing::new(rt.alloc(), 0);
                let wanted = match len {
                    0 => None,
                    20 => Some(Refusal::Memory),
                    _ => Some(Refusal::No {
                        blob: 0,
                        offset: len,
                        kind: 1,
                    }),
                };
                equal(
                    &rt,
                    (refusal_in(&memory, front, is_tight), len),
                    (wanted, len),
                );
                equal(&rt, memory.has_refused(), len == 20);
            }
        }
    }
}
