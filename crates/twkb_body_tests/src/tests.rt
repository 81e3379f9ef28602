//! The answers of audits and skims: for blobs whose answers are known from the format's own words, and for others by a plain
//! reader; and memory that runs out.
use self::blobs::CERTIFIED;
use self::faults::{FALSE, MALFORMED};
use random_layers::{FALLING_IDS, SEVENTEEN_IDS};
use refusing::Refusing;
use std::alloc::Global;
use std::fmt::Debug;
use std::process::Abort;
use std::test::Fail;
use twkb_body::*;

mod bare;
mod blobs;
mod bytes;
mod depths;
mod extents;
mod faults;
mod frames;
mod lent;
mod lines;
mod random_bodies;
mod random_frames;
mod random_runs;
mod ranges;
mod rings;
mod runs;
mod short_points;
mod skims;
mod steps;
mod tight;
mod variants;
mod visits;

// Asserts that a call answers as wanted. A test that calls this is proved sooner than one that compares in its own body.
fn equal<T: PartialEq + Debug + Drop>(rt: &impl Abort, got: T, wanted: T) {
    assert_eq!(rt; got, wanted);
}

// An audit, tight or not, gives this answer. It has read each byte of a certified blob once; otherwise the place is unchanged.
fn answers(
    rt: &impl Abort,
    alloc: Global,
    bytes: &[u8],
    is_tight: bool,
    wanted: Result<Audit, AuditFault>,
) {
    let mut cursor = Cursor::new(bytes);
    let answer = if is_tight {
        audit_tight(alloc, &mut cursor)
    } else {
        audit(alloc, &mut cursor)
    };
    equal(rt, (answer, bytes), (wanted, bytes));
    match answer {
        Ok(Audit { stop, .. }) => {
            let passed = (cursor.place(), cursor.read_count());
            equal(rt, (passed, bytes), ((stop, stop as u64), bytes));
        }
        Err(_) => equal(rt, cursor.place(), 0),
    }
}

// The answer of an audit that certifies all of these bytes.
fn whole(bytes: &[u8], vertices: usize) -> Result<Audit, AuditFault> {
    let stop = bytes.len();
    Ok(Audit { vertices, stop })
}

fn malformed(offset: usize, why: Why) -> Result<Audit, AuditFault> {
    Err(AuditFault::Malformed(Malformed { offset, why }))
}

fn false_claim(offset: usize, claim: Claim) -> Result<Audit, AuditFault> {
    Err(AuditFault::FalseClaim { offset, claim })
}

#[test]
fn worked_blobs(rt: HostRuntime) {
    for &(bytes, vertices) in &CERTIFIED {
        answers(&rt, rt.alloc(), bytes, false, whole(bytes, vertices));
    }
    for &(bytes, offset, why) in &MALFORMED {
        answers(&rt, rt.alloc(), bytes, false, malformed(offset, why));
    }
    for &(bytes, offset, claim) in &FALSE {
        answers(&rt, rt.alloc(), bytes, false, false_claim(offset, claim));
    }
}

// A list of seventeen ids: alone, and in a collection with a box, at its precision and at another.
const LONG_LISTS: [(&[u8], u8); 3] = [
    (&[], 0x04),
    (&[0x07, 0x01, 0x00, 0x00, 0x00, 0x00, 0x01], 0x04),
    (&[0x07, 0x01, 0x00, 0x00, 0x00, 0x00, 0x01], 0x24),
];

// One of `LONG_LISTS`: the bytes before the list, and the list with these ids.
fn long_list(alloc: Global, (before, first): (&[u8], u8), ids: &[u8; 54]) -> Result<Vec<u8>, Fail> {
    let mut bytes = Vec::new(alloc);
    bytes.extend_from_slice(before)?;
    bytes.push(first)?;
    bytes.extend_from_slice(&ids[1..])?;
    Ok(bytes)
}

#[test]
fn long_lists(rt: HostRuntime) -> Result<(), Fail> {
    for &list in &LONG_LISTS {
        for mut ids in [SEVENTEEN_IDS, FALLING_IDS] {
            let bytes = long_list(rt.alloc(), list, &ids)?;
            answers(&rt, rt.alloc(), &bytes, false, whole(&bytes, 17));
            ids[19] = ids[3];
            let bytes = long_list(rt.alloc(), list, &ids)?;
            let wanted = false_claim(list.0.len().saturating_add(3), Claim::Ids);
            answers(&rt, rt.alloc(), &bytes, false, wanted);
        }
    }
    Ok(())
}

// Whether an audit of these bytes, whose 17 vertices are certified, is refused the allocation of this number.
fn runs_out(rt: &impl Abort, alloc: Global, bytes: &[u8], is_tight: bool, call: u64) -> bool {
    let memory = Refusing::new(alloc, call);
    let mut cursor = Cursor::new(bytes);
    let answer = if is_tight {
        audit_tight_with(&mut &memory, &mut cursor)
    } else {
        audit_with(&mut &memory, &mut cursor)
    };
    if memory.has_refused() {
        equal(rt, answer, Err(AuditFault::Memory));
        equal(rt, cursor.place(), 0);
        return true;
    }
    equal(rt, answer, whole(bytes, 17));
    false
}

// Each allocation is refused in turn, until an audit meets no refusal.
fn each_is_refused(rt: &impl Abort, alloc: Global, bytes: &[u8], is_tight: bool) {
    let mut refusals = 0u64;
    for call in 0..10u64 {
        if runs_out(rt, alloc, bytes, is_tight, call) {
            refusals = call + 1;
        }
    }
    assert!(rt; 0 < refusals && refusals < 10, "{refusals}");
}

// Only a list of more than sixteen ids asks for memory.
#[test]
fn memory_runs_out(rt: HostRuntime) -> Result<(), Fail> {
    for &list in &LONG_LISTS {
        for ids in [SEVENTEEN_IDS, FALLING_IDS] {
            let bytes = long_list(rt.alloc(), list, &ids)?;
            each_is_refused(&rt, rt.alloc(), &bytes, false);
            each_is_refused(&rt, rt.alloc(), &bytes, true);
        }
    }
    for &(bytes, vertices) in &CERTIFIED {
        let memory = Refusing::new(rt.alloc(), 0);
        let answer = audit_with(&mut &memory, &mut Cursor::new(bytes));
        equal(&rt, (answer, bytes), (whole(bytes, vertices), bytes));
        equal(&rt, (memory.has_refused(), bytes), (false, bytes));
    }
    Ok(())
}
