//! Audits with a lent buffer for the ids of a list.
use super::blobs::CERTIFIED;
use super::faults::{FALSE, MALFORMED};
use super::{equal, false_claim, malformed, whole};
use random_layers::{FALLING_IDS, SEVENTEEN_IDS};
use std::process::Abort;
use twkb_body::{Audit, AuditFault, Claim, Cursor, audit_tight_with, audit_with};

fn audit_lent(mut room: &mut [i64], cursor: &mut Cursor) -> Result<Audit, AuditFault> {
    audit_with(&mut room, cursor)
}

fn audit_tight_lent(mut room: &mut [i64], cursor: &mut Cursor) -> Result<Audit, AuditFault> {
    audit_tight_with(&mut room, cursor)
}

// Seventeen ids need seventeen places, whether they rise or not. With fewer places memory is wanted, and the place is unchanged.
#[test]
fn room_for_seventeen_ids(rt: HostRuntime) {
    let mut room = [0; 20];
    for ids in [SEVENTEEN_IDS, FALLING_IDS] {
        for places in 0..20 {
            let (wanted, place) = if places < 17 {
                (Err(AuditFault::Memory), 0)
            } else {
                (whole(&ids, 17), ids.len())
            };
            let mut cursor = Cursor::new(&ids);
            let answer = audit_lent(&mut room[..places], &mut cursor);
            equal(&rt, (answer, cursor.place()), (wanted, place));
            let tight = audit_tight_lent(&mut room[..places], &mut Cursor::new(&ids));
            equal(&rt, tight, wanted);
        }
    }
}

// Both audits with this room give this answer.
fn are_refused(rt: &impl Abort, room: &mut [i64], bytes: &[u8], wanted: Result<Audit, AuditFault>) {
    let answer = audit_lent(room, &mut Cursor::new(bytes));
    let tight = audit_tight_lent(room, &mut Cursor::new(bytes));
    equal(rt, (answer, tight, bytes), (wanted, wanted, bytes));
}

#[test]
fn equal_ids_in_room(rt: HostRuntime) {
    let mut equal_ids = FALLING_IDS;
    equal_ids[19] = equal_ids[3];
    let mut room = [0; 17];
    are_refused(&rt, &mut room, &equal_ids, false_claim(3, Claim::Ids));
    are_refused(&rt, &mut room[..16], &equal_ids, Err(AuditFault::Memory));
}

// Audits without places for ids certify blobs without a list of more than sixteen ids.
#[test]
fn no_room(rt: HostRuntime) {
    for &(bytes, vertices) in &CERTIFIED {
        let answer = audit_lent(&mut [], &mut Cursor::new(bytes));
        equal(&rt, (answer, bytes), (whole(bytes, vertices), bytes));
    }
    for &(bytes, offset, claim) in &FALSE {
        are_refused(&rt, &mut [], bytes, false_claim(offset, claim));
    }
    for &(bytes, offset, why) in &MALFORMED {
        are_refused(&rt, &mut [], bytes, malformed(offset, why));
    }
}
