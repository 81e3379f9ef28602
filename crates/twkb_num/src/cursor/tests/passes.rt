//! Passes over varints without their numbers.
use crate::cursor::Cursor;
use crate::tests::equal;
use std::process::Abort;
use std::test::Fail;

// A varint of one to seven bytes, eight of one to four in many orders, and bytes after them.
#[test]
fn many_varints_are_passed_as_they_are_read(rt: HostRuntime) -> Result<(), Fail> {
    for first in 0..7 {
        for step in 0..16u64 {
            let mut bytes = Vec::new(rt.alloc());
            for _ in 0..first {
                bytes.push(0x81)?;
            }
            bytes.push(0x01)?;
            for i in 0..8u64 {
                for _ in 0..i.wrapping_mul(step) / 4 % 4 {
                    bytes.push(0x81)?;
                }
                bytes.push(0x01)?;
            }
            bytes.extend_from_slice(&[0x01; 8])?;
            for many in 0..=9 {
                passes_many_as_it_reads(&rt, &bytes, many);
            }
        }
    }
    Ok(())
}

fn passes_many_as_it_reads(rt: &impl Abort, bytes: &[u8], many: u64) {
    let mut reads = Cursor::new(bytes);
    for _ in 0..many {
        assert!(rt; reads.uvarint().is_ok());
    }
    passes(rt, bytes, many, many, reads.place());
}

// The first `found` of `many` varints are passed by their ends, up to `place`, and the bytes before the place are counted.
fn passes(rt: &impl Abort, bytes: &[u8], many: u64, found: u64, place: usize) {
    let mut cursor = Cursor::new(bytes);
    equal(rt, cursor.pass_varints(many), found);
    equal(rt, cursor.place(), place);
    equal(rt, cursor.read_count(), place as u64);
}

// Varints of one byte, a longer one after them, and more of one byte. The long one is found if each half of a word has an end,
// or of the first word the first seven bytes and the last four. Else the last one found is the last before the word.
// A row has the number of short varints, of the bytes of the long one that go on, and where it stops.
#[test]
fn many_varints_are_passed_up_to_a_long_one(rt: HostRuntime) {
    let table = [
        // In the first word.
        (0, 6, None),
        (0, 7, Some(0)),
        (0, 9, Some(0)),
        (3, 4, None),
        (3, 8, Some(0)),
        (4, 3, None),
        (4, 4, Some(0)),
        // At the border of the first two words.
        (5, 6, None),
        (5, 7, Some(5)),
        (6, 4, None),
        (6, 5, None),
        (6, 6, Some(6)),
        (7, 4, None),
        (7, 5, Some(7)),
        (7, 6, Some(7)),
        // In the second word, and at its border.
        (8, 3, None),
        (8, 4, Some(8)),
        (11, 4, None),
        (12, 4, Some(8)),
        (14, 5, None),
        (14, 6, Some(14)),
    ];
    for (before, goes_on, stop) in table {
        let mut bytes = [0x01; 40];
        for byte in bytes.iter_mut().skip(before).take(goes_on) {
            *byte = 0x81;
        }
        for many in 0..=before {
            passes(&rt, &bytes, many as u64, many as u64, many);
        }
        for more in 0..5usize {
            let many = (before + 1 + more) as u64;
            match stop {
                None => passes(&rt, &bytes, many, many, before + goes_on + 1 + more),
                Some(place) => passes(&rt, &bytes, many, place as u64, place),
            }
        }
    }
}

#[test]
fn many_varints_are_passed_by_whole_words(rt: HostRuntime) {
    let bytes = [0x01; 17];
    for left in 0..=17usize {
        let whole = left / 8 * 8;
        for many in 0..=17usize {
            let passed = many.min(whole);
            passes(&rt, &bytes[..left], many as u64, passed as u64, passed);
        }
        passes(&rt, &bytes[..left], u64::MAX, whole as u64, whole);
    }
}

// The last varint of a word goes on, and fewer than eight bytes are left after the word.
#[test]
fn a_varint_that_a_word_cuts_is_left(rt: HostRuntime) {
    for cut in 1..=3usize {
        let mut bytes = [0x01; 15];
        for byte in bytes.iter_mut().skip(8 - cut).take(cut) {
            *byte = 0x81;
        }
        let whole = 8 - cut;
        passes(&rt, &bytes, whole as u64, whole as u64, whole);
        passes(&rt, &bytes, whole as u64 + 1, whole as u64, whole);
        passes(&rt, &bytes, u64::MAX, whole as u64, whole);
    }
}
