//! Reads of bytes and numbers, one by one and together, and jumps.
use super::*;
use crate::tests::equal;

mod passes;

#[test]
fn bytes_come_in_order(rt: HostRuntime) {
    let mut cursor = Cursor::new(&[7, 9]);
    equal(&rt, cursor.len(), 2);
    equal(&rt, cursor.byte(), Some(7));
    equal(&rt, cursor.place(), 1);
    equal(&rt, cursor.byte(), Some(9));
    equal(&rt, cursor.byte(), None);
    equal(&rt, cursor.place(), 2);
    equal(&rt, cursor.read_count(), 2);
}

#[test]
fn a_fault_leaves_the_place_of_its_field(rt: HostRuntime) {
    let mut cursor = Cursor::new(&[0xC8, 0x01, 0x80]);
    equal(&rt, cursor.svarint(), Ok(100));
    equal(&rt, cursor.uvarint(), Err(NumFault::Cut));
    equal(&rt, cursor.place(), 2);
    equal(&rt, cursor.read_count(), 3);
    equal(&rt, cursor.byte(), Some(0x80));
    equal(&rt, cursor.read_count(), 4);
}

#[test]
fn a_jump_leaves_the_count(rt: HostRuntime) {
    let mut cursor = Cursor::new(&[0x01, 0x02, 0x03]);
    cursor.go_to(2);
    equal(&rt, cursor.place(), 2);
    equal(&rt, cursor.read_count(), 0);
    equal(&rt, cursor.uvarint(), Ok(3));
    cursor.go_to(0);
    equal(&rt, cursor.read_count(), 1);
    equal(&rt, cursor.byte(), Some(1));
    equal(&rt, cursor.read_count(), 2);
    cursor.go_to(3);
    equal(&rt, cursor.place(), cursor.len());
    equal(&rt, cursor.uvarint(), Err(NumFault::Cut));
}

#[test]
fn the_greatest_count_stays(rt: HostRuntime) {
    let mut cursor = Cursor {
        bytes: &[0x01, 0x80, 0x01, 0x80],
        place: 0,
        start: 0,
        counted_before: u64::MAX - 1,
        touched: 0,
    };
    equal(&rt, cursor.byte(), Some(1));
    equal(&rt, cursor.read_count(), u64::MAX);
    equal(&rt, cursor.uvarint(), Ok(128));
    equal(&rt, cursor.read_count(), u64::MAX);
    equal(&rt, cursor.svarint(), Err(NumFault::Cut));
    equal(&rt, cursor.read_count(), u64::MAX);
}

#[test]
fn numbers_read_together_are_single_reads(rt: HostRuntime) {
    // Pairs of one byte each, of two, of three and of four, and pairs of two lengths; then seven bytes are left.
    let bytes = [
        0x02, 0x01, 0xC8, 0x01, 0x81, 0x01, 0x80, 0x80, 0x01, 0x81, 0x80, 0x01, 0xFF, 0xFF, 0xFF,
        0x7F, 0xFE, 0xFF, 0xFF, 0x7F, 0x81, 0x01, 0x80, 0x80, 0x01, 0x80, 0x80, 0x80, 0x01, 0x03,
        0x04, 0xD0, 0x0F, 0x06, 0x07, 0x06, 0x07, 0x06, 0x07, 0x86,
    ];
    let table = [
        (1, -1, 2),
        (100, -65, 6),
        (8192, -8193, 12),
        (-134217728, 134217727, 20),
        (-65, 8192, 25),
        (1048576, -2, 30),
        (2, 1000, 33),
    ];
    let mut cursor = Cursor::new(&bytes);
    for (first, second, place) in table {
        equal(&rt, cursor.svarints(), Ok([first, second]));
        equal(&rt, cursor.place(), place);
        equal(&rt, cursor.read_count(), place as u64);
    }
    equal(&rt, cursor.svarints(), Ok([3, -4, 3]));
    // After three more numbers the bytes end within one.
    equal(&rt, cursor.svarints::<4>(), Err(NumFault::Cut));
    equal(&rt, cursor.place(), 39);
    equal(&rt, cursor.read_count(), 40);
}

#[test]
fn two_bytes_are_read_together(rt: HostRuntime) {
    let bytes = [0x12, 0x83, 0x09];
    let mut cursor = Cursor::new(&bytes);
    equal(&rt, cursor.two_bytes(), Some((0x12, 0x83)));
    equal(&rt, cursor.place(), 2);
    equal(&rt, cursor.read_count(), 2);
    equal(&rt, cursor.two_bytes(), None);
    equal(&rt, cursor.place(), 2);
    equal(&rt, cursor.read_count(), 2);
    equal(&rt, cursor.byte(), Some(0x09));
    equal(&rt, cursor.two_bytes(), None);
    equal(&rt, cursor.read_count(), 3);
}
