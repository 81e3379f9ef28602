//! Collections in one another, as deep as they may be and deeper, with different geometries in the deepest.
use super::skims::{Nothing, skimmed};
use super::variants::{both_agree, set};
use super::*;
use random_layers::{TWO_COLLECTIONS, nested};
use std::alloc::{AllocError, Global};
use std::process::Abort;

// How many collections there are, the bytes in the inmost one, how many vertices it has, and how many bytes of the whole
// are read if every box is skipped.
const CERTIFIED_BELOW: [(usize, &[u8], usize, u64); 7] = [
    (31, &[0x01, 0x10], 0, 95),
    (32, &[0x01, 0x10], 0, 98),
    (62, &[0x01, 0x00, 0x02, 0x04], 1, 190),
    (63, &[0x01, 0x00, 0x02, 0x04], 1, 193),
    (63, &[0x01, 0x10], 0, 191),
    (62, &[0x07, 0x00, 0x00], 0, 189),
    // Of 219 bytes twelve aren't read: ten after the header of a member at depth 63, and two after the header of one at depth 64.
    (61, &TWO_COLLECTIONS, 3, 207),
];

// Skims reach the end: one that skips every box reads `read` bytes, and one that skips none sees `vertices` vertices.
fn are_skimmed(rt: &impl Abort, alloc: Global, bytes: &[u8], vertices: usize, read: u64) {
    let stop = bytes.len();
    let hops = skimmed(alloc, bytes, &mut Nothing {});
    equal(rt, hops, Some((stop, read)));
    let mut summary = Summary::new();
    let skim = skimmed(alloc, bytes, &mut summary);
    equal(rt, skim, Some((stop, stop as u64)));
    equal(rt, summary.vertices(), vertices);
}

#[test]
fn certified_below(rt: HostRuntime) -> Result<(), Fail> {
    for &(collections, inmost, vertices, read) in &CERTIFIED_BELOW {
        let bytes = nested(rt.alloc(), collections, inmost)?;
        answers(&rt, rt.alloc(), &bytes, false, whole(&bytes, vertices));
        are_skimmed(&rt, rt.alloc(), &bytes, vertices, read);
    }
    Ok(())
}

// How many collections there are, the bytes in the inmost one, and where and why the blob is malformed.
const MALFORMED_BELOW: [(usize, &[u8], usize, Why); 6] = [
    (32, &[], 96, Why::Cut),
    (63, &[], 189, Why::Cut),
    (63, &[0x07], 189, Why::Depth),
    (63, &[0x07, 0x10], 189, Why::Depth),
    (64, &[0x01, 0x10], 189, Why::Depth),
    (63, &[0x08], 189, Why::Kind),
];

#[test]
fn malformed_below(rt: HostRuntime) -> Result<(), Fail> {
    for &(collections, inmost, offset, why) in &MALFORMED_BELOW {
        let bytes = nested(rt.alloc(), collections, inmost)?;
        answers(&rt, rt.alloc(), &bytes, false, malformed(offset, why));
    }
    Ok(())
}

// The header of a collection of one member, with a size of two bytes.
fn put_collection(out: &mut Vec<u8>, size: u16) -> Result<(), AllocError> {
    let low = (size % 128) as u8 | 128;
    let high = (size / 128 % 128) as u8;
    out.extend_from_slice(&[0x07, 0x02, low, high, 0x01])
}

// 63 collections, each with its size, and a point at (1 2) in the inmost. The sizes of the first 32 take two bytes.
fn sized(alloc: Global) -> Result<Vec<u8>, AllocError> {
    let mut bytes = Vec::new(alloc);
    for level in 0..32u16 {
        put_collection(&mut bytes, 284 - 5 * level)?;
    }
    for level in 0..31u8 {
        bytes.extend_from_slice(&[0x07, 0x02, 125 - 4 * level, 0x01])?;
    }
    bytes.extend_from_slice(&[0x01, 0x00, 0x02, 0x04])?;
    Ok(bytes)
}

// The offsets of the sizes at depth 1, 32, 33 and 63, and the first byte of each.
const SIZES: [(usize, u8); 4] = [(2, 0x9C), (157, 0x81), (162, 0x7D), (282, 0x05)];

// The size at the offset is false with this byte.
fn is_false_size(rt: &impl Abort, alloc: Global, bytes: &mut [u8], offset: usize, byte: u8) {
    set(rt, bytes, offset, byte);
    answers(rt, alloc, bytes, false, false_claim(offset, Claim::Size));
}

#[test]
fn sizes_off_by_one(rt: HostRuntime) -> Result<(), Fail> {
    let mut bytes = sized(rt.alloc())?;
    equal(&rt, bytes.len(), 288);
    answers(&rt, rt.alloc(), &bytes, false, whole(&bytes, 1));
    for &(offset, byte) in &SIZES {
        equal(&rt, bytes.get(offset), Some(&byte));
        is_false_size(&rt, rt.alloc(), &mut bytes, offset, byte.wrapping_sub(1));
        is_false_size(&rt, rt.alloc(), &mut bytes, offset, byte.wrapping_add(1));
        set(&rt, &mut bytes, offset, byte);
    }
    Ok(())
}

// Both audits agree with the plain reader on the bytes with this byte one less, one more, and the mark of an empty geometry.
fn near_values_agree(rt: &impl Abort, alloc: Global, bytes: &mut [u8], place: usize, byte: u8) {
    for value in [byte.wrapping_sub(1), byte.wrapping_add(1), 0x10] {
        set(rt, bytes, place, value);
        both_agree(rt, alloc, bytes);
    }
}

// The audits agree with the plain reader on the bytes of both blobs, each byte changed a little, and cut there.
#[test]
fn variants_below(rt: HostRuntime) -> Result<(), Fail> {
    for bytes in [
        nested(rt.alloc(), 61, &TWO_COLLECTIONS)?,
        sized(rt.alloc())?,
    ] {
        let mut changed = Vec::new(rt.alloc());
        changed.extend_from_slice(&bytes)?;
        for k in 0..bytes.len() {
            both_agree(&rt, rt.alloc(), &bytes[..k]);
            near_values_agree(&rt, rt.alloc(), &mut changed, k, bytes[k]);
            set(&rt, &mut changed, k, bytes[k]);
        }
    }
    Ok(())
}
