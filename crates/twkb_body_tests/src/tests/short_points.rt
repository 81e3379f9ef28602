//! Points with a size and nothing else, and points without fields, which have a path of their own, against the plain reader:
//! coordinates of each length, up to one that exceeds 64 bits, sizes that are false, cuts, all type bytes and metadata bytes, and all
//! depths.
use super::bytes::put_bytes;
use super::variants::{both_agree, variants_agree};
use std::alloc::{AllocError, Global};
use std::process::Abort;
use std::test::Fail;
use twkb_head::DEEPEST;

// How many bytes follow the point: numbers are passed by words of eight.
const BEHIND: [usize; 3] = [0, 7, 8];

// Puts a number of `bytes` bytes: with ten it is the greatest of 64 bits, and with eleven it exceeds 64 bits.
fn put(out: &mut Vec<u8>, bytes: usize) -> Result<(), AllocError> {
    put_bytes(out, 0xFF, bytes.saturating_sub(1))?;
    out.push(0x01)?;
    Ok(())
}

// Puts a point with a size, X of `x` bytes and Y of `y` bytes, and `after` bytes after it.
fn sized_point(
    out: &mut Vec<u8>,
    [x, y, after]: [usize; 3],
    size: usize,
) -> Result<(), AllocError> {
    out.extend_from_slice(&[0xA1, 0x02, (size % 128) as u8])?;
    put(out, x)?;
    put(out, y)?;
    put_bytes(out, 0x00, after)
}

// Both audits agree with the plain reader on the bytes, and on each cut of them.
fn cuts_agree(rt: &impl Abort, alloc: Global, bytes: &[u8]) {
    for k in 0..=bytes.len() {
        both_agree(rt, alloc, &bytes[..k]);
    }
}

#[test]
fn coordinates_of_each_length(rt: HostRuntime) -> Result<(), Fail> {
    for x in 1..12usize {
        for y in 1..12usize {
            for &after in &BEHIND {
                let length = x.wrapping_add(y);
                for size in [length, length.wrapping_add(1), length.wrapping_sub(1)] {
                    let mut bytes = Vec::new(rt.alloc());
                    sized_point(&mut bytes, [x, y, after], size)?;
                    cuts_agree(&rt, rt.alloc(), &bytes);
                }
            }
        }
    }
    Ok(())
}

#[test]
fn coordinates_of_each_length_without_a_size(rt: HostRuntime) -> Result<(), Fail> {
    for x in 1..12usize {
        for y in 1..12usize {
            for &after in &BEHIND {
                let mut bytes = Vec::new(rt.alloc());
                bytes.extend_from_slice(&[0xA1, 0x00])?;
                put(&mut bytes, x)?;
                put(&mut bytes, y)?;
                put_bytes(&mut bytes, 0x00, after)?;
                cuts_agree(&rt, rt.alloc(), &bytes);
            }
        }
    }
    Ok(())
}

// All type bytes and metadata bytes are among the variants: each precision, each bit that means nothing, and each kind.
#[test]
fn variants_of_sized_points(rt: HostRuntime) -> Result<(), Fail> {
    for (x, y) in [(1, 1), (2, 3), (4, 4), (5, 5), (8, 8), (9, 1), (1, 10)] {
        for after in [0, 9] {
            let mut bytes = Vec::new(rt.alloc());
            sized_point(&mut bytes, [x, y, after], x.wrapping_add(y))?;
            variants_agree(&rt, rt.alloc(), &bytes)?;
        }
    }
    Ok(())
}

#[test]
fn members_at_each_depth(rt: HostRuntime) -> Result<(), Fail> {
    for depth in [1, 2, 31, DEEPEST - 2, DEEPEST - 1] {
        for size in [4usize, 5, 6] {
            let mut bytes = Vec::new(rt.alloc());
            for _ in 0..depth {
                bytes.extend_from_slice(&[0x07, 0x00, 0x01])?;
            }
            sized_point(&mut bytes, [2, 3, 8], size)?;
            cuts_agree(&rt, rt.alloc(), &bytes);
        }
    }
    Ok(())
}
