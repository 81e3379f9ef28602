//! Polygons in boxes, by the number of their rings, against the plain reader.
use super::bytes::{put_bounds, put_bytes, put_unsigned};
use super::variants::both_agree;
use std::alloc::{AllocError, Global};
use std::test::Fail;

// A number of rings, and then rings: none, one, and two. The number one also in two bytes, and numbers of rings that aren't there.
const BODIES: [&[u8]; 9] = [
    &[0x00],
    &[0x01, 0x02, 0x02, 0x02, 0x02, 0x02],
    &[0x81, 0x00, 0x02, 0x02, 0x02, 0x02, 0x02],
    &[0x01, 0x00],
    &[0x02, 0x01, 0x02, 0x02, 0x01, 0x02, 0x02],
    &[0x02, 0x00, 0x02, 0x02, 0x02, 0x02, 0x02],
    &[0x01],
    &[0x02, 0x01, 0x02, 0x02],
    &[0x00, 0x01, 0x02, 0x02],
];

// Boxes of the points (1 1) and (2 2): one that holds both, and two that lack one of them.
const BOXES: [[(i64, i64); 2]; 3] = [[(1, 1), (1, 1)], [(1, 0), (1, 0)], [(2, 1), (2, 1)]];

// A polygon in a box, with a size or without, and `after` bytes after it.
fn polygon(
    alloc: Global,
    body: &[u8],
    bounds: &[(i64, i64)],
    (has_size, after): (bool, usize),
) -> Result<Vec<u8>, AllocError> {
    let mut sized = Vec::new(alloc);
    put_bounds(&mut sized, bounds)?;
    sized.extend_from_slice(body)?;
    let mut out = Vec::new(alloc);
    if has_size {
        out.extend_from_slice(&[0x03, 0x03])?;
        put_unsigned(&mut out, sized.len() as u64)?;
    } else {
        out.extend_from_slice(&[0x03, 0x01])?;
    }
    out.extend_from_slice(&sized)?;
    put_bytes(&mut out, 0x00, after)?;
    Ok(out)
}

#[test]
fn polygons_of_few_rings(rt: HostRuntime) -> Result<(), Fail> {
    let mut certified = 0u64;
    for body in BODIES {
        for bounds in &BOXES {
            for ends in [(false, 0), (false, 40), (true, 0), (true, 40)] {
                let bytes = polygon(rt.alloc(), body, bounds, ends)?;
                if both_agree(&rt, rt.alloc(), &bytes) {
                    certified = certified.saturating_add(1);
                }
            }
        }
    }
    assert!(rt; 15 < certified);
    Ok(())
}
