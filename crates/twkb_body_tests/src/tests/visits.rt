//! Visits of points at random, each vertex against the plain reader's: numbers of each length, with a size or a box and with
//! none, at the end of the bytes and before others.
use super::bytes::put_bytes;
use super::random_bodies::geometry;
use super::*;
use random_layers::Dice;
use std::alloc::{AllocError, Global};
use std::process::Abort;

// A skim of the blob shows the vertices of the layer that a plain reader found there.
fn shows_as_plain(rt: &impl Abort, alloc: Global, bytes: &[u8], layer: &plain::Layer) {
    let whole = layer.geometries.first().map_or(0, |blob| blob.whole);
    skims::are_shown(rt, alloc, bytes, whole, &layer.vertices);
}

#[test]
fn random_points_are_shown(rt: HostRuntime) -> Result<(), Fail> {
    let mut visited = 0usize;
    for seed in 0..3000 {
        let bytes = geometry(rt.alloc(), &mut Dice::new(seed))?;
        if let Ok(layer) = plain::read_blob(rt.alloc(), &bytes) {
            shows_as_plain(&rt, rt.alloc(), &bytes, &layer);
            visited = visited.saturating_add(1);
        }
    }
    // Blobs that are cut, whose sums leave 64 bits or whose box misses a vertex aren't visited.
    assert!(rt; visited > 1000, "{visited}");
    Ok(())
}

// A line of points whose differences are all equal, of one byte or two, with a size or none, and `after` other bytes after it.
fn even_line(
    alloc: Global,
    difference: &[u8],
    count: u8,
    has_size: bool,
    after: usize,
) -> Result<Vec<u8>, AllocError> {
    let mut out = Vec::new(alloc);
    let numbers = usize::from(count).saturating_mul(2);
    out.extend_from_slice(&[0x02, if has_size { 0x02 } else { 0x00 }])?;
    if has_size {
        let size = numbers.saturating_mul(difference.len()).saturating_add(1);
        out.push((size % 128) as u8)?;
    }
    out.push(count)?;
    for _ in 0..numbers {
        out.extend_from_slice(difference)?;
    }
    put_bytes(&mut out, 0xFF, after)?;
    Ok(out)
}

#[test]
fn words_up_to_the_end(rt: HostRuntime) -> Result<(), Fail> {
    let mut visited = 0usize;
    let differences: [&[u8]; 3] = [&[0x01], &[0x7E], &[0x81, 0x01]];
    for difference in differences {
        for count in 0..18 {
            for has_size in [false, true] {
                for after in 0..9 {
                    let bytes = even_line(rt.alloc(), difference, count, has_size, after)?;
                    if let Ok(layer) = plain::read_blob(rt.alloc(), &bytes) {
                        shows_as_plain(&rt, rt.alloc(), &bytes, &layer);
                        visited = visited.saturating_add(1);
                    }
                }
            }
        }
    }
    equal(&rt, visited, 972);
    Ok(())
}
