//! Bodies that no box asks for, on each side of each condition of the pass that counts the ends of numbers.
use super::bytes::{GREATEST, put, put_bytes, put_unsigned};
use super::variants::agrees;
use super::{answers, whole};
use std::alloc::{AllocError, Global};
use std::process::Abort;
use std::test::Fail;

// A count of points, and the points, each of two bytes.
fn put_steps(out: &mut Vec<u8>, points: u64) -> Result<(), AllocError> {
    put_unsigned(out, points)?;
    for _ in 0..points {
        out.extend_from_slice(&[0x02, 0x01])?;
    }
    Ok(())
}

// A geometry of this kind with a run of points of two bytes for each count.
fn runs(alloc: Global, kind: u8, counts: &[u64]) -> Result<Vec<u8>, AllocError> {
    let mut out = Vec::new(alloc);
    out.extend_from_slice(&[kind, 0x00])?;
    if kind != 0x02 {
        put_unsigned(&mut out, counts.len() as u64)?;
    }
    for &points in counts {
        put_steps(&mut out, points)?;
    }
    Ok(out)
}

// Up to 2^14 points are passed by the ends of their numbers, more are summed: of a line, of rings and of lines.
#[test]
fn bodies_of_few_points_and_of_many(rt: HostRuntime) -> Result<(), Fail> {
    for points in [16383, 16384, 16385u64] {
        let rest = points.saturating_sub(8000);
        let kinds: [(u8, &[u64]); 3] = [
            (0x02, &[points]),
            (0x03, &[8000, rest, 0]),
            (0x05, &[8000, rest, 0]),
        ];
        for (kind, counts) in kinds {
            let bytes = runs(rt.alloc(), kind, counts)?;
            let wanted = whole(&bytes, points as usize);
            answers(&rt, rt.alloc(), &bytes, false, wanted);
        }
    }
    Ok(())
}

// A line that begins `less` below the greatest number, and makes `steps` steps of one.
fn line_to_the_end(alloc: Global, less: i64, steps: u64) -> Result<Vec<u8>, AllocError> {
    let mut out = Vec::new(alloc);
    out.extend_from_slice(&[0x02, 0x00])?;
    put_unsigned(&mut out, steps.saturating_add(1))?;
    put(&mut out, i64::MAX.wrapping_sub(less))?;
    put(&mut out, 0)?;
    for _ in 0..steps {
        out.extend_from_slice(&[0x02, 0x00])?;
    }
    Ok(out)
}

#[test]
fn sums_that_leave_64_bits(rt: HostRuntime) -> Result<(), Fail> {
    for less in [0, 1, 2, 20] {
        for steps in [0, 1, 2, 3, 19, 20, 21] {
            let bytes = line_to_the_end(rt.alloc(), less, steps)?;
            let certified = agrees(&rt, rt.alloc(), &bytes, false);
            assert!(rt; certified == (steps <= less.cast_unsigned()));
        }
    }
    Ok(())
}

// A line of a point, of differences `x` and `y`, and of a point, and `after` bytes after it.
fn line_of(alloc: Global, x: i64, y: i64, after: usize) -> Result<Vec<u8>, AllocError> {
    let mut out = Vec::new(alloc);
    out.extend_from_slice(&[0x02, 0x00, 0x03, 0x02, 0x01])?;
    put(&mut out, x)?;
    put(&mut out, y)?;
    out.extend_from_slice(&[0x01, 0x02])?;
    put_bytes(&mut out, 0x81, after)?;
    Ok(out)
}

#[test]
fn bare_numbers_of_every_two_lengths(rt: HostRuntime) -> Result<(), Fail> {
    for &x in &GREATEST {
        for &y in &GREATEST {
            for after in 0..9 {
                let bytes = line_of(rt.alloc(), x, y.wrapping_neg(), after)?;
                agrees(&rt, rt.alloc(), &bytes, false);
            }
        }
    }
    Ok(())
}

// A line of `points` points with a size that is too great by `too_great`, and `after` bytes after it.
fn sized_line(
    alloc: Global,
    points: u64,
    too_great: i64,
    after: usize,
) -> Result<Vec<u8>, AllocError> {
    let mut body = Vec::new(alloc);
    put_steps(&mut body, points)?;
    let mut out = Vec::new(alloc);
    out.extend_from_slice(&[0x02, 0x02])?;
    let size = (body.len() as u64).wrapping_add_signed(too_great);
    put_unsigned(&mut out, size)?;
    out.extend_from_slice(&body)?;
    put_bytes(&mut out, 0x00, after)?;
    Ok(out)
}

#[test]
fn bodies_without_a_box_that_have_a_size(rt: HostRuntime) -> Result<(), Fail> {
    for points in [0, 1, 2, 62, 63, 64, 200] {
        for too_great in [-1, 0, 1] {
            for after in [0, 1, 8] {
                let line = sized_line(rt.alloc(), points, too_great, after)?;
                let certified = agrees(&rt, rt.alloc(), &line, false);
                assert!(rt; certified == (too_great == 0));
            }
        }
    }
    Ok(())
}
