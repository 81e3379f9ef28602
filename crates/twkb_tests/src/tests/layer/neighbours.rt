//! Directories of blobs that take one slot or four, next to one another, against the plain reader.
ghost use Rattle.std.specs.Prelude.{◌≡◌};
ghost use Rattle.twkb_layer.specs.Directory.{IsDirectoryOf};

use super::certified;
use super::plain_scans::{directory_scan_agrees, plain_layer};
use super::slots::in_units;
use plain::Layer;
use std::alloc::Global;
use std::process::Abort;
use std::test::Fail;
use twkb_layer::{Certified, Directory};
use twkb_num::zigzag;

/// A point at some X, and at 0 in Y.
#[derive(Clone, Copy)]
enum Point {
    /// At precision 7, with a size and a box.
    Boxed(i64),
    /// At precision 6, with a size and a box.
    Coarse(i64),
    /// At precision 7, with neither.
    Bare(i64),
    /// At precision 7, with a size, a box and Z, which is 1.
    High(i64),
}

impl Point {
    /// The first bytes, and X.
    fn parts(self) -> (&'static [u8], i64) {
        match self {
            Point::Boxed(x) => (&[0xE1, 0x03], x),
            Point::Coarse(x) => (&[0xC1, 0x03], x),
            Point::Bare(x) => (&[0xE1, 0x00], x),
            Point::High(x) => (&[0xE1, 0x0B, 0x01], x),
        }
    }

    /// X in units.
    fn units(self) -> i128 {
        let (_, x) = self.parts();
        if matches!(self, Point::Coarse(_)) {
            i128::from(x) * 10
        } else {
            i128::from(x)
        }
    }

    /// Pushes the bytes of the point.
    fn push(self, alloc: Global, bytes: &mut Vec<u8>) -> Result<(), Fail> {
        let (first, x) = self.parts();
        let mut rest = Vec::new(alloc);
        if !matches!(self, Point::Bare(_)) {
            push_number(&mut rest, x)?;
            rest.extend_from_slice(&[0, 0, 0])?;
        }
        if matches!(self, Point::High(_)) {
            rest.extend_from_slice(&[2, 0])?;
        }
        push_number(&mut rest, x)?;
        rest.push(0)?;
        if matches!(self, Point::High(_)) {
            rest.push(2)?;
        }
        bytes.extend_from_slice(first)?;
        if !matches!(self, Point::Bare(_)) {
            bytes.push((rest.len() % 128) as u8)?;
        }
        bytes.extend_from_slice(&rest)?;
        Ok(())
    }
}

/// Pushes the varint of a number.
fn push_number(bytes: &mut Vec<u8>, number: i64) -> Result<(), Fail> {
    let mut rest = zigzag(number);
    for _ in 0..9 {
        if rest < 128 {
            break;
        }
        bytes.push((rest % 128) as u8 + 128)?;
        rest /= 128;
    }
    bytes.push((rest % 128) as u8)?;
    Ok(())
}

/// Scans with a directory agree with the plain reader, for windows around each point.
fn agrees(rt: &impl Abort, alloc: Global, points: &[Point]) -> Result<(), Fail> {
    let mut bytes = Vec::new(alloc);
    for point in points {
        point.push(alloc, &mut bytes)?;
    }
    for point in points {
        scans_agree(rt, alloc, &bytes, point.units());
    }
    Ok(())
}

/// Scans with a directory agree with the plain reader, for windows at this X, before it and after it.
fn scans_agree(rt: &impl Abort, alloc: Global, bytes: &[u8], x: i128) {
    let mut layer = certified(rt, alloc, bytes);
    let plain = plain_layer(rt, alloc, bytes);
    let directory = Directory::build(alloc, &mut layer).expect(rt, "there is memory");
    scan_agrees(rt, &plain, &directory, &mut layer, x.saturating_sub(1));
    scan_agrees(rt, &plain, &directory, &mut layer, x);
    scan_agrees(rt, &plain, &directory, &mut layer, x.saturating_add(1));
}

fn scan_agrees(
    rt: &impl Abort,
    plain: &Layer,
    directory: &Directory<Global>,
    layer: &mut Certified,
    x: i128,
)
    requires { IsDirectoryOf directory.now layer.old.bytes }
    ensures { layer.new.bytes ≡ layer.old.bytes }
{
    directory_scan_agrees(rt, plain, directory, layer, &in_units((x, x), (0, 0)));
}

/// The first number that 32 bits with a sign don't hold.
const TOP: i64 = 1 << 31;

const NEAR_THE_ENDS: [i64; 6] = [-TOP - 1, -TOP, -TOP + 1, TOP - 2, TOP - 1, TOP];

// Two boxes with ends that 32 bits hold, or just don't.
#[test]
fn ends_of_32_bits(rt: HostRuntime) -> Result<(), Fail> {
    for &first in &NEAR_THE_ENDS {
        for &second in &NEAR_THE_ENDS {
            let points = [Point::Boxed(first), Point::Boxed(second)];
            agrees(&rt, rt.alloc(), &points)?;
        }
    }
    Ok(())
}

/// The first number that four bytes of a varint don't spell.
const LONG: i64 = 1 << 27;

const NEAR_FOUR_BYTES: [i64; 4] = [-LONG - 1, -LONG, LONG - 1, LONG];

// Boxes whose numbers are read together into lanes, or are just too long for it. Three more points follow, since no box in the
// last 32 bytes of a layer is read so.
#[test]
fn numbers_of_four_bytes(rt: HostRuntime) -> Result<(), Fail> {
    for &first in &NEAR_FOUR_BYTES {
        for &second in &NEAR_FOUR_BYTES {
            let points = [
                Point::Boxed(first),
                Point::Boxed(second),
                Point::Boxed(1),
                Point::Boxed(-2),
                Point::Boxed(first),
            ];
            agrees(&rt, rt.alloc(), &points)?;
        }
    }
    Ok(())
}

const KINDS: [Point; 5] = [
    Point::Boxed(3),
    Point::Coarse(-4),
    Point::Bare(5),
    Point::High(-6),
    Point::Boxed(TOP),
];

// One to four neighbours, with and without boxes, at two precisions, some with Z or with a box that 32 bits don't hold.
#[test]
fn neighbours(rt: HostRuntime) -> Result<(), Fail> {
    for &first in &KINDS {
        agrees(&rt, rt.alloc(), &[first])?;
        for &second in &KINDS {
            agrees(&rt, rt.alloc(), &[first, second])?;
            for &third in &KINDS {
                agrees(&rt, rt.alloc(), &[first, second, third])?;
                agrees(&rt, rt.alloc(), &[first, second, third, first])?;
            }
        }
    }
    Ok(())
}
