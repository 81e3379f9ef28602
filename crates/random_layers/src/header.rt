//! Headers, written after the bodies that they describe.
use crate::dice::Dice;
use crate::numbers::{put_signed, put_unsigned, rounded_down, rounded_up, scale};
use crate::reach::Reach;
use std::alloc::{AllocError, Global};

/// The precisions of the axes of a header: X and Y, and Z and M if it has them.
#[derive(Clone, Copy, Debug)]
pub struct Axes {
    pub precisions: [Option<i8>; 4],
}

const PRECISIONS: [i8; 10] = [0, 0, 0, 1, 1, 2, -1, 3, 7, -8];

impl Axes {
    pub fn random(dice: &mut Dice) -> Axes {
        let chosen = dice.below(PRECISIONS.len() as u64) as usize;
        let xy = PRECISIONS.get(chosen).copied().unwrap_or(0);
        let mut precisions = [Some(xy), Some(xy), None, None];
        for axis in 2..4 {
            if dice.once_in(3) {
                precisions[axis] = Some((dice.below(8) % 8) as i8);
            }
        }
        Axes { precisions }
    }
}

/// What a header says besides its axes.
#[derive(Clone, Copy, Debug)]
pub struct Marks {
    pub kind: u8,
    pub has_ids: bool,
    pub is_empty: bool,
}

/// A geometry with this body, whose vertices have this reach.
pub fn with_header(
    alloc: Global,
    dice: &mut Dice,
    axes: &Axes,
    marks: &Marks,
    reach: &Reach,
    body: &[u8],
) -> Result<Vec<u8>, AllocError> {
    let has_size = !dice.once_in(3);
    let has_box = !dice.once_in(3);
    let [xy, _, z, m] = axes.precisions;
    let mut metadata = 32 * (dice.below(8) % 8) as u8;
    for (bit, is_set) in [
        (1, has_box),
        (2, has_size),
        (4, marks.has_ids),
        (8, z.is_some() || m.is_some()),
        (16, marks.is_empty),
    ] {
        if is_set {
            metadata |= bit;
        }
    }
    let mut out = Vec::new(alloc);
    out.push(marks.kind % 16 | raw_precision(xy.unwrap_or(0)))?;
    out.push(metadata)?;
    if z.is_some() || m.is_some() {
        out.push(extended_byte(z, m))?;
    }
    let mut sized = Vec::new(alloc);
    if has_box {
        put_box(&mut sized, dice, axes, reach)?;
    }
    sized.extend_from_slice(body)?;
    if has_size {
        put_unsigned(&mut out, dice, sized.len() as u64)?;
    }
    out.extend_from_slice(&sized)?;
    Ok(out)
}

// The high four bits of a type byte for a precision: the precisions 0, -1, 1, .., 7, -8 are 0 to 15.
fn raw_precision(precision: i8) -> u8 {
    let twice = precision.unsigned_abs().wrapping_mul(2);
    let raw = if precision < 0 {
        twice.wrapping_sub(1)
    } else {
        twice
    };
    raw.wrapping_mul(16)
}

fn extended_byte(z: Option<i8>, m: Option<i8>) -> u8 {
    let mut byte = 0;
    if let Some(precision) = z {
        byte |= 1 | precision.unsigned_abs().wrapping_mul(4);
    }
    if let Some(precision) = m {
        byte |= 2 | precision.unsigned_abs().wrapping_mul(32);
    }
    byte
}

// The least box at the precisions of the header, or one that is somewhat larger. If there is nothing to hold, the box
// lies anywhere.
fn put_box(
    out: &mut Vec<u8>,
    dice: &mut Dice,
    axes: &Axes,
    reach: &Reach,
) -> Result<(), AllocError> {
    for axis in 0..4 {
        let Some(precision) = axes.precisions[axis] else {
            continue;
        };
        let (least, most) = match reach.ranges[axis] {
            Some((least, most)) => {
                let scale = scale(precision);
                (rounded_down(least, scale), rounded_up(most, scale))
            }
            None => (dice.around(0, 20), dice.around(0, 20)),
        };
        let is_loose = dice.once_in(8);
        let below = if is_loose { dice.around(1, 1) } else { 0 };
        let above = if is_loose { dice.around(1, 1) } else { 0 };
        let least = least.wrapping_sub(below);
        put_signed(out, dice, least)?;
        put_signed(out, dice, most.wrapping_add(above).wrapping_sub(least))?;
    }
    Ok(())
}
