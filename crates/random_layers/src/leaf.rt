//! Geometries of the six types that have no members with headers.
use crate::dice::Dice;
use crate::header::Axes;
use crate::numbers::{put_signed, put_unsigned, scale};
use crate::reach::Reach;
use std::alloc::{AllocError, Global};

/// A body, with the vertices that were put so far.
#[derive(Drop)]
pub struct Body {
    pub bytes: Vec<u8>,
    pub reach: Reach,
    axes: Axes,
    last: [i64; 4],
    // The vertices lie about this place, in units.
    middle: [i64; 4],
    spread: i64,
}

const UNITS: i64 = 10_000_000;

impl Body {
    pub fn new(alloc: Global, dice: &mut Dice, axes: Axes) -> Body {
        let mut middle = [0; 4];
        for axis in 0..4 {
            middle[axis] = dice.around(0, 12).wrapping_mul(UNITS);
        }
        Body {
            bytes: Vec::new(alloc),
            reach: Reach::new(),
            axes,
            last: [0; 4],
            middle,
            spread: dice.around(2, 2).wrapping_mul(UNITS),
        }
    }

    /// A body of this kind.
    pub fn put(&mut self, dice: &mut Dice, kind: u8, has_ids: bool) -> Result<(), AllocError> {
        match kind {
            1 => return self.put_point(dice),
            2 => return self.put_points(dice),
            3 => return self.put_rings(dice),
            _ => {}
        }
        // Now and then there are more ids than an audit holds without memory.
        let count = if kind == 4 && dice.once_in(12) {
            18
        } else {
            dice.below(4)
        };
        put_unsigned(&mut self.bytes, dice, count)?;
        if has_ids {
            put_ids(&mut self.bytes, dice, count)?;
        }
        for _ in 0..count {
            match kind {
                4 => self.put_point(dice)?,
                5 => self.put_points(dice)?,
                _ => self.put_rings(dice)?,
            }
        }
        Ok(())
    }

    fn put_point(&mut self, dice: &mut Dice) -> Result<(), AllocError> {
        for axis in 0..4 {
            if let Some(precision) = self.axes.precisions[axis] {
                let scale = scale(precision);
                let middle = self.middle[axis].checked_div(scale).unwrap_or(0);
                let far = self.spread.checked_div(scale).unwrap_or(0).max(1);
                let coordinate = dice.around(middle, far);
                self.reach.add(axis, coordinate.wrapping_mul(scale));
                let difference = coordinate.wrapping_sub(self.last[axis]);
                self.last[axis] = coordinate;
                put_signed(&mut self.bytes, dice, difference)?;
            }
        }
        Ok(())
    }

    fn put_points(&mut self, dice: &mut Dice) -> Result<(), AllocError> {
        let count = dice.below(4);
        put_unsigned(&mut self.bytes, dice, count)?;
        for _ in 0..count {
            self.put_point(dice)?;
        }
        Ok(())
    }

    fn put_rings(&mut self, dice: &mut Dice) -> Result<(), AllocError> {
        let count = dice.below(3);
        put_unsigned(&mut self.bytes, dice, count)?;
        for _ in 0..count {
            self.put_points(dice)?;
        }
        Ok(())
    }
}

/// Ids that all differ.
pub fn put_ids(out: &mut Vec<u8>, dice: &mut Dice, count: u64) -> Result<(), AllocError> {
    let mut id = dice.around(0, 100);
    let step = dice.around(4, 3);
    for _ in 0..count {
        put_signed(out, dice, id)?;
        id = id.wrapping_sub(step);
    }
    Ok(())
}
