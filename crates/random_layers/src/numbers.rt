//! Varints that are written, and coordinates that are rounded.
use crate::dice::Dice;
use std::alloc::AllocError;

/// Writes an unsigned varint: seven bits a byte, lowest first; now and then with a group too many, which may be 0.
pub fn put_unsigned(out: &mut Vec<u8>, dice: &mut Dice, number: u64) -> Result<(), AllocError> {
    let mut left = number;
    for _ in 0..9 {
        if left < 128 {
            break;
        }
        out.push(128 | (left % 128) as u8)?;
        left /= 128;
    }
    if number < 128 && dice.once_in(20) {
        out.push(128 | (left % 128) as u8)?;
        left = 0;
    }
    out.push((left % 128) as u8)?;
    Ok(())
}

/// Writes a signed varint: 0, -1, 1, -2, 2 are 0, 1, 2, 3, 4.
pub fn put_signed(out: &mut Vec<u8>, dice: &mut Dice, number: i64) -> Result<(), AllocError> {
    let twice = number.unsigned_abs().wrapping_mul(2);
    let zigzag = if number < 0 {
        twice.wrapping_sub(1)
    } else {
        twice
    };
    put_unsigned(out, dice, zigzag)
}

/// The units of one at this precision.
pub fn scale(precision: i8) -> i64 {
    let mut scale = 1i64;
    for _ in precision..7 {
        scale = scale.wrapping_mul(10);
    }
    scale
}

/// The greatest number that is at most `units` at this scale.
pub fn rounded_down(units: i64, scale: i64) -> i64 {
    let near = units.checked_div(scale).unwrap_or(0);
    if near.wrapping_mul(scale) > units {
        near.wrapping_sub(1)
    } else {
        near
    }
}

/// The least number that is at least `units` at this scale.
pub fn rounded_up(units: i64, scale: i64) -> i64 {
    let near = units.checked_div(scale).unwrap_or(0);
    if near.wrapping_mul(scale) < units {
        near.wrapping_add(1)
    } else {
        near
    }
}
