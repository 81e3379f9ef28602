//! Numbers as bytes.
use random_layers::Dice;
use std::alloc::AllocError;
use twkb_num::zigzag;

/// The greatest numbers of one byte, of two, and so on to ten.
pub const GREATEST: [i64; 10] = [
    63,
    8191,
    1048575,
    134217727,
    17179869183,
    2199023255551,
    281474976710655,
    36028797018963967,
    4611686018427387903,
    9223372036854775807,
];

/// A random number of at most `lengths` bytes, of either sign.
pub fn number_of(dice: &mut Dice, lengths: u64) -> i64 {
    let length = dice.below(lengths) as usize;
    let greatest = GREATEST.get(length).copied().unwrap_or(0);
    let number = dice.around(0, greatest);
    if dice.once_in(2) {
        number.wrapping_neg()
    } else {
        number
    }
}

/// Puts a signed number.
pub fn put(out: &mut Vec<u8>, number: i64) -> Result<(), AllocError> {
    put_unsigned(out, zigzag(number))
}

/// Puts a number without sign.
pub fn put_unsigned(out: &mut Vec<u8>, number: u64) -> Result<(), AllocError> {
    put_padded(out, number, 1)
}

/// Puts a number in at least `least` bytes, of which the last ones may have groups of zeros.
pub fn put_padded(out: &mut Vec<u8>, number: u64, least: u64) -> Result<(), AllocError> {
    let mut left = number;
    for k in 1..10 {
        if left < 128 && least <= k {
            break;
        }
        out.push((left % 128) as u8 | 128)?;
        left /= 128;
    }
    out.push((left % 128) as u8)?;
    Ok(())
}

/// Puts one byte `count` times.
pub fn put_bytes(out: &mut Vec<u8>, byte: u8, count: usize) -> Result<(), AllocError> {
    for _ in 0..count {
        out.push(byte)?;
    }
    Ok(())
}

/// Puts minimum and extent of each axis.
pub fn put_bounds(out: &mut Vec<u8>, bounds: &[(i64, i64)]) -> Result<(), AllocError> {
    for &(minimum, extent) in bounds {
        put(out, minimum)?;
        put(out, extent)?;
    }
    Ok(())
}

/// Puts the differences from point to point.
pub fn put_points(out: &mut Vec<u8>, axes: usize, points: &[[i64; 4]]) -> Result<(), AllocError> {
    let mut last = [0i64; 4];
    for point in points {
        for axis in 0..axes.min(4) {
            put(out, point[axis].wrapping_sub(last[axis]))?;
        }
        last = *point;
    }
    Ok(())
}
