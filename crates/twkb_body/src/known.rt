//! Ranges of the box of a certified geometry, which are known to be at the place. Used by `step`.
ghost use Rattle.twkb_body.specs.Devices.Known.{HasFlatBox, ReadsFlatBox};

use twkb_head::RawRange;
use twkb_num::Cursor;

/// Reads the ranges of two axes, one after the other.
#[inline(always)]
pub fn two_ranges(cursor: &mut Cursor) -> (RawRange, RawRange)
    requires { HasFlatBox cursor.old }
    ensures { ReadsFlatBox result.0 result.1 cursor.old cursor.new }
{
    let Ok(numbers) = cursor.svarints::<4>() else {
        unreachable!()
    };
    let first = RawRange {
        minimum: numbers[0],
        extent: numbers[1],
    };
    let second = RawRange {
        minimum: numbers[2],
        extent: numbers[3],
    };
    (first, second)
}
