//! The numbers of a body, each read by itself.
//! Used by `lists`, `parts`, `rooms`, `step` and `trail`.
ghost use Rattle.std.specs.Prelude.{◌≡◌};
ghost use Rattle.twkb_head.specs.Shared.Reader.{number_at, signed_at};

use twkb_head::{Malformed, malformed};
use twkb_num::Cursor;

/// Reads the unsigned number at the place, or returns where and why it is malformed.
///
/// On `Ok` the cursor is after the number. On `Err` the place is unchanged, and is the offset of the refusal. Its reason is `Cut`
/// or `Varint`, and the cursor counts the bytes that it looked at.
#[inline(always)]
pub fn take_number(cursor: &mut Cursor) -> Result<u64, Malformed>
    ensures { number_at cursor.old ≡ (result, cursor.new) }
{
    match cursor.uvarint() {
        Ok(number) => Ok(number),
        Err(fault) => Err(malformed(cursor, fault)),
    }
}

/// Reads the signed number at the place, by zigzag, as [`take_number`] reads an unsigned one.
#[inline(always)]
pub fn take_signed(cursor: &mut Cursor) -> Result<i64, Malformed>
    ensures { signed_at cursor.old ≡ (result, cursor.new) }
{
    match cursor.svarint() {
        Ok(number) => Ok(number),
        Err(fault) => Err(malformed(cursor, fault)),
    }
}
