//! The fields of a header, each read by itself.
//!
//! Each reader answers as the one of `specs/` does that its contract names (`byte_at`, `number_at`, ..): a value, with the cursor
//! after the field, or the place of the field and why it is malformed. Used by other crates, and here by `ranges` and `read`.
ghost use Rattle.std.specs.Prelude.{◌≡◌, ◌≤◌, ◌-◌, IfOk};
ghost use Rattle.twkb_num.specs.Units.{IsPrecision};
ghost use Rattle.twkb_head.specs.BegunHeader.{deepest};
ghost use Rattle.twkb_head.specs.Devices.HeadReader.{byte_at, kind_from_type};
ghost use Rattle.twkb_head.specs.Shared.Reader.{number_at};
ghost use Rattle.twkb_head.specs.Refusal.{why_of};

use crate::bits::precision_of;
use crate::kinds::{Kind, kind_at};
use crate::refusal::{Malformed, Why};
use twkb_num::{Cursor, NumFault};

/// Reads the type byte at the place, of a geometry at `depth`: its kind, and the precision of X and Y. Type and depth are
/// judged here, before the next byte is read (this project's choice).
#[inline(always)]
pub fn take_type(cursor: &mut Cursor, depth: u8) -> Result<(Kind, i8), Malformed>
    requires { depth ≤ deepest }
    ensures precision { IfOk result (λ x. IsPrecision x.1) }
    ensures read { kind_from_type (deepest - depth) cursor.old ≡ (result, cursor.new) }
{
    let offset = cursor.place();
    let byte = take_byte(cursor)?;
    match kind_at(byte, depth) {
        Ok(kind) => Ok((kind, precision_of(byte))),
        Err(why) => {
            cursor.go_to(offset);
            Err(Malformed { offset, why })
        }
    }
}

/// Reads the byte at the place. Without one the field is `Cut`.
#[inline(always)]
pub fn take_byte(cursor: &mut Cursor) -> Result<u8, Malformed>
    ensures { byte_at cursor.old ≡ (result, cursor.new) }
{
    match cursor.byte() {
        Some(byte) => Ok(byte),
        None => Err(Malformed {
            offset: cursor.place(),
            why: Why::Cut,
        }),
    }
}

/// Reads the unsigned number at the place, or returns where and why it is malformed.
///
/// On `Ok` the cursor is after the number. On `Err` the place is unchanged, and is the offset of the refusal. Its reason is `Cut`
/// or `Varint`, and the bytes looked at are counted.
#[inline(always)]
pub fn take_number(cursor: &mut Cursor) -> Result<u64, Malformed>
    ensures { number_at cursor.old ≡ (result, cursor.new) }
{
    match cursor.uvarint() {
        Ok(number) => Ok(number),
        Err(fault) => Err(malformed(cursor, fault)),
    }
}

/// The refusal of the number at the cursor's place, which has this fault.
#[cold]
pub fn malformed(cursor: &Cursor, fault: NumFault) -> Malformed
    ensures offset { result.offset ≡ cursor.now.place }
    ensures why { result.why ≡ why_of fault }
{
    Malformed {
        offset: cursor.place(),
        why: match fault {
            NumFault::Cut => Why::Cut,
            NumFault::Long => Why::Varint,
        },
    }
}
