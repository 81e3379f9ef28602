//! The headers of an audit. Which fields a header has may be known before they are read.
//! Used by `geometry` and `shape`.
ghost use Rattle.std.specs.Prelude.{◌≡◌, ◌≢◌, ◌-◌, ◌%◌, ◌==◌, ◌≤◌, bit_and, length, IfOk, OnOk, OnErr};
ghost use Rattle.twkb_num.specs.Cursor.{Reading, rest, passed, IsMoved, IsSound};
ghost use Rattle.twkb_head.specs.BegunHeader.{deepest, is_collection};
ghost use Rattle.twkb_head.specs.Head.{StartsWithHeader, IsHeadAt};
ghost use Rattle.twkb_head.specs.Raw.{HavePrecisions, head_said};
ghost use Rattle.twkb_body.specs.Audited.{HasLongList};
ghost use Rattle.twkb_body.specs.Devices.BodyReader.{geometry_at};
ghost use Rattle.twkb_body.specs.Devices.Stops.{AreRead, HasStopped};

use crate::found::{Halted, Pass};
use crate::stopped::Stopped;
use twkb_head::{BoxCalled, BoxInlined, Fields, Malformed, begun_by, read_raw, take_rest};
use twkb_num::Cursor;

/// The bits of a metadata byte for a box, a size, an extended dimensions byte and an empty geometry (TWKB specification, "Metadata
/// Header").
pub const FIELDS: u8 = 0x1b;

/// None of these bits.
pub const NO_FIELD: u8 = 0;

/// Of these bits, the two for a box and a size.
pub const SIZED_BOX: u8 = 3;

/// Of these bits, the three for a box, a size and an extended dimensions byte.
pub const SIZED_FURTHER_BOX: u8 = 0xb;

/// The value of `KNOWN` for a header that may announce any of the bits in [`FIELDS`].
pub const ANY_FIELDS: u8 = 0xff;

/// The bit of a metadata byte for ids.
const IDS: u8 = 4;

/// The bits of a metadata byte that announce fields. Of the bits in [`FIELDS`] it has `KNOWN`, or any.
// If they are known, the compiler knows which fields there are.
#[inline(always)]
fn announced<const KNOWN: u8>(metadata: u8) -> u8
    requires { KNOWN ≢ 255 → bit_and metadata 27 ≡ KNOWN }
    ensures { result ≡ metadata % 32 }
{
    if KNOWN == ANY_FIELDS {
        metadata % 32
    } else {
        KNOWN + (metadata & IDS)
    }
}

/// Reads the header of a geometry at `depth` that begins with these two bytes, which were just read. Of the bits in [`FIELDS`] the
/// second one has `KNOWN`, or any. It stops at a malformed field.
// Two bytes go from function to function in registers.
#[inline(always)]
pub fn take_header<const KNOWN: u8>(
    pass: &mut Pass,
    cursor: &mut Cursor,
    depth: u8,
    first: u8,
    metadata: u8,
) -> Result<Fields, Halted>
    requires shallowest { 1 ≤ depth }
    requires deepest { depth ≤ deepest }
    requires known { KNOWN ≢ 255 → bit_and metadata 27 ≡ KNOWN }
    requires read { (before : Reading) × AreRead first metadata before cursor.old }
    ensures ok { IfOk result (λ raw. (before : Reading) → AreRead first metadata before cursor.old
        → IsHeadAt (head_said raw) depth before.place (passed before cursor.new) × IsMoved before cursor.new) }
    ensures collection { IfOk result (λ raw. is_collection raw.kind ≡ (first % 16 == 7)) }
    ensures precisions { IfOk result (λ raw. HavePrecisions raw.axes) }
    ensures same { OnOk result (pass.new ≡ pass.old) }
    ensures stopped { OnErr result ((before : Reading) → AreRead first metadata before cursor.old
        → HasStopped (geometry_at (deepest - depth) before) (HasLongList depth (rest before)) before pass.new.stopped cursor.new) }
{
    cursor.place_is_within();
    let start = cursor.place() - 2;
    let Some(begun) = begun_by(cursor, depth, first, metadata) else {
        return Err(stop_at_header(pass, cursor, start, depth));
    };
    let known = begun.announcing(announced::<KNOWN>(metadata));
    let Ok(raw) = take_rest::<BoxInlined>(cursor, known) else {
        return Err(stop_at_header(pass, cursor, start, depth));
    };
    Ok(raw)
}

/// Stops at the malformed field of the header that begins at `start`, of a geometry at `depth`.
#[cold]
#[inline(never)]
pub fn stop_at_header(pass: &mut Pass, cursor: &mut Cursor, start: usize, depth: u8) -> Halted
    requires shallowest { 1 ≤ depth }
    requires deepest { depth ≤ deepest }
    requires start { start ≤ length cursor.old.bytes }
    requires malformed { StartsWithHeader depth (rest (record cursor.old { place = start })) → ⊥ }
    ensures stopped { (before : Reading) → before.bytes ≡ cursor.old.bytes → before.place ≡ start → IsSound before
        → HasStopped (geometry_at (deepest - depth) before) (HasLongList depth (rest before)) before pass.new.stopped cursor.new }
{
    cursor.go_to(start);
    cursor.place_is_within();
    let Err(malformed) = read_raw(cursor, depth) else {
        unreachable!()
    };
    pass.stop(Stopped::Malformed(malformed))
}
