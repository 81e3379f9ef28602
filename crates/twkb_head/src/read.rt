//! [`read_head`] and the other functions that read a header, whole or in two steps. Used by other crates.
ghost use Rattle.std.specs.Prelude.{◌≡◌, ◌≢◌, ◌↔◌, ◌⊎◌, is_some, ℕ, ◌+◌, ◌-◌, ◌≤◌, ◌<◌, ◌%◌, [], ◌∷◌, true, false, None, Err, option_map, IfOk, OnOk, IfErr, IfSome, IfNone, IsOk, IsSome, IsTrue};
ghost use Rattle.twkb_num.specs.Cursor.{Reading, rest, passed, counted, IsMoved, IsSound};
ghost use Rattle.twkb_num.specs.Units.{IsPrecision};
ghost use Rattle.twkb_head.specs.BegunHeader.{deepest};
ghost use Rattle.twkb_head.specs.declared.refusal.Why.TheVariants.{Range};
ghost use Rattle.twkb_head.specs.declared.kinds.Kind.TheVariants.{Point};
ghost use Rattle.twkb_head.specs.Head.{StartsWithHeader, IsHeadAt};
ghost use Rattle.twkb_head.specs.Refusal.{IsRefusedHead, looked_at_until};
ghost use Rattle.twkb_head.specs.Devices.HeadReader.{byte_at, head_at, size_and_box_at, rest_at};
ghost use Rattle.twkb_head.specs.Shared.Reader.{number_at, optional_at};
ghost use Rattle.twkb_head.specs.Devices.Raw.{head_result, ReadsFirstTwo};
ghost use Rattle.twkb_head.specs.Raw.{HavePrecisions, HasZeros, head_said, BeginsHead, ReadsHead};
ghost use Rattle.twkb_head.specs.Header.{has_bit, code_of};

use crate::bits::{BOX, EMPTY, EXTENDED, SIZE, has_bit, ids_of, m_of, precision_of, z_of};
use crate::field_readers::{take_byte, take_number, take_type};
use crate::header::{Head, SizeField};
use crate::kinds::{Kind, kind_at};
use crate::ranges::{BoxCalled, RangeReader, take_box};
use crate::raw::{Axes, Fields};
use crate::refusal::Malformed;
use twkb_num::Cursor;

/// A mask for the first two bytes of a geometry, as one number whose low byte is the first. It keeps the bits that tell the type, which
/// fields follow, and whether the geometry is empty (TWKB specification, "Type & Precision" and "Metadata Header").
const TYPE_AND_FIELDS: u16 = 0x1f0f;

/// Reads the header at the place, of a geometry at `depth`, where a blob has depth 1.
///
/// It moves past the header, in one pass, and takes no memory. A refusal leaves the place as it was; the bytes looked at
/// are counted.
// It is inlined, so that the many parts of a `Head` stay in registers, and parts that aren't used aren't made.
#[inline(always)]
pub fn read_head(cursor: &mut Cursor, depth: u8) -> Result<Head, Malformed>
    requires shallowest { 1 ≤ depth }
    requires deepest { depth ≤ deepest }

    // It answers a header exactly if one that is allowed at this depth begins here, and then this one.
    ensures exact { IsOk result ↔ StartsWithHeader depth (rest cursor.old) }
    ensures ok { IfOk result (λ head. IsHeadAt head depth cursor.old.place (passed cursor.old cursor.new)) }
    ensures moved { OnOk result (IsMoved cursor.old cursor.new) }

    // Its precisions lie in their ranges.
    ensures axes { IfOk result (λ head. HavePrecisions (record { xy = head.xy; z = head.z; m = head.m })) }

    // It names the first field that can't follow, for one of the first four reasons, and counts the bytes that it looked at.
    ensures refused { IfErr result (λ m. IsRefusedHead m depth cursor.old.place (rest cursor.old)) }
    ensures no_range { IfErr result (λ m. m.why ≢ Range) }
    ensures still { IfErr result (λ m. cursor.new ≡ counted cursor.old (looked_at_until m cursor.old)) }
{
    let raw = read_raw(cursor, depth)?;
    Ok(raw.whole())
}

/// Reads the header at the place as [`read_head`] does, with its box in raw integers.
#[inline(always)]
pub fn read_raw(cursor: &mut Cursor, depth: u8) -> Result<Fields, Malformed>
    requires shallowest { 1 ≤ depth }
    requires deepest { depth ≤ deepest }
    ensures exact { IsOk result ↔ StartsWithHeader depth (rest cursor.old) }
    ensures ok { IfOk result (λ raw. IsHeadAt (head_said raw) depth cursor.old.place (passed cursor.old cursor.new)) }
    ensures moved { OnOk result (IsMoved cursor.old cursor.new) }
    ensures axes { IfOk result (λ raw. HavePrecisions raw.axes) }
    ensures refused { IfErr result (λ m. IsRefusedHead m depth cursor.old.place (rest cursor.old)) }
    ensures no_range { IfErr result (λ m. m.why ≢ Range) }
    ensures still { IfErr result (λ m. cursor.new ≡ counted cursor.old (looked_at_until m cursor.old)) }
    ensures zeros { IfOk result (λ raw. IfSome raw.bounds (HasZeros (is_some raw.axes.z) (is_some raw.axes.m))) }
{
    let start = cursor.place();
    match take_head(cursor, depth) {
        Ok(raw) => Ok(raw),
        Err(malformed) => {
            cursor.go_to(start);
            Err(malformed)
        }
    }
}

/// The first two bytes of a header: the kind, the precision of X and Y, and the byte that announces the other fields.
#[derive(Clone, Copy, Debug, PartialEq, Eq)]
pub struct Begun {
    pub kind: Kind,
    pub xy: i8,
    pub metadata: u8,
    /// The place of the first byte.
    pub start: usize,
}

impl Begun {
    /// Whether a size and a box in X and Y follow, no other field, and a body.
    #[inline(always)]
    pub fn is_flat_boxed(self) -> bool
        ensures { IsTrue result ↔ (self.metadata % 32 ≡ 3) }
    {
        self.metadata % 32 == SIZE + BOX
    }

    /// Whether an extended dimensions byte, a size and a box follow, no other field, and a body.
    #[inline(always)]
    pub fn is_further_boxed(self) -> bool
        ensures { IsTrue result ↔ (self.metadata % 32 ≡ 11) }
    {
        self.metadata % 32 == EXTENDED + SIZE + BOX
    }

    /// Whether it is a point, and a size follows, no other field, and a body.
    #[inline(always)]
    pub fn is_sized_point(self) -> bool
        ensures { IsTrue result ↔ ((self.metadata % 32 ≡ 2) × (self.kind ≡ Point)) }
    {
        self.metadata % 32 == SIZE && matches!(self.kind, Kind::Point)
    }

    /// This header with another metadata byte that announces these fields too; the bits from 32 on announce none. If the byte is a
    /// constant, the compiler knows which fields there are.
    #[inline(always)]
    pub fn announcing(self, metadata: u8) -> Begun
        requires { self.metadata % 32 ≡ metadata }
        ensures { result ≡ record self { metadata = metadata } }
    {
        Begun {
            kind: self.kind,
            xy: self.xy,
            metadata,
            start: self.start,
        }
    }
}

/// The fields of the header at the place, in order. A refusal leaves the cursor at the field that is wrong.
#[inline(always)]
fn take_head(cursor: &mut Cursor, depth: u8) -> Result<Fields, Malformed>
    requires { depth ≤ deepest }
    ensures read { head_at (deepest - depth) cursor.old ≡ (head_result result, cursor.new) }
    ensures axes { IfOk result (λ raw. HavePrecisions raw.axes) }
    ensures zeros { IfOk result (λ raw. IfSome raw.bounds (HasZeros (is_some raw.axes.z) (is_some raw.axes.m))) }
{
    let first_two = take_begun(cursor, depth)?;
    take_fields::<BoxCalled>(cursor, first_two)
}

/// The first two bytes of the header at the place.
#[inline(always)]
#[tactic(auto, unfolding(crate::specs::Devices::HeadReader::head_at))]
fn take_begun(cursor: &mut Cursor, depth: u8) -> Result<Begun, Malformed>
    requires { depth ≤ deepest }
    ensures ok { IfOk result (λ begun. ReadsFirstTwo (deepest - depth) begun cursor.old cursor.new) }
    ensures err { IfErr result (λ m. head_at (deepest - depth) cursor.old ≡ (Err m, cursor.new)) }
    ensures xy { IfOk result (λ begun. IsPrecision begun.xy) }
{
    let start = cursor.place();
    let (kind, xy) = take_type(cursor, depth)?;
    let metadata = take_byte(cursor)?;
    Ok(Begun {
        kind,
        xy,
        metadata,
        start,
    })
}

/// Reads the first two bytes of the header at the place, of a geometry at `depth`. Returns `None` if no such header begins there.
/// Then the cursor is after the bytes that were read, two of them or none.
#[inline(always)]
pub fn begin_head(cursor: &mut Cursor, depth: u8) -> Option<Begun>
    requires shallowest { 1 ≤ depth }
    requires deepest { depth ≤ deepest }
    ensures some { IfSome result (λ begun. BeginsHead begun depth cursor.old cursor.new) }
    ensures none { StartsWithHeader depth (rest cursor.old) → IsSome result }
    ensures moved { IfNone result (IsMoved cursor.old cursor.new) }
    ensures two { IfNone result ((cursor.new ≡ cursor.old) ⊎ (cursor.new.place ≡ cursor.old.place + 2)) }
    ensures xy { IfSome result (λ begun. IsPrecision begun.xy) }
{
    cursor.place_is_within();
    let (first, metadata) = cursor.two_bytes()?;
    begun_by(cursor, depth, first, metadata)
}

/// The header of a geometry at `depth` that begins with these two bytes, which were just read. `None` where there is no such
/// header.
// Two bytes are passed on from function to function in registers, which a `Begun` isn't.
#[inline(always)]
pub fn begun_by(cursor: &Cursor, depth: u8, first: u8, metadata: u8) -> Option<Begun>
    requires shallowest { 1 ≤ depth }
    requires deepest { depth ≤ deepest }
    requires read { 2 ≤ cursor.now.place }
    ensures some { IfSome result (λ begun. (before : Reading) → IsSound before → IsMoved before cursor.now
        → passed before cursor.now ≡ first ∷ metadata ∷ [] → BeginsHead begun depth before cursor.now) }
    ensures none { (before : Reading) → IsSound before → IsMoved before cursor.now
        → passed before cursor.now ≡ first ∷ metadata ∷ [] → StartsWithHeader depth (rest before) → IsSome result }
    ensures xy { IfSome result (λ begun. IsPrecision begun.xy) }
    ensures metadata { IfSome result (λ begun. begun.metadata ≡ metadata) }
{
    let start = cursor.place() - 2;
    let Ok(kind) = kind_at(first, depth) else {
        return None;
    };
    Some(Begun {
        kind,
        xy: precision_of(first),
        metadata,
        start,
    })
}

/// The header of a blob that begins with these two bytes, which were just read, if it is of this kind and announces these fields.
/// The result's metadata byte is `fields`.
// Where kind and fields are constants, both bytes are compared at once, and the compiler knows which fields there are.
#[inline(always)]
pub fn begun_as(cursor: &Cursor, kind: Kind, fields: u8, first: u8, metadata: u8) -> Option<Begun>
    requires few { fields < 32 }
    requires read { 2 ≤ cursor.now.place }
    ensures some { IfSome result (λ begun. (before : Reading) → IsSound before → IsMoved before cursor.now
        → passed before cursor.now ≡ first ∷ metadata ∷ [] → BeginsHead begun 1 before cursor.now) }
    ensures only { IsSome result ↔ ((first % 16 ≡ code_of kind) × (metadata % 32 ≡ fields)) }
    ensures kind { IfSome result (λ begun. begun.kind ≡ kind) }
    ensures fields { IfSome result (λ begun. begun.metadata ≡ fields) }
    ensures xy { IfSome result (λ begun. IsPrecision begun.xy) }
{
    let both = u16::from(first) + 256 * u16::from(metadata);
    if both & TYPE_AND_FIELDS != u16::from(kind.code()) + 256 * u16::from(fields) {
        return None;
    }
    Some(Begun {
        kind,
        xy: precision_of(first),
        metadata: fields,
        start: cursor.place() - 2,
    })
}

/// Reads the other fields of a header, after its first two bytes, and its box by `R`. A refusal leaves the cursor at the field that
/// is wrong, and the bytes looked at are counted.
#[inline(always)]
pub fn take_rest<R: RangeReader>(cursor: &mut Cursor, begun: Begun) -> Result<Fields, Malformed>
    requires { IsPrecision begun.xy }
    ensures read { (depth : ℕ) (before : Reading) → IsSound before → BeginsHead begun depth before cursor.old
        → ReadsHead depth before cursor.new result }
    ensures exact { (depth : ℕ) (before : Reading) → IsSound before → BeginsHead begun depth before cursor.old
        → IsOk result ↔ StartsWithHeader depth (rest before) }
    ensures axes { IfOk result (λ raw. HavePrecisions raw.axes) }
    ensures flat { has_bit begun.metadata 8 ≡ false → IfOk result (λ raw. (raw.axes.z ≡ None) × (raw.axes.m ≡ None)) }
    ensures empty { IfOk result (λ raw. raw.empty ≡ has_bit begun.metadata 16) }
    ensures no_box { has_bit begun.metadata 1 ≡ false → IfOk result (λ raw. raw.bounds ≡ None) }
    ensures boxed { has_bit begun.metadata 1 ≡ true → IfOk result (λ raw. IsSome raw.bounds) }
    ensures kind { IfOk result (λ raw. raw.kind ≡ begun.kind) }
    ensures zeros { IfOk result (λ raw. IfSome raw.bounds (HasZeros (is_some raw.axes.z) (is_some raw.axes.m))) }
{
    take_fields::<R>(cursor, begun)
}

/// The fields after the first two bytes, in order.
#[inline(always)]
#[tactic(auto, unfolding(crate::specs::Devices::HeadReader::rest_at))]
fn take_fields<R: RangeReader>(cursor: &mut Cursor, begun: Begun) -> Result<Fields, Malformed>
    requires xy { IsPrecision begun.xy }
    ensures read { rest_at begun.kind begun.xy begun.metadata begun.start cursor.old
        ≡ (head_result result, cursor.new) }
    ensures axes { IfOk result (λ raw. HavePrecisions raw.axes) }
    ensures flat { has_bit begun.metadata 8 ≡ false → IfOk result (λ raw. (raw.axes.z ≡ None) × (raw.axes.m ≡ None)) }
    ensures empty { IfOk result (λ raw. raw.empty ≡ has_bit begun.metadata 16) }
    ensures no_box { has_bit begun.metadata 1 ≡ false → IfOk result (λ raw. raw.bounds ≡ None) }
    ensures boxed { has_bit begun.metadata 1 ≡ true → IfOk result (λ raw. IsSome raw.bounds) }
    ensures kind { IfOk result (λ raw. raw.kind ≡ begun.kind) }
    ensures zeros { IfOk result (λ raw. IfSome raw.bounds (HasZeros (is_some raw.axes.z) (is_some raw.axes.m))) }
{
    let extended = take_extended(cursor, has_bit(begun.metadata, EXTENDED))?;
    take_size_and_box::<R>(cursor, begun, extended)
}

/// Reads the size and the box, and makes the header of all its fields.
#[inline(always)]
fn take_size_and_box<R: RangeReader>(
    cursor: &mut Cursor,
    begun: Begun,
    extended: Option<u8>,
) -> Result<Fields, Malformed>
    requires xy { IsPrecision begun.xy }
    ensures read { size_and_box_at begun.kind begun.xy begun.metadata begun.start extended cursor.old
        ≡ (head_result result, cursor.new) }
    ensures axes { IfOk result (λ raw. HavePrecisions raw.axes) }
    ensures flat { extended ≡ None → IfOk result (λ raw. (raw.axes.z ≡ None) × (raw.axes.m ≡ None)) }
    ensures empty { IfOk result (λ raw. raw.empty ≡ has_bit begun.metadata 16) }
    ensures no_box { has_bit begun.metadata 1 ≡ false → IfOk result (λ raw. raw.bounds ≡ None) }
    ensures boxed { has_bit begun.metadata 1 ≡ true → IfOk result (λ raw. IsSome raw.bounds) }
    ensures kind { IfOk result (λ raw. raw.kind ≡ begun.kind) }
    ensures zeros { IfOk result (λ raw. IfSome raw.bounds (HasZeros (is_some raw.axes.z) (is_some raw.axes.m))) }
{
    let z = z_of(extended);
    let m = m_of(extended);
    let size_place = cursor.place();
    let size = take_size(cursor, has_bit(begun.metadata, SIZE))?;
    let box_place = cursor.place();
    let bounds = take_box::<R>(
        cursor,
        has_bit(begun.metadata, BOX),
        z.is_some(),
        m.is_some(),
    )?;
    Ok(Fields {
        kind: begun.kind,
        axes: Axes { xy: begun.xy, z, m },
        size: size_field(size, size_place, box_place),
        bounds,
        box_place,
        ids: ids_of(begun.kind, begun.metadata),
        empty: has_bit(begun.metadata, EMPTY),
        start: begun.start,
        stop: cursor.place(),
    })
}

/// Reads the extended dimensions byte, if it is announced (TWKB specification, "Extended Dimensions").
#[inline(always)]
pub fn take_extended(cursor: &mut Cursor, announced: bool) -> Result<Option<u8>, Malformed>
    ensures { optional_at announced byte_at cursor.old ≡ (result, cursor.new) }
{
    if announced {
        Ok(Some(take_byte(cursor)?))
    } else {
        Ok(None)
    }
}

/// Reads the size, if it is announced (TWKB specification, "Size").
#[inline(always)]
pub fn take_size(cursor: &mut Cursor, announced: bool) -> Result<Option<u64>, Malformed>
    ensures { optional_at announced number_at cursor.old ≡ (result, cursor.new) }
{
    if announced {
        Ok(Some(take_number(cursor)?))
    } else {
        Ok(None)
    }
}

/// The size field of this value, with its place and the place after it, if there is a size.
#[inline(always)]
pub fn size_field(value: Option<u64>, offset: usize, after: usize) -> Option<SizeField>
    ensures { result ≡ option_map (λ value. record { value = value; offset = offset; after = after }) value }
{
    value.map(|value| SizeField {
        value,
        offset,
        after,
    })
}
