//! One step of a skim: past the header of a certified geometry, which is then hopped over, read whole or opened.
//! Used by `headed` and `skimming`.
ghost use Rattle.std.specs.Prelude.{◌≡◌, ℕ, ◌+◌, ◌<◌, ◌^◌, true, None, IfSome, option_map};
ghost use Rattle.twkb_num.specs.Units.{IsPrecision};
ghost use Rattle.twkb_head.specs.declared.kinds.Kind.TheVariants.{Point};
ghost use Rattle.twkb_body.specs.Geometry.{Geometry};
ghost use Rattle.twkb_head.specs.declared.raw.RawRange.{RawRange};
ghost use Rattle.twkb_body.specs.Devices.Known.{HasFlatBox};
ghost use Rattle.twkb_body.specs.Devices.Skimmed.{hop_of, Entered, HasCome, HasRead, IsThere, Enters};
ghost use Rattle.twkb_head.specs.Raw.{HavePrecisions, head_said, flat_box, raw_bounds, IsNear};
ghost use Rattle.twkb_body.specs.Standing.{StandsAt};

use crate::body::{enter_body, enter_flat, enter_point};
use crate::known::two_ranges;
use crate::varints::take_number;
use crate::visit::Visit;
use twkb_head::{
    Axes, Begun, BoxCalled, BoxInlined, Fields, Kind, RawBox, RawRange, begun_as, begun_by,
    take_rest,
};
use twkb_num::Cursor;

/// Reads a header and then the points after it, or the list of members up to the first, or jumps over all of them. It returns
/// how many members follow.
#[inline(always)]
pub fn enter<V: Visit>(cursor: &mut Cursor, visitor: &mut V) -> u64
    requires { (g : Geometry) × (depth : ℕ) × StandsAt g depth cursor.old.bytes cursor.old.place }
    ensures { (g : Geometry) (depth : ℕ) → StandsAt g depth cursor.old.bytes cursor.old.place →
        Entered V.step V.passes g depth (record { reading = cursor.old; state = V.state visitor.old })
        (record { reading = cursor.new; state = V.state visitor.new }) result }
{
    cursor.place_is_within();
    // A certified geometry has an allowed depth, so its header may be read as one at depth 1, where each kind is allowed.
    let Some((first, metadata)) = cursor.two_bytes() else {
        unreachable!()
    };
    // Most points and most boxes go through these two branches, which know the fields.
    if let Some(point) = begun_as(cursor, Kind::Point, 2, first, metadata) {
        return enter_sized_point(cursor, point, visitor);
    }
    let Some(begun) = begun_by(cursor, 1, first, metadata) else {
        unreachable!()
    };
    if begun.is_flat_boxed() {
        return enter_boxed(cursor, begun.announcing(3), visitor);
    }
    enter_apart(
        cursor,
        begun.kind,
        begun.xy,
        begun.metadata,
        begun.start,
        visitor,
    )
}

/// Enters a geometry whose header begins with these fields.
// It isn't inlined, and takes no struct, so that a step which hops writes none to memory.
#[inline(never)]
fn enter_apart<V: Visit>(
    cursor: &mut Cursor,
    kind: Kind,
    xy: i8,
    metadata: u8,
    start: usize,
    visitor: &mut V,
) -> u64
    requires xy { IsPrecision xy }
    requires come { IsThere (HasCome (record { kind = kind; xy = xy; metadata = metadata; start = start }) cursor.old) }
    ensures { Enters V.step V.passes
        (HasCome (record { kind = kind; xy = xy; metadata = metadata; start = start }) cursor.old)
        (V.state visitor.old) (V.state visitor.new) cursor.new result }
{
    let begun = Begun {
        kind,
        xy,
        metadata,
        start,
    };
    enter_begun(cursor, begun, visitor)
}

/// Enters a geometry whose first two bytes were read.
#[inline(always)]
fn enter_begun<V: Visit>(cursor: &mut Cursor, begun: Begun, visitor: &mut V) -> u64
    requires xy { IsPrecision begun.xy }
    requires come { IsThere (HasCome begun cursor.old) }
    ensures { Enters V.step V.passes (HasCome begun cursor.old)
        (V.state visitor.old) (V.state visitor.new) cursor.new result }
{
    // Of these, most have Z or M, a size and a box: there the compiler knows which fields there are.
    if begun.is_further_boxed() {
        let Ok(raw) = take_rest::<BoxInlined>(cursor, begun.announcing(11)) else {
            unreachable!()
        };
        return enter_headed(cursor, &raw, visitor);
    }
    let Ok(raw) = take_rest::<BoxCalled>(cursor, begun) else {
        unreachable!()
    };
    enter_headed(cursor, &raw, visitor)
}

/// Enters a point that has a size, and no other field. The next geometry begins where the size says, which is known before the
/// numbers are read.
#[inline(always)]
fn enter_sized_point<V: Visit>(cursor: &mut Cursor, begun: Begun, visitor: &mut V) -> u64
    requires xy { IsPrecision begun.xy }
    requires kind { begun.kind ≡ Point }
    requires sized { begun.metadata ≡ 2 }
    requires come { IsThere (HasCome begun cursor.old) }
    ensures { Enters V.step V.passes (HasCome begun cursor.old)
        (V.state visitor.old) (V.state visitor.new) cursor.new result }
{
    let Ok(size) = take_number(cursor) else {
        unreachable!()
    };
    let stop = cursor.place() + size as usize;
    let members = enter_point(cursor, begun.xy, visitor);
    cursor.go_on_from(stop);
    members
}

/// Enters a geometry whose header was read. If no members are left to read, and there is a size, the place is set to the end that the
/// size says, as in [`enter_sized_point`].
#[inline(always)]
pub fn enter_headed<V: Visit>(cursor: &mut Cursor, raw: &Fields, visitor: &mut V) -> u64
    requires axes { HavePrecisions raw.now.axes }
    requires come { IsThere (HasRead raw.now cursor.old) }
    ensures { Enters V.step V.passes (HasRead raw.now cursor.old)
        (V.state visitor.old) (V.state visitor.new) cursor.new result }
{
    let stop = end_by_size(raw);
    let members = enter_after_header(cursor, raw, visitor);
    go_on_after(cursor, members, stop);
    members
}

/// The end that the size of a certified geometry says, if it has a size.
#[inline(always)]
fn end_by_size(raw: &Fields) -> Option<usize>
    requires { IfSome raw.now.size (λ size. size.after + size.value < 2 ^ 64) }
    ensures { result ≡ option_map (λ size. size.after + size.value) raw.now.size }
{
    let size = raw.size?;
    Some(size.after + size.value as usize)
}

/// Goes on after a geometry with `members` members still to be read. If there are none, the place is the geometry's end, and is set to
/// `stop`, the end that its size says, which was known earlier ([`Cursor::go_on_from`]).
#[inline(always)]
fn go_on_after(cursor: &mut Cursor, members: u64, stop: Option<usize>)
    requires { members ≡ 0 → IfSome stop (λ stop. stop ≡ cursor.old.place) }
    ensures { cursor.new ≡ cursor.old }
{
    match stop {
        Some(stop) if members == 0 => cursor.go_on_from(stop),
        _ => {}
    }
}

/// Enters a geometry whose header was read, up to its first member.
#[inline(always)]
fn enter_after_header<V: Visit>(cursor: &mut Cursor, raw: &Fields, visitor: &mut V) -> u64
    requires axes { HavePrecisions raw.now.axes }
    requires come { IsThere (HasRead raw.now cursor.old) }
    ensures { Enters V.step V.passes (HasRead raw.now cursor.old)
        (V.state visitor.old) (V.state visitor.new) cursor.new result }
{
    if let Some(stop) = hop(raw, visitor) {
        cursor.go_to(stop);
        return 0;
    }
    if raw.empty {
        return 0;
    }
    enter_body(cursor, raw.kind, raw.axes, raw.ids, visitor)
}

/// The end of the geometry, if it has a size and a box that the visitor skips.
#[inline(always)]
fn hop<V: Visit>(raw: &Fields, visitor: &V) -> Option<usize>
    requires axes { HavePrecisions raw.now.axes }
    requires fits { IfSome raw.now.size (λ size. size.after + size.value < 2 ^ 64) }
    ensures { result ≡ hop_of (V.passes (V.state visitor.now)) (head_said raw.now).size (head_said raw.now).bounds }
{
    let end = end_by_size(raw)?;
    match &raw.bounds {
        Some(bounds) if skips(visitor, raw.axes, bounds) => Some(end),
        _ => None,
    }
}

/// Whether the visitor skips a box. It is asked in raw numbers if they are near zero, and otherwise in units.
#[inline(always)]
fn skips<V: Visit>(visitor: &V, axes: Axes, b: &RawBox) -> bool
    requires { HavePrecisions axes }
    ensures { result ≡ V.passes (V.state visitor.now) (raw_bounds axes.xy axes.z axes.m b.now) }
{
    if b.is_near() {
        visitor.skips_raw(axes, b)
    } else {
        visitor.skips(&b.in_units(axes))
    }
}

/// Enters a geometry that has a size and a box in X and Y, and no other field. If no members are left to read, the place is set to the
/// end that the size says, as in [`enter_sized_point`].
#[inline(always)]
fn enter_boxed<V: Visit>(cursor: &mut Cursor, begun: Begun, visitor: &mut V) -> u64
    requires xy { IsPrecision begun.xy }
    requires boxed { begun.metadata ≡ 3 }
    requires come { IsThere (HasCome begun cursor.old) }
    ensures { Enters V.step V.passes (HasCome begun cursor.old)
        (V.state visitor.old) (V.state visitor.new) cursor.new result }
{
    let Ok(size) = take_number(cursor) else {
        unreachable!()
    };
    let stop = cursor.place() + size as usize;
    let (x, y) = two_ranges(cursor);
    if skips_flat(visitor, begun.xy, x, y) {
        cursor.go_to(stop);
        return 0;
    }
    let members = enter_flat(cursor, begun.kind, begun.xy, visitor);
    go_on_after(cursor, members, Some(stop));
    members
}

/// Whether the visitor skips a box in X and Y. It is asked in raw numbers if they are near zero, and otherwise in units.
#[inline(always)]
fn skips_flat<V: Visit>(visitor: &V, xy: i8, x: RawRange, y: RawRange) -> bool
    requires { IsPrecision xy }
    ensures { result ≡ V.passes (V.state visitor.now) (raw_bounds xy None None (flat_box x y)) }
{
    if x.is_near() && y.is_near() {
        visitor.skips_raw(Axes::flat(xy), &RawBox::flat(x, y))
    } else {
        skips_far(visitor, xy, x, y)
    }
}

/// Whether the visitor skips a box in X and Y of any numbers.
#[inline(never)]
fn skips_far<V: Visit>(visitor: &V, xy: i8, x: RawRange, y: RawRange) -> bool
    requires { IsPrecision xy }
    ensures { result ≡ V.passes (V.state visitor.now) (raw_bounds xy None None (flat_box x y)) }
{
    visitor.skips(&RawBox::flat(x, y).in_units(Axes::flat(xy)))
}
