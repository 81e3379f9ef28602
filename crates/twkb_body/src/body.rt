//! The body of a certified geometry that a step of a skim doesn't hop over: its points are shown, or its list of members is
//! opened. Used by `step`.
ghost use Rattle.std.specs.Prelude.{◌≡◌, false, true};
ghost use Rattle.twkb_head.specs.declared.kinds.Kind.TheVariants.{Point};
ghost use Rattle.twkb_head.specs.BegunHeader.{is_collection};
ghost use Rattle.twkb_num.specs.Units.{IsPrecision};
ghost use Rattle.twkb_head.specs.Raw.{HavePrecisions};
ghost use Rattle.twkb_body.specs.Devices.Skimmed.{IsBehind, IsThere, Enters, flat_axes};

use crate::lists::pass_list;
use crate::shape::visit_shape;
use crate::visit::Visit;
use twkb_head::{Axes, Head, Kind};
use twkb_num::Cursor;

/// Enters the body of a point of X and Y alone.
#[inline(always)]
pub fn enter_point<V: Visit>(cursor: &mut Cursor, xy: i8, visitor: &mut V) -> u64
    requires xy { IsPrecision xy }
    requires behind { IsThere (IsBehind (V.passes (V.state visitor.old)) Point (flat_axes xy) false cursor.old) }
    ensures entered { Enters V.step V.passes (IsBehind (V.passes (V.state visitor.old)) Point (flat_axes xy) false cursor.old)
        (V.state visitor.old) (V.state visitor.new) cursor.new result }
    ensures none { result ≡ 0 }
{
    cursor.place_is_within();
    let Ok(point) = cursor.svarints::<2>() else {
        unreachable!()
    };
    visitor.add_raw(Axes::flat(xy), &[point[0], point[1], 0, 0]);
    0
}

/// Enters a body of X and Y alone, without ids. Returns how many members follow: 0 if the geometry is no collection.
// It isn't inlined, so that a step which hops is small enough to be.
#[inline(never)]
pub fn enter_flat<V: Visit>(cursor: &mut Cursor, kind: Kind, xy: i8, visitor: &mut V) -> u64
    requires xy { IsPrecision xy }
    requires behind { IsThere (IsBehind (V.passes (V.state visitor.old)) kind (flat_axes xy) false cursor.old) }
    ensures { Enters V.step V.passes (IsBehind (V.passes (V.state visitor.old)) kind (flat_axes xy) false cursor.old)
        (V.state visitor.old) (V.state visitor.new) cursor.new result }
{
    if matches!(kind, Kind::Point) {
        return enter_point(cursor, xy, visitor);
    }
    enter_known_body(cursor, kind, Axes::flat(xy), false, visitor)
}

/// Enters a body of any axes. Returns how many members follow: 0 if the geometry is no collection.
#[inline(never)]
pub fn enter_body<V: Visit>(
    cursor: &mut Cursor,
    kind: Kind,
    axes: Axes,
    ids: bool,
    visitor: &mut V,
) -> u64
    requires axes { HavePrecisions axes }
    requires behind { IsThere (IsBehind (V.passes (V.state visitor.old)) kind axes ids cursor.old) }
    ensures { Enters V.step V.passes (IsBehind (V.passes (V.state visitor.old)) kind axes ids cursor.old)
        (V.state visitor.old) (V.state visitor.new) cursor.new result }
{
    enter_known_body(cursor, kind, axes, ids, visitor)
}

/// Enters the body of a geometry that isn't empty: shows its points, or opens its list of members.
#[inline(always)]
fn enter_known_body<V: Visit>(
    cursor: &mut Cursor,
    kind: Kind,
    axes: Axes,
    ids: bool,
    visitor: &mut V,
) -> u64
    requires axes { HavePrecisions axes }
    requires behind { IsThere (IsBehind (V.passes (V.state visitor.old)) kind axes ids cursor.old) }
    ensures { Enters V.step V.passes (IsBehind (V.passes (V.state visitor.old)) kind axes ids cursor.old)
        (V.state visitor.old) (V.state visitor.new) cursor.new result }
{
    let head = Head {
        kind,
        xy: axes.xy,
        z: axes.z,
        m: axes.m,
        size: None,
        bounds: None,
        ids,
        empty: false,
        start: 0,
        stop: 0,
    };
    if kind.is_collection() {
        return enter_list(cursor, kind, axes, ids, visitor);
    }
    visit_shape(cursor, &head, visitor);
    0
}

/// Opens the list of members of a collection.
#[inline(always)]
fn enter_list<V: Visit>(
    cursor: &mut Cursor,
    _kind: Kind,
    _axes: Axes,
    ids: bool,
    _visitor: &V,
) -> u64
    requires list { is_collection _kind ≡ true }
    requires behind { IsThere (IsBehind (V.passes (V.state _visitor.now)) _kind _axes ids cursor.old) }
    ensures { Enters V.step V.passes (IsBehind (V.passes (V.state _visitor.now)) _kind _axes ids cursor.old)
        (V.state _visitor.now) (V.state _visitor.now) cursor.new result }
{
    let Ok(count) = pass_list(cursor, ids) else {
        unreachable!()
    };
    count
}
