//! Certified blobs whose headers are handed back, each read once. Used by other crates.
ghost use Rattle.std.specs.Prelude.{◌≡◌, ◌+◌, ◌≤◌, IfSome, fold, is_some};
ghost use Rattle.twkb_num.specs.Cursor.{Reading, added};
ghost use Rattle.twkb_head.specs.Raw.{HasZeros, HavePrecisions, head_said};
ghost use Rattle.twkb_body.specs.Geometry.{Geometry, lengths_of, vertices};
ghost use Rattle.twkb_body.specs.Standing.{StandsAt, head_standing};
ghost use Rattle.twkb_body.specs.Devices.Skimmed.{HasPassed, HasRead, skimmed};
ghost use Rattle.twkb_body.specs.Visit.{walk, bytes_to_pass};

use crate::passer::Passer;
use crate::skimming::skim_members;
use crate::step::enter_headed;
use crate::visit::Visit;
use twkb_head::{BoxCalled, BoxInlined, Fields, begin_head, take_rest};
use twkb_num::Cursor;

/// Shows the vertices of the certified blob at the place to a visitor, as [`skim`](crate::skim) does, and returns its header.
#[inline(always)]
pub fn read_and_skim<V: Visit>(cursor: &mut Cursor, visitor: &mut V) -> Fields
    requires { (g : Geometry) × StandsAt g 1 cursor.old.bytes cursor.old.place }
    ensures header { (g : Geometry) → StandsAt g 1 cursor.old.bytes cursor.old.place
        → head_said result ≡ head_standing g cursor.old.place }
    ensures axes { HavePrecisions result.axes }
    ensures zeros { IfSome result.bounds (HasZeros (is_some result.axes.z) (is_some result.axes.m)) }
    ensures cursor { (g : Geometry) → StandsAt g 1 cursor.old.bytes cursor.old.place → cursor.new ≡ record {
      bytes = cursor.old.bytes;
      place = cursor.old.place + (lengths_of g).whole;
      count = added cursor.old.count (walk g V.State V.step V.passes (V.state visitor.old));
    } }
    ensures visitor { (g : Geometry) → StandsAt g 1 cursor.old.bytes cursor.old.place
        → V.state visitor.new ≡ fold V.step (V.state visitor.old) (vertices g) }
{
    let raw = take_header(cursor);
    skim_headed(cursor, raw, visitor);
    raw
}

/// Moves past the certified blob at the place, and returns its header.
///
/// Of a blob with a size it reads the header, once, and nothing else. In any other blob it passes numbers without decoding them,
/// and hops over members that have a size and a box.
#[inline(always)]
pub fn read_and_pass(cursor: &mut Cursor) -> Fields
    requires { (g : Geometry) × StandsAt g 1 cursor.old.bytes cursor.old.place }
    ensures header { (g : Geometry) → StandsAt g 1 cursor.old.bytes cursor.old.place
        → head_said result ≡ head_standing g cursor.old.place }
    ensures axes { HavePrecisions result.axes }
    ensures zeros { IfSome result.bounds (HasZeros (is_some result.axes.z) (is_some result.axes.m)) }
    ensures bytes { cursor.new.bytes ≡ cursor.old.bytes }
    ensures place { (g : Geometry) → StandsAt g 1 cursor.old.bytes cursor.old.place
        → cursor.new.place ≡ cursor.old.place + (lengths_of g).whole }
    ensures count { (g : Geometry) → StandsAt g 1 cursor.old.bytes cursor.old.place
        → cursor.new.count ≡ added cursor.old.count (bytes_to_pass g) }
    ensures once { (g : Geometry) → StandsAt g 1 cursor.old.bytes cursor.old.place
        → bytes_to_pass g ≤ (lengths_of g).whole }
{
    let header = take_header(cursor);
    pass_headed(cursor, header);
    header
}

/// Moves past a certified blob whose header was read.
#[inline(always)]
fn pass_headed(cursor: &mut Cursor, header: Fields)
    requires axes { HavePrecisions header.axes }
    requires read { (g : Geometry) × (before : Reading) × HasRead header cursor.old g 1 before }
    ensures { (g : Geometry) (before : Reading) → HasRead header cursor.old g 1 before
        → HasPassed header cursor.new g before }
{
    match header.size {
        Some(size) => cursor.go_to(size.after + size.value as usize),
        None => skim_headed(cursor, header, &mut Passer),
    }
}

/// Reads the header at the place of a certified blob.
#[inline(always)]
fn take_header(cursor: &mut Cursor) -> Fields
    requires { (g : Geometry) × StandsAt g 1 cursor.old.bytes cursor.old.place }
    ensures read { (g : Geometry) → StandsAt g 1 cursor.old.bytes cursor.old.place
        → HasRead result cursor.new g 1 cursor.old }
    ensures axes { HavePrecisions result.axes }
    ensures zeros { IfSome result.bounds (HasZeros (is_some result.axes.z) (is_some result.axes.m)) }
{
    cursor.place_is_within();
    let Some(begun) = begin_head(cursor, 1) else {
        unreachable!()
    };
    // Most headers are of the first two kinds: there the compiler knows which fields there are.
    if begun.is_flat_boxed() {
        let Ok(header) = take_rest::<BoxInlined>(cursor, begun.announcing(3)) else {
            unreachable!()
        };
        return header;
    }
    if begun.is_sized_point() {
        let Ok(header) = take_rest::<BoxCalled>(cursor, begun.announcing(2)) else {
            unreachable!()
        };
        return header;
    }
    let Ok(header) = take_rest::<BoxCalled>(cursor, begun) else {
        unreachable!()
    };
    header
}

/// Shows the vertices of a certified blob to a visitor, after its header.
#[inline(always)]
fn skim_headed<V: Visit>(cursor: &mut Cursor, raw: Fields, visitor: &mut V)
    requires axes { HavePrecisions raw.axes }
    requires read { (g : Geometry) × (before : Reading) × HasRead raw cursor.old g 1 before }
    ensures { (g : Geometry) (before : Reading) → HasRead raw cursor.old g 1 before →
        record { reading = cursor.new; state = V.state visitor.new }
        ≡ skimmed V.step V.passes g (record { reading = before; state = V.state visitor.old }) }
{
    let members = enter_headed(cursor, &raw, visitor);
    if members > 0 {
        skim_members(cursor, visitor, members);
    }
}
