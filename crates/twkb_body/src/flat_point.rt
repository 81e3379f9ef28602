//! The audit of a point of X and Y without a box, which claims at most a size. Its coordinates are the two numbers, so nothing is
//! summed up. Used by `auditing`.
ghost use Rattle.std.specs.Prelude.{◌≡◌, ◌+◌, ◌%◌, ◌^◌, ◌⊎◌, ◌++◌, true, false, Some, ℕ, List, Bool, IfNone, IfSome};
ghost use Rattle.twkb_num.specs.Cursor.{Reading, rest, IsSound};
ghost use Rattle.twkb_num.specs.Units.{IsPrecision};
ghost use Rattle.twkb_head.specs.declared.kinds.Kind.TheVariants.{Point};
ghost use Rattle.twkb_head.specs.declared.header.SizeField.{SizeField as SizeFieldOf};
ghost use Rattle.twkb_head.specs.Raw.{BeginsHead};
ghost use Rattle.twkb_body.specs.Geometry.{Geometry};
ghost use Rattle.twkb_body.specs.Encoding.{Blob};
ghost use Rattle.twkb_body.specs.Devices.FlatPoint.{IsFlatPoint, IsOnePoint};
ghost use Rattle.twkb_body.specs.Devices.Stops.{AreRead};
ghost use Rattle.twkb_body.specs.Devices.Tight.{IsCertifiedBy};

use crate::found::judge_size;
use twkb_head::{Begun, BoxCalled, Kind, SizeField, begun_as, take_rest};
use twkb_num::Cursor;

/// The bit of a metadata byte for a size.
const SIZE: u8 = 2;

/// Moves past such a point, after the first two bytes of its header, and returns whether it is certified. If it isn't, the cursor is at
/// some place. Of another blob nothing is read, and the result is `None`.
#[inline(always)]
pub fn pass_flat_point(cursor: &mut Cursor, first: u8, metadata: u8) -> Option<bool>
    requires read { (before : Reading) × AreRead first metadata before cursor.old }
    ensures certified { result ≡ Some true → (before : Reading) → AreRead first metadata before cursor.old
        → (tight : Bool) → IsOnePoint tight before cursor.new }
    ensures refused { result ≡ Some false → (before : Reading) → AreRead first metadata before cursor.old
        → (tight : Bool) (g : Geometry) (front behind : List ℕ) → rest before ≡ front ++ behind → Blob g front 1
        → IsCertifiedBy tight g → ⊥ }
    ensures none { IfNone result (cursor.new ≡ cursor.old) }
    ensures bytes { cursor.new.bytes ≡ cursor.old.bytes }
{
    cursor.place_is_within();
    // Two calls, so that the compiler knows in each which fields there are.
    if let Some(begun) = begun_as(cursor, Kind::Point, SIZE, first, metadata) {
        return Some(pass_point(cursor, begun));
    }
    if let Some(begun) = begun_as(cursor, Kind::Point, 0, first, metadata) {
        return Some(pass_point(cursor, begun));
    }
    None
}

/// Moves past the point whose header has begun, as [`pass_flat_point`] does.
#[inline(always)]
fn pass_point(cursor: &mut Cursor, begun: Begun) -> bool
    requires point { IsFlatPoint begun }
    requires begun { (before : Reading) × IsSound before × BeginsHead begun 1 before cursor.old }
    ensures certified { result ≡ true → (before : Reading) → IsSound before → BeginsHead begun 1 before cursor.old
        → (tight : Bool) → IsOnePoint tight before cursor.new }
    ensures refused { result ≡ false → (before : Reading) → IsSound before → BeginsHead begun 1 before cursor.old
        → (tight : Bool) (g : Geometry) (front behind : List ℕ) → rest before ≡ front ++ behind → Blob g front 1
        → IsCertifiedBy tight g → ⊥ }
    ensures bytes { cursor.new.bytes ≡ cursor.old.bytes }
{
    let Ok(raw) = take_rest::<BoxCalled>(cursor, begun) else {
        return false;
    };
    cursor.place_is_within();
    let end = claimed_end(raw.size);
    let Ok(_point) = cursor.svarints::<2>() else {
        return false;
    };
    if judge_size(raw.size, cursor.place()).is_some() {
        return false;
    }
    go_on_from_end(cursor, raw.size, end);
    true
}

/// Sets the place to the end that a true size claims, which was known before the numbers were read ([`Cursor::go_on_from`]).
#[inline(always)]
fn go_on_from_end(cursor: &mut Cursor, size: Option<SizeField>, end: usize)
    requires { IfSome size (λ size. end ≡ cursor.old.place) }
    ensures { cursor.new ≡ cursor.old }
{
    if size.is_some() {
        cursor.go_on_from(end);
    }
}

/// The end that a size claims, if there is one. A sum beyond 64 bits wraps.
#[inline(always)]
fn claimed_end(size: Option<SizeField>) -> usize
    ensures { (field : SizeFieldOf) → size ≡ Some field → result ≡ (field.after + field.value) % 2 ^ 64 }
{
    match size {
        Some(size) => size.after.wrapping_add(size.value as usize),
        None => 0,
    }
}
