//! The points under one header as vertices. Used by other crates, and here by `visit`.
ghost use Rattle.std.specs.Prelude.{◌≡◌, ◌≤◌, IfSome, pos, option_map};
ghost use Rattle.twkb_num.specs.Units.{IsPrecision, units_of};
ghost use Rattle.twkb_head.specs.Raw.{HavePrecisions};
ghost use Rattle.twkb_body.specs.Geometry.{vertex_at};

use twkb_head::{Axes, Vertex};
use twkb_num::units;

/// The vertex that a point in raw integers is, by the precisions of its header.
#[inline(always)]
pub fn vertex_at(axes: Axes, point: &[i64; 4]) -> Vertex
    requires { HavePrecisions axes }
    ensures { result ≡ vertex_at axes point.now }
{
    Vertex {
        x: scaled(point[0], axes.xy),
        y: scaled(point[1], axes.xy),
        z: coordinate_at(point[2], axes.z),
        m: coordinate_at(point[axes.m_axis()], axes.m),
    }
}

/// A coordinate in units.
#[inline(always)]
fn scaled(coordinate: i64, precision: i8) -> i128
    requires { IsPrecision precision }
    ensures { result ≡ units_of coordinate precision }
{
    units(i128::from(coordinate), precision)
}

/// A coordinate of an axis in units, if the axis has a precision.
#[inline(always)]
fn coordinate_at(coordinate: i64, precision: Option<u8>) -> Option<i128>
    requires { IfSome precision (λ p. p ≤ 7) }
    ensures { result ≡ option_map (λ p. units_of coordinate (pos p)) precision }
{
    match precision {
        Some(precision) => Some(scaled(coordinate, precision as i8)),
        None => None,
    }
}
