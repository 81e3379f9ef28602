//! X and Y of the vertices of layers, put into memory that the caller lends. `twkb_web` exports it, for a page that draws the layer.
//! Used by other crates.
ghost use Rattle.std.specs.Prelude.{◌≡◌, map};
ghost use Rattle.twkb_layer.specs.Hits.{filled};
ghost use Rattle.twkb_layer.specs.Layer.{IsCounted, OfLayer, vertex_count};
ghost use Rattle.twkb_layer.specs.Vertices.{all_vertices};
ghost use Rattle.twkb_call.specs.Vertices.{point_of};
ghost use Rattle.twkb_call.specs.Devices.Drawing.{drawing_of, draws, never};

use crate::layer::Layer;
use crate::window::Units;
use twkb_layer::{Bounds, Vertex, Visit};

/// X and Y of a vertex, in units.
#[repr(C)]
#[derive(Clone, Copy, Debug, PartialEq, Eq)]
pub struct Point {
    pub x: Units,
    pub y: Units,
}

const SIZE: usize = std::mem::size_of::<Point>();

const _: () = prove!(SIZE == 32);

impl Point {
    /// A vertex without Z and M.
    fn of(v: &Vertex) -> Point
        ensures { result ≡ point_of v.now }
    {
        Point {
            x: Units::of(v.x),
            y: Units::of(v.y),
        }
    }
}

/// The room that is filled with points, and how many it holds.
struct Pen<'a> {
    room: &'a mut [Point],
    drawn: usize,
}

impl Drop for Pen<'_> {
    fn drop(self)
        ensures { self.exit.0.now ≡ self.entry.room.now }
    {
        let Self { room: _, drawn: _ } = self;
    }
}

impl<'a> Visit for Pen<'a> {
    ghost use Rattle.twkb_body.specs.Shared.Skipping.{never_skips};
    ghost use Rattle.twkb_call.specs.Devices.Drawing.{Drawing, drawing_of, draws, never};

    ghost State = { Drawing };

    ghost state = { drawing_of };

    ghost step = { draws };

    ghost passes = { never };

    ghost sound = { never_skips draws };

    /// Draws a vertex, if there is room for it.
    #[inline(always)]
    fn point(&mut self, v: &Vertex) {
        if self.drawn < self.room.len() {
            self.room[self.drawn] = Point::of(v);
            self.drawn += 1;
        }
    }

    #[inline(always)]
    fn skips(&self, _b: &Bounds) -> bool {
        false
    }
}

/// Writes X and Y of each vertex to `room`, in reading order, as many as fit, and returns how many vertices there are.
pub fn draw(layer: &Layer, room: &mut [Point]) -> usize
    requires { IsCounted layer.now.bytes.now layer.now.blobs layer.now.vertices }
    ensures answer { OfLayer layer.now.bytes.now (λ trees. result ≡ vertex_count trees) }
    ensures room { OfLayer layer.now.bytes.now (λ trees.
        room.new ≡ filled (map point_of (all_vertices trees)) room.old) }
{
    let mut certified = layer.as_certified();
    let mut pen = Pen { room, drawn: 0 };
    certified.visit(&mut pen);
    certified.vertices()
}
