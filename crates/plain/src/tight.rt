//! Whether a box is loose.
use crate::reader::Axes;
use twkb_head::{Bounds, Span, Vertex};

/// One axis of a box, and whether some vertex is near its ends.
#[derive(Clone, Copy)]
struct Side {
    range: Span,
    step: i128,
    is_seen: bool,
    /// Whether some vertex is less than a step above the least end.
    is_low_near: bool,
    /// Whether some vertex is less than a step below the greatest end.
    is_high_near: bool,
}

impl Side {
    fn new(range: Span, precision: i8) -> Side {
        let mut step = 1i128;
        for _ in precision..7 {
            step = step.wrapping_mul(10);
        }
        Side {
            range,
            step,
            is_seen: false,
            is_low_near: false,
            is_high_near: false,
        }
    }

    fn see(&mut self, value: i128) {
        self.is_seen = true;
        self.is_low_near = self.is_low_near || value.wrapping_sub(self.range.lo) < self.step;
        self.is_high_near = self.is_high_near || self.range.hi.wrapping_sub(value) < self.step;
    }

    fn is_loose(&self) -> bool {
        self.is_seen && !(self.is_low_near && self.is_high_near)
    }
}

/// Whether a box is loose: whether, in an axis that the box and one of the vertices from this number on have, an end of
/// the box is a step or more away from all these vertices.
pub fn is_loose(bounds: &Bounds, axes: &Axes, vertices: &[Vertex], first: usize) -> bool {
    let mut x = Side::new(bounds.x, axes.xy);
    let mut y = Side::new(bounds.y, axes.xy);
    let mut z = side_if_both(bounds.z, axes.z);
    let mut m = side_if_both(bounds.m, axes.m);
    for vertex in vertices.iter().skip(first) {
        x.see(vertex.x);
        y.see(vertex.y);
        see_if_both(&mut z, vertex.z);
        see_if_both(&mut m, vertex.m);
    }
    x.is_loose() || y.is_loose() || is_there_and_loose(&z) || is_there_and_loose(&m)
}

fn side_if_both(range: Option<Span>, precision: Option<i8>) -> Option<Side> {
    match (range, precision) {
        (Some(range), Some(precision)) => Some(Side::new(range, precision)),
        _ => None,
    }
}

fn see_if_both(side: &mut Option<Side>, value: Option<i128>) {
    if let (Some(side), Some(value)) = (side, value) {
        side.see(value);
    }
}

fn is_there_and_loose(side: &Option<Side>) -> bool {
    match side {
        Some(side) => side.is_loose(),
        None => false,
    }
}
