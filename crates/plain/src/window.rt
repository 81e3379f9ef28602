//! Which vertices are inside a window, and which boxes miss it.
use twkb_head::{Bounds, Span, Vertex};

/// Whether the vertex has each axis that the window bounds, and is in its range.
pub fn is_inside(vertex: &Vertex, window: &Bounds) -> bool {
    is_in(vertex.x, &window.x)
        && is_in(vertex.y, &window.y)
        && is_in_bound(vertex.z, window.z)
        && is_in_bound(vertex.m, window.m)
}

fn is_in_bound(value: Option<i128>, bound: Option<Span>) -> bool {
    match bound {
        None => true,
        Some(bound) => match value {
            None => false,
            Some(value) => is_in(value, &bound),
        },
    }
}

fn is_in(value: i128, range: &Span) -> bool {
    value >= range.lo && value <= range.hi
}

/// Whether the box holds the vertex, in the axes that both have.
pub fn is_held(vertex: &Vertex, bounds: &Bounds) -> bool {
    is_in(vertex.x, &bounds.x)
        && is_in(vertex.y, &bounds.y)
        && is_held_in(vertex.z, bounds.z)
        && is_held_in(vertex.m, bounds.m)
}

fn is_held_in(value: Option<i128>, range: Option<Span>) -> bool {
    match (value, range) {
        (Some(value), Some(range)) => is_in(value, &range),
        _ => true,
    }
}

/// Whether the box lies below or above the window in some axis that both have.
pub fn is_missed(bounds: &Bounds, window: &Bounds) -> bool {
    is_apart(&bounds.x, &window.x)
        || is_apart(&bounds.y, &window.y)
        || is_apart_if_both(bounds.z, window.z)
        || is_apart_if_both(bounds.m, window.m)
}

/// Whether the box and the window meet only at their ends, in X or in Y: one ends where the other begins.
pub fn touches(bounds: &Bounds, window: &Bounds) -> bool {
    bounds.x.hi == window.x.lo
        || window.x.hi == bounds.x.lo
        || bounds.y.hi == window.y.lo
        || window.y.hi == bounds.y.lo
}

fn is_apart_if_both(range: Option<Span>, bound: Option<Span>) -> bool {
    match (range, bound) {
        (Some(range), Some(bound)) => is_apart(&range, &bound),
        _ => false,
    }
}

fn is_apart(range: &Span, bound: &Span) -> bool {
    range.hi < bound.lo || range.lo > bound.hi
}
