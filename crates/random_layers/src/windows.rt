//! [`window`], a window made at random near a place.
use crate::dice::Dice;
use twkb_head::{Bounds, Span, Vertex};

/// A window at this place or not far from it, in each axis by itself. It bounds X and Y, and now and then Z or M.
pub fn window(dice: &mut Dice, near: &Vertex) -> Bounds {
    let x = range(dice, near.x);
    let y = range(dice, near.y);
    let z = range_now_and_then(dice, near.z);
    let m = range_now_and_then(dice, near.m);
    Bounds { x, y, z, m }
}

fn range_now_and_then(dice: &mut Dice, near: Option<i128>) -> Option<Span> {
    let range = range(dice, near.unwrap_or(0));
    if dice.once_in(5) { Some(range) } else { None }
}

// A range from the place, up to it, about it, or the place alone; beside it by one unit; of everything; or upside down.
fn range(dice: &mut Dice, near: i128) -> Span {
    let below = far(dice);
    let above = far(dice);
    let (lo, hi) = match dice.below(12) {
        0 | 1 => (0, 0),
        2 | 3 => (0, above),
        4 | 5 => (below, 0),
        6 => (-1, above),
        7 => (below, -1),
        8 => (i128::MAX, i128::MAX),
        9 if dice.once_in(4) => (-1 - above, below),
        _ => (below, above),
    };
    Span {
        lo: near.saturating_sub(lo),
        hi: near.saturating_add(hi),
    }
}

// Up to ten coordinate units.
fn far(dice: &mut Dice) -> i128 {
    i128::from(dice.below(100_000_000))
}
