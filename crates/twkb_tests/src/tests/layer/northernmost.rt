//! The visitor that the page of `Visit` shows.
use super::worked::{HOP_IN_A_COLLECTION, TWO_BLOBS};
use super::{certified, equal};
use std::alloc::Global;
use std::process::Abort;
use twkb_layer::{Bounds, Vertex, Visit};

/// The greatest Y seen, in units.
#[derive(Drop)]
struct Northernmost {
    y: i128,
}

impl Visit for Northernmost {
    ghost use Rattle.std.specs.Prelude.{ℤ, int_le};
    ghost use Rattle.std.specs.Int.{int_max};
    ghost use Rattle.std.proofs.Common.{arith};
    ghost use Rattle.std.proofs.lemmas.Int.{ints, clamps};

    ghost State = { ℤ };

    ghost state = { λ s. s.y };

    ghost step = { λ y v. int_max y v.y };

    ghost passes = { λ y b. int_le b.y.hi y };

    ghost sound = { λ y b v passed holds. Prim.omega (arith, ints, clamps, passed, holds.y.0, holds.y.1) };

    fn point(&mut self, v: &Vertex) {
        self.y = self.y.max(v.y);
    }

    fn skips(&self, b: &Bounds) -> bool {
        b.y.hi <= self.y
    }
}

/// Finds the greatest Y of a layer's vertices, or `least` if all are below it, and checks how many bytes were read.
fn found(rt: &impl Abort, alloc: Global, bytes: &[u8], least: i128, greatest: i128, read: u64) {
    let mut layer = certified(rt, alloc, bytes);
    let before = layer.read_count();
    let mut visitor = Northernmost { y: least };
    layer.visit(&mut visitor);
    equal(rt, visitor.y, greatest);
    equal(rt, layer.read_count() - before, read);
}

// A line from (1, 1) to (5, 5) with a size and a box, and a point (10, 10) with a box and no size.
#[test]
fn all_is_read_where_no_box_is_low(rt: HostRuntime) {
    found(&rt, rt.alloc(), &TWO_BLOBS, i128::MIN, 100_000_000, 20);
}

#[test]
fn a_line_that_is_low_is_led_past(rt: HostRuntime) {
    found(&rt, rt.alloc(), &TWO_BLOBS, 50_000_000, 100_000_000, 15);
}

// A member with a size and a box at (10, 10), and a point (1, 2).
#[test]
fn a_member_that_is_low_is_led_past(rt: HostRuntime) {
    found(
        &rt,
        rt.alloc(),
        &HOP_IN_A_COLLECTION,
        100_000_000,
        100_000_000,
        14,
    );
}
