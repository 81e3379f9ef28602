//! Visits of worked layers.
use super::worked::{EMPTY, HOP_IN_A_COLLECTION, TWO_BLOBS, TWO_RINGS};
use super::{certified, equal};
use twkb_body::Summary;
use twkb_layer::{Bounds, Vertex, Visit};

// Counts the vertices that it is shown, and skips every box. Its contract says nothing of the count.
#[derive(Drop)]
struct Counter {
    shown: usize,
}

impl Visit for Counter {
    ghost use Rattle.std.specs.Prelude.{true, refl};

    ghost State = { Unit {0} };

    ghost state = { λ s. tt };

    ghost step = { λ s v. s };

    ghost passes = { λ s b. true };

    ghost sound = { λ s b v e h. refl };

    fn point(&mut self, _v: &Vertex) {
        self.shown = self.shown.saturating_add(1);
    }

    fn skips(&self, _b: &Bounds) -> bool {
        true
    }
}

// A visitor that skips no box is shown all vertices, and all bytes are read.
#[test]
fn all_vertices_of_all_blobs(rt: HostRuntime) {
    let table: [(&[u8], usize); 4] = [
        (&EMPTY, 0),
        (&TWO_BLOBS, 3),
        (&HOP_IN_A_COLLECTION, 2),
        (&TWO_RINGS, 2),
    ];
    for (bytes, vertices) in table {
        let mut layer = certified(&rt, rt.alloc(), bytes);
        let before = layer.read_count();
        let mut summary = Summary::new();
        layer.visit(&mut summary);
        equal(&rt, summary.vertices(), vertices);
        equal(&rt, layer.read_count() - before, bytes.len() as u64);
        layer.visit(&mut summary);
        equal(&rt, summary.vertices(), 2 * vertices);
    }
}

// Only the 7 bytes of the header are read of a line with a size and a box, and all 8 bytes of a point without a size.
#[test]
fn a_visitor_that_skips_is_led_past(rt: HostRuntime) {
    let mut layer = certified(&rt, rt.alloc(), &TWO_BLOBS);
    let before = layer.read_count();
    let mut counter = Counter { shown: 0 };
    layer.visit(&mut counter);
    equal(&rt, counter.shown, 1);
    equal(&rt, layer.read_count() - before, 15u64);
}
