//! [`Passer`], the visitor that looks at nothing. Used by `headed`.

use crate::visit::Visit;
use twkb_head::{Axes, Bounds, RawBox, Vertex};

/// A visitor that looks at no vertex and skips every box. It is settled from the start, so points are passed without decoding their
/// numbers.
#[derive(Drop)]
pub struct Passer;

impl Visit for Passer {
    ghost use Rattle.std.specs.Prelude.{true, refl};

    ghost State = { Unit {0} };

    ghost state = { λ passer. tt };

    ghost step = { λ s v. s };

    ghost passes = { λ s b. true };

    ghost sound = { λ s b v passed holds. refl };

    #[inline(always)]
    fn point(&mut self, _v: &Vertex) {}

    #[inline(always)]
    fn skips(&self, _b: &Bounds) -> bool {
        true
    }

    #[inline(always)]
    fn skips_raw(&self, _axes: Axes, _b: &RawBox) -> bool {
        true
    }

    #[inline(always)]
    fn add_raw(&mut self, _axes: Axes, _point: &[i64; 4]) {}

    #[inline(always)]
    fn is_settled(&self) -> bool {
        true
    }
}
