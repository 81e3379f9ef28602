//! The loop over the blobs of a certified layer, which scans, lists, directories and visits share.
//! Used by `certified`, `placing`, `row` and `scans`.
ghost use Rattle.std.specs.Prelude.{◌≡◌, ℕ, ◌+◌, ◌≤◌, nat_lt, ◌&&◌, List, length};
ghost use Rattle.twkb_num.specs.Cursor.{added};
ghost use Rattle.twkb_body.specs.Geometry.{Geometry};
ghost use Rattle.twkb_body.specs.Standing.{StandsAt};
ghost use Rattle.twkb_layer.specs.Layer.{IsCertifiedLayer, AddsAtMost, OfLayer, size_of};
ghost use Rattle.twkb_layer.specs.Devices.Layer.{OfBlob, past_blob};
ghost use Rattle.twkb_layer.specs.Devices.EachBlob.{is_among, first_blobs, after_blobs, bytes_read};

use twkb_num::{Cursor, Prefetch};

/// What [`for_each_blob`] does at each blob of a layer.
pub trait EachBlob {
    /// The type of the state, which blobs change.
    ghost State: { Type 0 };

    /// The state of a value.
    ghost state: { Self → State };

    /// The state after a blob: `step state number offset tree`.
    ghost step: { State → ℕ → ℕ → Geometry → State };

    /// How many bytes are read of a blob, in a state.
    ghost reads: { State → Geometry → ℕ };

    /// There is room for `many` blobs more, the first of which has the number: `fits self number many`.
    ghost fits: { Self → ℕ → ℕ → Type 0 };

    /// What a value has kept of what it was before `many` blobs: `keeps before many self`.
    ghost keeps: { Self → ℕ → Self → Type 0 };

    /// Reads the blob at the place, which has this number, and moves past it.
    fn take_blob(&mut self, cursor: &mut Cursor, blob: usize)
        requires stands { (g : Geometry) × StandsAt g 1 cursor.old.bytes cursor.old.place }
        requires fits { (more : ℕ) × fits self.old blob (more + 1) }
        ensures state { OfBlob cursor.old.bytes cursor.old.place (λ g.
            state self.new ≡ step (state self.old) blob cursor.old.place g) }
        ensures fits { (more : ℕ) → fits self.old blob (more + 1) → fits self.new (blob + 1) more }
        ensures keeps { (before : Self) (many : ℕ) → keeps before many self.old → keeps before (many + 1) self.new }
        ensures cursor { OfBlob cursor.old.bytes cursor.old.place (λ g.
            cursor.new ≡ past_blob (reads (state self.old) g) g cursor.old) }
        ensures few { OfBlob cursor.old.bytes cursor.old.place (λ g. reads (state self.old) g ≤ size_of g) };
}

/// Goes to the first byte, and calls [`take_blob`](EachBlob::take_blob) for each blob of a certified layer, in file order, or only
/// for the first `limit` blobs.
#[inline(always)]
pub fn for_each_blob<B: EachBlob>(each: &mut B, cursor: &mut Cursor, limit: Option<usize>)
    requires { (trees : List Geometry) × IsCertifiedLayer trees cursor.old.bytes
        × B.fits each.old 0 (length (first_blobs limit trees)) }
    ensures state { OfLayer cursor.old.bytes (λ trees.
        B.state each.new ≡ after_blobs B.step (first_blobs limit trees) (B.state each.old)) }
    ensures keeps { OfLayer cursor.old.bytes (λ trees.
        B.keeps each.old 0 each.old → (many : ℕ) × (many ≤ length trees) × B.keeps each.old many each.new) }
    ensures bytes { cursor.new.bytes ≡ cursor.old.bytes }
    ensures count { OfLayer cursor.old.bytes (λ trees. cursor.new.count
        ≡ added cursor.old.count (bytes_read B.step B.reads (first_blobs limit trees) (B.state each.old))) }
    ensures few { AddsAtMost (length cursor.old.bytes) cursor.old.count cursor.new.count }
    ensures grows { cursor.old.count ≤ cursor.new.count }
{
    cursor.place_is_within();
    cursor.go_to(0);
    let mut prefetch = Prefetch::new(cursor);
    let mut blob = 0;
    while has_next(cursor, blob, limit) {
        each.take_blob(cursor, blob);
        prefetch.advance(cursor);
        blob += 1;
    }
}

/// Whether a blob begins at the place, and its number is below the limit, if there is one.
#[inline(always)]
fn has_next(cursor: &Cursor, blob: usize, limit: Option<usize>) -> bool
    ensures { result ≡ (nat_lt cursor.now.place (length cursor.now.bytes) && is_among limit blob) }
{
    cursor.place() < cursor.len()
        && match limit {
            Some(limit) => blob < limit,
            None => true,
        }
}
