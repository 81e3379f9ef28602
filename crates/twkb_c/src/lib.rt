//! The library for C, and for languages that can call C. `bindings/c/twkb.h` declares it. Programs in C may
//! call all functions. The Python package and the Rust crate in `bindings` call all but the three that return names.
//!
//! A call takes a slice as a pointer and a length. No call keeps a pointer or a state, and each frees the memory that it allocates,
//! so any number of threads may call at once.
#![tactic(auto)]

ghost use Rattle.std.specs.Prelude.{◌≡◌, ◌≢◌, ◌+◌, ◌*◌, ◌<◌, ◌≤◌, if◌then◌else◌, true, false, List, length, map, take, drop, min, sum_by, ◌⊎◌};
ghost use Rattle.twkb_num.specs.Cursor.{added};
ghost use Rattle.twkb_head.specs.declared.boxes.Bounds.{Bounds};
ghost use Rattle.twkb_body.specs.Claims.{IsTrueClaim};
ghost use Rattle.twkb_body.specs.Geometry.{Geometry};
ghost use Rattle.twkb_body.specs.Tight.{IsTightlyTrue};
ghost use Rattle.twkb_layer.specs.Directory.{IsDirectoryOf, directory_cost};
ghost use Rattle.twkb_layer.specs.Decimals.{Decimal, IsDecimalText, is_less, rational_of, span_of_decimals};
ghost use Rattle.twkb_layer.specs.Layer.{IsCounted, OfLayer};
ghost use Rattle.twkb_layer.specs.Hits.{hits, found_blobs, cost, filled};
ghost use Rattle.twkb_layer.specs.Rows.{rows};
ghost use Rattle.twkb_layer.specs.Slots.{entries_kept};
ghost use Rattle.twkb_layer.specs.Tight.{IsTightLayer};
ghost use Rattle.twkb_layer.specs.WindowText.{IsWindowText, in_order};
ghost use Rattle.twkb_call.specs.Hits.{hit_from, hits_in_all, scanned_with};
ghost use Rattle.twkb_call.specs.Rows.{in_numbers};
ghost use Rattle.twkb_call.specs.Names.{type_name, kind_name, answer_name, with_zeros};
ghost use Rattle.twkb_call.specs.Verdict.{Says};
ghost use Rattle.twkb_call.specs.Window.{ranges_of, span_from};

use std::alloc::Global;
use twkb_call::{Hit, Layer, MOST_SLOTS, Name, Range, Row, Scanned, Slot, Verdict, Window};

/// Certifies the bytes as a layer. The verdict's answer is 0 if they are a layer, 1 if they aren't, with the first fault, or 2 if
/// memory ran out.
#[unsafe(no_mangle)]
pub extern "C" fn twkb_certify(alloc: Global, bytes: &[u8]) -> Verdict
    ensures says { Says IsTrueClaim result bytes.now }
    ensures complete { OfLayer bytes.now (λ trees. (result.answer ≡ 0) ⊎ (result.answer ≡ 2)) }
{
    twkb_call::certify(&mut &alloc, bytes)
}

/// Certifies the bytes as a layer without a loose box. The answer is 0, 1 or 2, as of `twkb_certify`.
#[unsafe(no_mangle)]
pub extern "C" fn twkb_certify_tight(alloc: Global, bytes: &[u8]) -> Verdict
    ensures says { Says IsTightlyTrue result bytes.now }
    ensures tight { result.answer ≡ 0 → (trees : List Geometry) × IsTightLayer trees bytes.now }
    ensures complete { (trees : List Geometry) → IsTightLayer trees bytes.now
        → (result.answer ≡ 0) ⊎ (result.answer ≡ 2) }
{
    twkb_call::certify_tight(&mut &alloc, bytes)
}

/// Writes a row for each blob to `room`, in file order, as many as fit, and returns how many blobs there are.
#[unsafe(no_mangle)]
pub extern "C" fn twkb_list(layer: &Layer, room: &mut [Row]) -> usize
    requires { IsCounted layer.now.bytes.now layer.now.blobs layer.now.vertices }
    ensures answer { OfLayer layer.now.bytes.now (λ trees. result ≡ length trees) }
    ensures room { OfLayer layer.now.bytes.now (λ trees. room.new ≡ filled (map in_numbers (rows trees)) room.old) }
{
    twkb_call::list(layer, room)
}

/// Parses a window. The result is 0, or 1 if the text doesn't have the form of a window, or 2 if a lower bound is above its
/// upper bound.
#[unsafe(no_mangle)]
pub extern "C" fn twkb_window_parse(text: &[u8], window: &mut Window) -> u32
    ensures answers { result ≤ 2 }
    ensures window { result ≡ 0
        → IsWindowText text.now (ranges_of window.new) × (in_order (ranges_of window.new) ≡ true) }
    ensures order { result ≡ 2 → (w : Bounds) × IsWindowText text.now w × (in_order w ≡ false) }
    ensures exact { (w : Bounds) → IsWindowText text.now w → result ≡ (if in_order w then 0 else 2) }
    ensures kept { result ≢ 0 → window.new ≡ window.old }
{
    twkb_call::parse_window(text, window)
}

/// Makes the range in units between two decimals of any length, rounded inward. The result is 0, or 1 if one of them isn't of
/// the form `[-]digits[.digits]`, or 2 if the lower one is greater.
#[unsafe(no_mangle)]
pub extern "C" fn twkb_span_of_decimals(lo: &[u8], hi: &[u8], span: &mut Range) -> u32
    ensures answers { result ≤ 2 }
    ensures span { result ≡ 0 → (a b : Decimal) × IsDecimalText lo.now a × IsDecimalText hi.now b
        × (is_less (rational_of b) (rational_of a) ≡ false) × (span_from span.new ≡ span_of_decimals a b) }
    ensures order { result ≡ 2 → (a b : Decimal) × IsDecimalText lo.now a × IsDecimalText hi.now b
        × (is_less (rational_of b) (rational_of a) ≡ true) }
    ensures exact { (a b : Decimal) → IsDecimalText lo.now a → IsDecimalText hi.now b
        → result ≡ (if is_less (rational_of b) (rational_of a) then 2 else 0) }
    ensures kept { result ≢ 0 → span.new ≡ span.old }
{
    twkb_call::span_of_decimals(lo, hi, span)
}

/// Finds the blobs that have a vertex inside the window, and writes them to `room` in file order, as many as fit. Returns how many
/// there are, and how many bytes were read. The layer has to be certified first, with `blobs` and `vertices` taken from the verdict.
#[unsafe(no_mangle)]
pub extern "C" fn twkb_scan(layer: &Layer, window: &Window, room: &mut [Hit]) -> Scanned
    requires { IsCounted layer.now.bytes.now layer.now.blobs layer.now.vertices }
    ensures hits { OfLayer layer.now.bytes.now (λ trees. result.hits ≡ length (hits trees (ranges_of window.now))) }
    ensures room { OfLayer layer.now.bytes.now (λ trees.
        room.new ≡ filled (map hit_from (found_blobs trees (ranges_of window.now))) room.old) }
    ensures read { OfLayer layer.now.bytes.now (λ trees.
        result.bytes_read ≡ added 0 (sum_by (cost (ranges_of window.now)) trees)) }
{
    twkb_call::scan(layer, window, room)
}

/// Writes a directory of the layer to `room`, and returns how many slots it has: at most [`MOST_SLOTS`] for each blob. `room` must
/// have that many places for each blob, even where fewer would do. If it has fewer, it is left as it was, and the result is the
/// number of places that it must have, or `usize::MAX` if that is more. The places after the slots are unchanged.
#[unsafe(no_mangle)]
pub extern "C" fn twkb_directory_build(layer: &Layer, room: &mut [Slot]) -> usize
    requires { IsCounted layer.now.bytes.now layer.now.blobs layer.now.vertices }
    ensures directory { result ≤ length room.old
        → IsDirectoryOf (entries_kept (take result room.new)) layer.now.bytes.now }
    ensures fits { OfLayer layer.now.bytes.now (λ trees.
        MOST_SLOTS * length trees ≤ length room.old → result ≤ length room.old) }
    ensures few { OfLayer layer.now.bytes.now (λ trees. result ≤ MOST_SLOTS * length trees) }
    ensures wanted { OfLayer layer.now.bytes.now (λ trees.
        length room.old < MOST_SLOTS * length trees → result ≡ min (MOST_SLOTS * length trees) usize.MAX) }
    ensures kept { length room.old < result → room.new ≡ room.old }
    ensures rest { drop result room.new ≡ drop result room.old }
{
    twkb_call::build_directory(layer, room)
}

/// Scans as `twkb_scan` does, and reads as many bytes as if the blobs whose box misses the window weren't there.
#[unsafe(no_mangle)]
pub extern "C" fn twkb_directory_scan(
    layer: &Layer,
    slots: &[Slot],
    window: &Window,
    room: &mut [Hit],
) -> Scanned
    requires layer { IsCounted layer.now.bytes.now layer.now.blobs layer.now.vertices }
    requires directory { IsDirectoryOf (entries_kept slots.now) layer.now.bytes.now }
    ensures hits { OfLayer layer.now.bytes.now (λ trees. result.hits ≡ length (hits trees (ranges_of window.now))) }
    ensures room { OfLayer layer.now.bytes.now (λ trees.
        room.new ≡ filled (map hit_from (found_blobs trees (ranges_of window.now))) room.old) }
    ensures read { OfLayer layer.now.bytes.now (λ trees.
        result.bytes_read ≡ added 0 (sum_by (directory_cost (ranges_of window.now)) trees)) }
{
    twkb_call::scan_directory(layer, slots, window, room)
}

/// Scans for one window after another, each as `twkb_directory_scan` does, until the hits of one don't fit any more. Returns
/// how many windows it answered: all, or those before that one.
///
/// The hits go to `room`, window after window, and the result of each scan goes to `scanned`, if there is a place left. The window
/// whose hits don't fit is written too: its result has the full number of its hits, and `room` has the hits that fit.
#[unsafe(no_mangle)]
pub extern "C" fn twkb_directory_scan_many(
    layer: &Layer,
    slots: &[Slot],
    windows: &[Window],
    scanned: &mut [Scanned],
    room: &mut [Hit],
) -> usize
    requires layer { IsCounted layer.now.bytes.now layer.now.blobs layer.now.vertices }
    requires directory { IsDirectoryOf (entries_kept slots.now) layer.now.bytes.now }
    ensures few { result ≤ length windows.now }
    ensures scanned { OfLayer layer.now.bytes.now (λ trees.
        scanned.new ≡ filled (map (scanned_with trees) (take (result + 1) windows.now)) scanned.old) }
    ensures room { OfLayer layer.now.bytes.now (λ trees.
        room.new ≡ filled (hits_in_all trees (take (result + 1) windows.now)) room.old) }
    ensures fit { OfLayer layer.now.bytes.now (λ trees.
        length (hits_in_all trees (take result windows.now)) ≤ length room.old) }
    ensures full { OfLayer layer.now.bytes.now (λ trees. result < length windows.now
        → length room.old < length (hits_in_all trees (take (result + 1) windows.now))) }
{
    twkb_call::scan_directory_many(layer, slots, windows, scanned, room)
}

/// The name of a geometry's type, followed by zeros. It is empty if the number is no type.
#[unsafe(no_mangle)]
pub extern "C" fn twkb_type_name(number: u32) -> Name
    ensures { result.text ≡ with_zeros (type_name number) }
{
    Name {
        text: *twkb_call::type_name(number),
    }
}

/// The name of a refusal's kind, followed by zeros. It is empty if the number is no kind.
#[unsafe(no_mangle)]
pub extern "C" fn twkb_kind_name(number: u32) -> Name
    ensures { result.text ≡ with_zeros (kind_name number) }
{
    Name {
        text: *twkb_call::kind_name(number),
    }
}

/// The name of a verdict's answer, followed by zeros. It is all zeros if the number is no answer.
#[unsafe(no_mangle)]
pub extern "C" fn twkb_answer_name(number: u32) -> Name
    ensures { result.text ≡ with_zeros (answer_name number) }
{
    Name {
        text: *twkb_call::answer_name(number),
    }
}
