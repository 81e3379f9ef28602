//! The library for a web page. It has no heap and no state: the page lends all memory that a call needs.
//!
//! A call takes a slice as a pointer and a length. The page copies bytes into the module's memory before the call. In
//! `bindings/web` the tests (`twkb.mjs`) and our own page call all but `twkb_span_of_decimals`, which is there for other pages.
#![tactic(auto)]

ghost use Rattle.std.specs.Prelude.{◌≡◌, ◌≢◌, ◌≤◌, if◌then◌else◌, true, false, List, length, map, sum_by, ◌⊎◌};
ghost use Rattle.twkb_num.specs.Cursor.{added};
ghost use Rattle.twkb_head.specs.declared.boxes.Bounds.{Bounds};
ghost use Rattle.twkb_body.specs.Claims.{IsTrueClaim};
ghost use Rattle.twkb_body.specs.Geometry.{Geometry};
ghost use Rattle.twkb_body.specs.Tight.{IsTightlyTrue};
ghost use Rattle.twkb_layer.specs.Decimals.{Decimal, IsDecimalText, is_less, rational_of, span_of_decimals};
ghost use Rattle.twkb_layer.specs.Layer.{IsCounted, OfLayer, vertex_count};
ghost use Rattle.twkb_layer.specs.Hits.{hits, found_blobs, cost, filled};
ghost use Rattle.twkb_layer.specs.Rows.{rows};
ghost use Rattle.twkb_layer.specs.Tight.{IsTightLayer};
ghost use Rattle.twkb_layer.specs.Vertices.{all_vertices};
ghost use Rattle.twkb_layer.specs.WindowText.{IsWindowText, in_order};
ghost use Rattle.twkb_call.specs.Hits.{hit_from};
ghost use Rattle.twkb_call.specs.Rows.{in_numbers};
ghost use Rattle.twkb_call.specs.Verdict.{Says};
ghost use Rattle.twkb_call.specs.Vertices.{point_of};
ghost use Rattle.twkb_call.specs.Window.{ranges_of, span_from};

use twkb_call::{Hit, Layer, Point, Range, Row, Scanned, Verdict, Window};

/// Certifies the bytes as a layer, with a buffer for the ids of a list. The verdict is "out of memory" only if a list has more than
/// sixteen ids, and more than the buffer has places. The contract promises the first of these alone.
#[unsafe(no_mangle)]
pub extern "C" fn twkb_certify(bytes: &[u8], mut ids: &mut [i64]) -> Verdict
    ensures says { Says IsTrueClaim result bytes.now }
    ensures complete { OfLayer bytes.now (λ trees. (result.answer ≡ 0) ⊎ (result.answer ≡ 2)) }
{
    twkb_call::certify(&mut ids, bytes)
}

/// Certifies the bytes as a layer without a loose box.
#[unsafe(no_mangle)]
pub extern "C" fn twkb_certify_tight(bytes: &[u8], mut ids: &mut [i64]) -> Verdict
    ensures says { Says IsTightlyTrue result bytes.now }
    ensures tight { result.answer ≡ 0 → (trees : List Geometry) × IsTightLayer trees bytes.now }
    ensures complete { (trees : List Geometry) → IsTightLayer trees bytes.now
        → (result.answer ≡ 0) ⊎ (result.answer ≡ 2) }
{
    twkb_call::certify_tight(&mut ids, bytes)
}

/// Writes a row for each blob to `room`, in file order, as many as fit, and returns how many blobs there are.
#[unsafe(no_mangle)]
pub extern "C" fn twkb_list(layer: &Layer, room: &mut [Row]) -> usize
    requires { IsCounted layer.now.bytes.now layer.now.blobs layer.now.vertices }
    ensures answer { OfLayer layer.now.bytes.now (λ trees. result ≡ length trees) }
    ensures room { OfLayer layer.now.bytes.now (λ trees. room.new ≡ filled (map in_numbers (rows trees)) room.old) }
{
    twkb_call::list(layer, room)
}

/// Parses a window. The result is 0, or 1 if the text doesn't have the form of a window, or 2 if a lower bound is above its
/// upper bound.
#[unsafe(no_mangle)]
pub extern "C" fn twkb_window_parse(text: &[u8], window: &mut Window) -> u32
    ensures answers { result ≤ 2 }
    ensures window { result ≡ 0 → IsWindowText text.now (ranges_of window.new)
        × (in_order (ranges_of window.new) ≡ true) }
    ensures order { result ≡ 2 → (w : Bounds) × IsWindowText text.now w × (in_order w ≡ false) }
    ensures exact { (w : Bounds) → IsWindowText text.now w → result ≡ (if in_order w then 0 else 2) }
    ensures kept { result ≢ 0 → window.new ≡ window.old }
{
    twkb_call::parse_window(text, window)
}

/// Makes the range in units between two decimals of any length, rounded inward. The result is 0, or 1 if one of them isn't of
/// the form `[-]digits[.digits]`, or 2 if the lower one is greater.
#[unsafe(no_mangle)]
pub extern "C" fn twkb_span_of_decimals(lo: &[u8], hi: &[u8], span: &mut Range) -> u32
    ensures answers { result ≤ 2 }
    ensures span { result ≡ 0 → (a b : Decimal) × IsDecimalText lo.now a × IsDecimalText hi.now b
        × (is_less (rational_of b) (rational_of a) ≡ false) × (span_from span.new ≡ span_of_decimals a b) }
    ensures order { result ≡ 2 → (a b : Decimal) × IsDecimalText lo.now a × IsDecimalText hi.now b
        × (is_less (rational_of b) (rational_of a) ≡ true) }
    ensures exact { (a b : Decimal) → IsDecimalText lo.now a → IsDecimalText hi.now b
        → result ≡ (if is_less (rational_of b) (rational_of a) then 2 else 0) }
    ensures kept { result ≢ 0 → span.new ≡ span.old }
{
    twkb_call::span_of_decimals(lo, hi, span)
}

/// Finds the blobs that have a vertex inside the window, and writes them to `room` in file order, as many as fit. Returns how many
/// there are, and how many bytes were read. The layer has to be certified first, with `blobs` and `vertices` taken from the verdict.
#[unsafe(no_mangle)]
pub extern "C" fn twkb_scan(layer: &Layer, window: &Window, room: &mut [Hit]) -> Scanned
    requires { IsCounted layer.now.bytes.now layer.now.blobs layer.now.vertices }
    ensures hits { OfLayer layer.now.bytes.now (λ trees. result.hits ≡ length (hits trees (ranges_of window.now))) }
    ensures room { OfLayer layer.now.bytes.now (λ trees.
        room.new ≡ filled (map hit_from (found_blobs trees (ranges_of window.now))) room.old) }
    ensures read { OfLayer layer.now.bytes.now (λ trees.
        result.bytes_read ≡ added 0 (sum_by (cost (ranges_of window.now)) trees)) }
{
    twkb_call::scan(layer, window, room)
}

/// Writes X and Y of each vertex, in units, to `room`, in reading order, as many as fit, and returns how many vertices there are.
#[unsafe(no_mangle)]
pub extern "C" fn twkb_draw(layer: &Layer, room: &mut [Point]) -> usize
    requires { IsCounted layer.now.bytes.now layer.now.blobs layer.now.vertices }
    ensures answer { OfLayer layer.now.bytes.now (λ trees. result ≡ vertex_count trees) }
    ensures room { OfLayer layer.now.bytes.now (λ trees.
        room.new ≡ filled (map point_of (all_vertices trees)) room.old) }
{
    twkb_call::draw(layer, room)
}
