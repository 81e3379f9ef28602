//! Directories of layers in memory that the caller lends, and scans with them for one window or for many. `twkb_c` exports them.
//! Used by other crates.
ghost use Rattle.std.specs.Prelude.{◌≡◌, ◌+◌, ◌*◌, ◌<◌, ◌≤◌, length, map, min, take, drop, sum_by, slice_set};
ghost use Rattle.twkb_num.specs.Cursor.{added};
ghost use Rattle.twkb_layer.specs.Directory.{IsDirectoryOf, directory_cost};
ghost use Rattle.twkb_layer.specs.Hits.{hits, found_blobs, filled};
ghost use Rattle.twkb_layer.specs.Layer.{IsCounted, OfLayer};
ghost use Rattle.twkb_layer.specs.Slots.{entries_kept};
ghost use Rattle.twkb_call.specs.Hits.{hit_from, hits_in_all, scanned_with};
ghost use Rattle.twkb_call.specs.Window.{ranges_of};

use crate::layer::Layer;
use crate::scans::{Hit, Scanned};
use crate::window::Window;
use twkb_layer::{MOST_SLOTS, Slot};

const SIZE: usize = std::mem::size_of::<Slot>();

const _: () = prove!(SIZE == 24);

/// Writes a directory of the layer to `room`, and returns how many slots it has: at most [`MOST_SLOTS`] for each blob. `room` must
/// have that many places for each blob, even where fewer would do. If it has fewer, it is left as it was, and the result is the
/// number of places that it must have, or `usize::MAX` if that is more. The places after the slots are unchanged.
pub fn build_directory(layer: &Layer, room: &mut [Slot]) -> usize
    requires { IsCounted layer.now.bytes.now layer.now.blobs layer.now.vertices }
    ensures directory { result ≤ length room.old
        → IsDirectoryOf (entries_kept (take result room.new)) layer.now.bytes.now }
    ensures fits { OfLayer layer.now.bytes.now (λ trees.
        MOST_SLOTS * length trees ≤ length room.old → result ≤ length room.old) }
    ensures few { OfLayer layer.now.bytes.now (λ trees. result ≤ MOST_SLOTS * length trees) }
    ensures wanted { OfLayer layer.now.bytes.now (λ trees.
        length room.old < MOST_SLOTS * length trees → result ≡ min (MOST_SLOTS * length trees) usize.MAX) }
    ensures kept { length room.old < result → room.new ≡ room.old }
    ensures rest { drop result room.new ≡ drop result room.old }
{
    layer.as_certified().directory_into(room)
}

/// Scans as [`scan`](crate::scan) does, and reads as many bytes as if the blobs whose box misses the window weren't there.
pub fn scan_directory(layer: &Layer, slots: &[Slot], window: &Window, room: &mut [Hit]) -> Scanned
    requires layer { IsCounted layer.now.bytes.now layer.now.blobs layer.now.vertices }
    requires directory { IsDirectoryOf (entries_kept slots.now) layer.now.bytes.now }
    ensures hits { OfLayer layer.now.bytes.now (λ trees. result.hits ≡ length (hits trees (ranges_of window.now))) }
    ensures room { OfLayer layer.now.bytes.now (λ trees.
        room.new ≡ filled (map hit_from (found_blobs trees (ranges_of window.now))) room.old) }
    ensures read { OfLayer layer.now.bytes.now (λ trees.
        result.bytes_read ≡ added 0 (sum_by (directory_cost (ranges_of window.now)) trees)) }
{
    let mut certified = layer.as_certified();
    let hits = certified.scan_at_into(slots, &window.in_units(), room);
    Scanned {
        hits,
        bytes_read: certified.read_count(),
    }
}

/// Scans for one window after another, each as [`scan_directory`] does, until the hits of one don't fit any more. Returns how
/// many windows it answered: all, or those before that one.
///
/// The hits of the windows are written to `room` one after another, and what a scan says of each window to `scanned`, as many
/// as fit. The window whose hits don't fit is among them: `scanned` says how many it has, and as many as fit are in `room`.
pub fn scan_directory_many(
    layer: &Layer,
    slots: &[Slot],
    windows: &[Window],
    scanned: &mut [Scanned],
    room: &mut [Hit],
) -> usize
    requires layer { IsCounted layer.now.bytes.now layer.now.blobs layer.now.vertices }
    requires directory { IsDirectoryOf (entries_kept slots.now) layer.now.bytes.now }
    ensures few { result ≤ length windows.now }
    ensures scanned { OfLayer layer.now.bytes.now (λ trees.
        scanned.new ≡ filled (map (scanned_with trees) (take (result + 1) windows.now)) scanned.old) }
    ensures room { OfLayer layer.now.bytes.now (λ trees.
        room.new ≡ filled (hits_in_all trees (take (result + 1) windows.now)) room.old) }
    ensures fit { OfLayer layer.now.bytes.now (λ trees.
        length (hits_in_all trees (take result windows.now)) ≤ length room.old) }
    ensures full { OfLayer layer.now.bytes.now (λ trees. result < length windows.now
        → length room.old < length (hits_in_all trees (take (result + 1) windows.now))) }
{
    let mut used = 0;
    for asked in 0..windows.len() {
        let one = scan_directory(layer, slots, &windows[asked], &mut room[used..]);
        put_scanned(scanned, asked, one);
        if one.hits > room.len() - used {
            return asked;
        }
        used += one.hits;
    }
    windows.len()
}

/// Writes what a scan says of a window to its place, if there is one.
fn put_scanned(scanned: &mut [Scanned], place: usize, one: Scanned)
    ensures { scanned.new ≡ slice_set scanned.old place one }
{
    if place < scanned.len() {
        scanned[place] = one;
    }
}
