//! Scans of a layer for a window. The hits are written to memory that the caller lends.
//! Used by other crates, and here by `directory`.
ghost use Rattle.std.specs.Prelude.{◌≡◌, length, map, sum_by};
ghost use Rattle.twkb_num.specs.Cursor.{added};
ghost use Rattle.twkb_layer.specs.Hits.{hits, found_blobs, cost, filled};
ghost use Rattle.twkb_layer.specs.Layer.{IsCounted, OfLayer};
ghost use Rattle.twkb_call.specs.Hits.{hit_from};
ghost use Rattle.twkb_call.specs.Window.{ranges_of};

use crate::layer::Layer;
use crate::window::Window;
use twkb_layer::{Found, FromFound};

/// A blob with a vertex inside the window.
#[repr(C)]
#[derive(Clone, Copy, Debug, PartialEq, Eq)]
pub struct Hit {
    /// Its number, from 0.
    pub blob: usize,
    /// Its offset.
    pub offset: usize,
    /// Its length in bytes.
    pub bytes: usize,
}

impl FromFound for Hit {
    ghost use Rattle.twkb_call.specs.Hits.{hit_from};

    ghost of = { hit_from };

    fn from_found(found: Found) -> Hit {
        Hit {
            blob: found.blob,
            offset: found.offset,
            bytes: found.bytes,
        }
    }
}

/// The result of a scan.
#[repr(C)]
#[derive(Clone, Copy, Debug, PartialEq, Eq)]
pub struct Scanned {
    /// How many blobs have a vertex inside the window.
    pub hits: usize,
    /// How many bytes the scan read.
    pub bytes_read: u64,
}

const SIZES: (usize, usize) = (std::mem::size_of::<Scanned>(), std::mem::size_of::<Hit>());

const _: () = prove!(SIZES.0 == 16 && SIZES.1 == 24);

/// Finds the blobs that have a vertex inside the window, and writes them to `room` in file order, as many as fit. Returns how many
/// there are, and how many bytes were read.
pub fn scan(layer: &Layer, window: &Window, room: &mut [Hit]) -> Scanned
    requires { IsCounted layer.now.bytes.now layer.now.blobs layer.now.vertices }
    ensures hits { OfLayer layer.now.bytes.now (λ trees. result.hits ≡ length (hits trees (ranges_of window.now))) }
    ensures room { OfLayer layer.now.bytes.now (λ trees.
        room.new ≡ filled (map hit_from (found_blobs trees (ranges_of window.now))) room.old) }
    ensures read { OfLayer layer.now.bytes.now (λ trees.
        result.bytes_read ≡ added 0 (sum_by (cost (ranges_of window.now)) trees)) }
{
    let mut certified = layer.as_certified();
    let hits = certified.scan_into(&window.in_units(), room);
    Scanned {
        hits,
        bytes_read: certified.read_count(),
    }
}
