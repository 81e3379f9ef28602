//! Lists of layers, in memory that the caller lends: a row of numbers and flags for each blob. Used by other crates.
ghost use Rattle.std.specs.Prelude.{◌≡◌, length, map};
ghost use Rattle.twkb_layer.specs.Hits.{filled};
ghost use Rattle.twkb_layer.specs.Layer.{IsCounted, OfLayer};
ghost use Rattle.twkb_layer.specs.Rows.{rows};
ghost use Rattle.twkb_call.specs.Rows.{in_numbers};

use crate::layer::Layer;
use twkb_layer::FromRow;

/// A row of a list: one blob.
#[repr(C)]
#[derive(Clone, Copy, Debug, PartialEq, Eq)]
pub struct Row {
    /// Its number, from 0.
    pub blob: usize,
    /// Its offset.
    pub offset: usize,
    /// Its length in bytes.
    pub bytes: usize,
    /// How many vertices it has, at all depths.
    pub vertices: usize,
    /// Its type, from 1 (point) to 7 (collection).
    pub kind: u8,
    /// The precision of X and Y, from -8 to 7.
    pub precision: i8,
    pub has_size: bool,
    pub has_box: bool,
}

const SIZE: usize = std::mem::size_of::<Row>();

const _: () = prove!(SIZE == 40);

impl FromRow for Row {
    ghost use Rattle.twkb_call.specs.Rows.{in_numbers};

    ghost of = { in_numbers };

    fn from_row(row: twkb_layer::Row) -> Row {
        Row {
            blob: row.blob,
            offset: row.offset,
            bytes: row.bytes,
            vertices: row.vertices,
            kind: row.kind.code(),
            precision: row.precision,
            has_size: row.has_size,
            has_box: row.has_box,
        }
    }
}

/// Writes a row for each blob to `room`, in file order, as many as fit, and returns how many blobs there are.
pub fn list(layer: &Layer, room: &mut [Row]) -> usize
    requires { IsCounted layer.now.bytes.now layer.now.blobs layer.now.vertices }
    ensures answer { OfLayer layer.now.bytes.now (λ trees. result ≡ length trees) }
    ensures room { OfLayer layer.now.bytes.now (λ trees. room.new ≡ filled (map in_numbers (rows trees)) room.old) }
{
    layer.as_certified().list_into(room)
}
