//! [`Layer`], a layer that was certified before, in the caller's storage.
//! Used by other crates, and here by `directory`, `drawing`, `rows` and `scans`.
ghost use Rattle.std.specs.Prelude.{◌≡◌};
ghost use Rattle.twkb_layer.specs.Layer.{IsCounted};

use std::marker::Model;
use twkb_layer::Certified;

/// A certified layer in the caller's storage: its bytes, which it borrows, and the two numbers of their verdict.
///
/// The caller guarantees that the verdict was for these bytes and that nobody has written to them since.
// No other module names its fields, so that a call can read the bytes by the cursor of a `Certified` alone, which counts them.
#[repr(C)]
#[derive(Drop)]
pub struct Layer<'a> {
    bytes: &'a [u8],
    blobs: usize,
    vertices: usize,
}

impl<'a> Model for Layer<'a> {
    ghost use Rattle.twkb_call.specs.Lent.{Lent};

    ghost Value = { Lent };

    ghost view = { λ l. record { bytes = l.bytes; blobs = l.blobs; vertices = l.vertices } };

    ghost inverse = { λ l. record { bytes = l.bytes; blobs = l.blobs; vertices = l.vertices } };
}

const SIZE: usize = std::mem::size_of::<Layer>();

const _: () = prove!(SIZE == 32);

impl<'a> Layer<'a> {
    /// The bytes as a layer that was certified before, with the two numbers of its verdict.
    pub fn new(bytes: &'a [u8], blobs: usize, vertices: usize) -> Layer<'a>
        ensures bytes { result.bytes.now ≡ bytes.now }
        ensures blobs { result.blobs ≡ blobs }
        ensures vertices { result.vertices ≡ vertices }
    {
        Layer {
            bytes,
            blobs,
            vertices,
        }
    }

    /// The layer for one call on it, of which no byte was read yet.
    pub(crate) fn as_certified(&self) -> Certified<'a>
        requires { IsCounted self.now.bytes.now self.now.blobs self.now.vertices }
        ensures { result ≡ record { bytes = self.now.bytes.now; count = 0 } }
    {
        Certified::again(self.bytes, self.blobs, self.vertices)
    }
}
