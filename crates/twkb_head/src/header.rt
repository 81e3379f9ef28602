//! [`Head`], what a header says and where its parts are. Used by other crates, and here by `raw` and `read`.
ghost use Rattle.std.specs.Prelude.{◌≡◌, ◌≤◌};
ghost use Rattle.twkb_head.specs.Head.{m_axis};
ghost use Rattle.twkb_head.specs.Header.{axes_with};

use crate::boxes::Bounds;
use crate::kinds::Kind;
use crate::raw::Axes;

/// A size (TWKB specification, "Size"): the number of bytes from `after` to the end of the geometry, as the header claims it.
/// Whether it is true isn't judged here.
#[derive(Clone, Copy, Debug, PartialEq, Eq)]
pub struct SizeField {
    /// The number itself.
    pub value: u64,
    /// The place of the field's first byte.
    pub offset: usize,
    /// The first place after the field, from which the size counts.
    pub after: usize,
}

/// A box (TWKB specification, "Bounding Box"), in units. Whether it is true isn't judged here.
#[derive(Clone, Copy, Debug, PartialEq, Eq)]
pub struct BoxField {
    /// The box itself.
    pub bounds: Bounds,
    /// The place of the field's first byte.
    pub offset: usize,
}

/// A header. A coordinate `c` of an axis at precision `p` means `c / 10^p`.
#[derive(Clone, Copy, Debug, PartialEq, Eq)]
pub struct Head {
    /// The type of the geometry.
    pub kind: Kind,
    /// The precision of X and Y, from -8 to 7.
    pub xy: i8,
    /// The precision of Z, from 0 to 7, if there is a Z axis.
    pub z: Option<u8>,
    /// The precision of M, from 0 to 7, if there is an M axis.
    pub m: Option<u8>,
    /// The size, if there is one.
    pub size: Option<SizeField>,
    /// The box, if there is one.
    pub bounds: Option<BoxField>,
    /// Whether the body has ids.
    pub ids: bool,
    /// Whether the geometry is empty and has no body. Even then a size and a box that its header announces are there (this
    /// project's choice).
    pub empty: bool,
    /// The place of the header's first byte.
    pub start: usize,
    /// The first place after the header.
    pub stop: usize,
}

impl Head {
    /// How many coordinates a point has: X, Y, and Z and M if they are there.
    #[inline(always)]
    pub fn axes(&self) -> usize
        ensures some { 1 ≤ result }
        ensures few { result ≤ 4 }
        ensures value { result ≡ axes_with self.now.z self.now.m }
    {
        self.m_axis() + usize::from(self.m.is_some())
    }

    /// The precisions of its axes.
    #[inline(always)]
    pub fn precisions(&self) -> Axes
        ensures { result ≡ record { xy = self.now.xy; z = self.now.z; m = self.now.m } }
    {
        Axes {
            xy: self.xy,
            z: self.z,
            m: self.m,
        }
    }

    /// The place of M among the coordinates of a point: after X and Y, and after Z if there is one.
    #[inline(always)]
    pub fn m_axis(&self) -> usize
        ensures value { result ≡ m_axis self.now.z }
        ensures high { result ≤ 3 }
    {
        2 + usize::from(self.z.is_some())
    }
}
