//! [`ExtentReader`], which reads the points of a body, and keeps their extent. Used by `shape`.
ghost use Rattle.std.specs.Prelude.{◌≡◌, []};
ghost use Rattle.twkb_head.specs.Header.{Header, axes_with};
ghost use Rattle.twkb_body.specs.Extent.{reach_of};
ghost use Rattle.twkb_body.specs.Devices.Walk.{no_points};
ghost use Rattle.twkb_body.specs.Devices.Extents.{HoldsPoints};

use crate::extents::Extents;
use crate::point_reader::PointReader;
use twkb_head::Malformed;
use twkb_num::Cursor;

/// Some point can't be read, or has a coordinate that doesn't fit 64 bits.
#[derive(Clone, Copy, Debug, PartialEq, Eq)]
pub struct Unreadable;

/// The points so far under one header, of `AXES` axes.
#[derive(Drop)]
pub struct ExtentReader<const AXES: usize> {
    pub all: Extents,
    pub points: usize,
}

impl<const AXES: usize> ExtentReader<AXES> {
    /// No point yet.
    #[inline(always)]
    pub fn new() -> ExtentReader<AXES>
        ensures { (h : Header) → AXES ≡ axes_with h.z h.m
            → HoldsPoints AXES result.all result.points (record { axes = AXES; trail = no_points; state = (h, reach_of []) }) }
    {
        ExtentReader {
            all: Extents::none(),
            points: 0,
        }
    }
}

impl<const AXES: usize> PointReader for ExtentReader<AXES> {
    ghost use Rattle.std.specs.Prelude.{◌≡◌, false, None};
    ghost use Rattle.twkb_head.specs.Header.{Header};
    ghost use Rattle.twkb_body.specs.Extent.{Reach};
    ghost use Rattle.twkb_body.specs.Devices.Ranges.{widened};
    ghost use Rattle.twkb_body.specs.Devices.Extents.{HoldsPoints};

    type Fault = Unreadable;

    ghost State = { Header × Reach };

    ghost step = { λ s point. (s.0, widened s.0 s.1 point) };

    ghost stands = { λ reader at. HoldsPoints AXES reader.all reader.points at };

    ghost trusts = { false };

    ghost ends = { λ s. ⊥ };

    ghost lasts = { λ s point ended. ended };

    ghost tells = { λ fault. None };

    /// Reads the points as one run.
    #[inline(always)]
    fn take_points(&mut self, cursor: &mut Cursor, count: u64) -> Result<(), Unreadable> {
        cursor.place_is_within();
        if let Err(_fault) = cursor.take_run::<AXES, _>(count, &mut self.all) {
            return Err(Unreadable);
        }
        if self.all.has_left() {
            return Err(Unreadable);
        }
        self.points += count as usize;
        Ok(())
    }

    #[inline(always)]
    fn fault_of(_malformed: Malformed) -> Unreadable {
        Unreadable
    }
}
