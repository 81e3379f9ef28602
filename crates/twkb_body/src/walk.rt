//! [`Walk`], which reads points one after another and adds up their differences, to find a field that is malformed. Used by `shape`.
ghost use Rattle.std.specs.Prelude.{◌≡◌, ◌≤◌};
ghost use Rattle.twkb_body.specs.Devices.PointReader.{IsWalking};
ghost use Rattle.twkb_body.specs.Devices.Walk.{no_points};

use crate::point_reader::PointReader;
use crate::trail::{Trail, take_point};
use twkb_head::Malformed;
use twkb_num::Cursor;

/// Points under one header, and how far reading has come.
#[derive(Drop)]
pub struct Walk {
    axes: usize,
    /// The last point, and how many there were.
    trail: Trail,
}

impl Walk {
    /// No point yet.
    #[inline(always)]
    pub fn new(axes: usize) -> Walk
        requires some { 2 ≤ axes }
        requires few { axes ≤ 4 }
        ensures stands { IsWalking result.axes result.trail (record { axes = axes; trail = no_points; state = tt }) }
    {
        Walk {
            axes,
            trail: Trail::new(),
        }
    }
}

impl PointReader for Walk {
    ghost use Rattle.std.specs.Prelude.{◌≡◌, false, Some};
    ghost use Rattle.twkb_body.specs.Devices.PointReader.{IsWalking};

    type Fault = Malformed;

    ghost State = { Unit {0} };

    ghost step = { λ s point. s };

    ghost stands = { λ walk at. IsWalking walk.axes walk.trail at };

    ghost trusts = { false };

    ghost ends = { λ s. ⊥ };

    ghost lasts = { λ s point ended. ended };

    ghost tells = { λ fault. Some fault };

    /// Reads the points one by one.
    #[inline(always)]
    fn take_points(&mut self, cursor: &mut Cursor, count: u64) -> Result<(), Malformed> {
        for _ in 0..count {
            take_point(cursor, self.axes, &mut self.trail)?;
        }
        Ok(())
    }

    #[inline(always)]
    fn fault_of(malformed: Malformed) -> Malformed
        ensures { result ≡ malformed }
    {
        malformed
    }
}
