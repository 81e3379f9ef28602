//! [`PointReader`], a trait for what reads the points of a body.
//!
//! There are three implementations. [`Walk`](crate::walk::Walk) adds up the coordinates of every point.
//! [`ExtentReader`](crate::extent_reader::ExtentReader) keeps the least and the greatest coordinate of each axis.
//! [`CertifiedWalk`](crate::certified_walk::CertifiedWalk) shows the points of certified bytes to a
//! visitor until it is settled.
//! Used by `certified_walk`, `extent_reader`, `parts` and `walk`.
ghost use Rattle.std.specs.Prelude.{◌≡◌, Bool, Option, IfSome};
ghost use Rattle.twkb_head.specs.declared.refusal.Malformed.{Malformed as MalformedOf};
ghost use Rattle.twkb_body.specs.Geometry.{PointValue};
ghost use Rattle.twkb_body.specs.Devices.PointReader.{Stage, IsReady, ReadsOrEnds, points_at};

use twkb_head::Malformed;
use twkb_num::Cursor;

/// Reads the points of a body, ring after ring, and keeps how far it has come.
pub trait PointReader {
    /// Why reading ends before the last point.
    type Fault;

    /// The type of the state that points change.
    ghost State: { Type 0 };

    /// The state after a point.
    ghost step: { State → PointValue → State };

    /// A reader is at a stage: its axes, its last point, the number of its points, and its state.
    ghost stands: { Self → Stage State → Type 0 };

    /// Whether a reader trusts the bytes. Then its caller guarantees that all points can be read.
    ghost trusts: { Bool };

    /// The states at which reading may end early.
    ghost ends: { State → Type 0 };

    /// After such a state, each point leads to such a state.
    ghost lasts: { (s : State) (point : PointValue) → ends s → ends (step s point) };

    /// The malformed field that a fault names. If it names none, the points lead to an end, or a field is malformed.
    ghost tells: { Self.Fault → Option MalformedOf };

    /// Reads `count` points.
    fn take_points(&mut self, cursor: &mut Cursor, count: u64) -> Result<(), Self::Fault>
        requires ready { IsReady (stands self.old) trusts (points_at count) cursor.old }
        ensures { ReadsOrEnds (points_at count) (λ points. points) step trusts ends tells (stands self.old)
            (stands self.new) result cursor.old cursor.new };

    /// The fault for a malformed field.
    fn fault_of(malformed: Malformed) -> Self::Fault
        ensures { IfSome (tells result) (λ m. m ≡ malformed) };
}
