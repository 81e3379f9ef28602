//! [`CertifiedWalk`], which shows the points of a certified body to a visitor until the visitor is settled. Then it moves past the
//! other points without decoding them. Used by `shape`.
ghost use Rattle.std.specs.Prelude.{◌≡◌, List, Ok};
ghost use Rattle.twkb_num.specs.Cursor.{Reading};
ghost use Rattle.twkb_head.specs.Header.{axes_with};
ghost use Rattle.twkb_head.specs.Raw.{HavePrecisions};
ghost use Rattle.twkb_head.specs.Shared.Reader.{many_at};
ghost use Rattle.twkb_body.specs.Geometry.{PointValue};
ghost use Rattle.twkb_body.specs.Devices.Body.{add};
ghost use Rattle.twkb_body.specs.Devices.BodyReader.{point_at};
ghost use Rattle.twkb_body.specs.Devices.Inside.{of_head};
ghost use Rattle.twkb_body.specs.Devices.PointReader.{IsWalkingOn};
ghost use Rattle.twkb_body.specs.Devices.Walk.{precisions_of, no_points, shown};

use crate::point_reader::PointReader;
use crate::trail::{Trail, take_known_point};
use crate::visit::Visit;
use twkb_head::{Head, Malformed};
use twkb_num::Cursor;

/// How far reading has come under one header, and the visitor that the points are shown to.
#[derive(Drop)]
pub struct CertifiedWalk<'h, 'v, V> {
    head: &'h Head,
    axes: usize,
    /// The last point, and how many points were read.
    trail: Trail,
    /// Whether points were passed, so that the trail is no longer kept up. Then no point can change the visitor's state.
    lost: bool,
    visitor: &'v mut V,
}

impl<'h, 'v, V: Visit> CertifiedWalk<'h, 'v, V> {
    /// A walk that has read no point yet.
    #[inline(always)]
    pub fn new(head: &'h Head, axes: usize, visitor: &'v mut V) -> CertifiedWalk<'h, 'v, V>
        requires precisions { HavePrecisions (precisions_of head.now) }
        requires axes { axes ≡ axes_with head.now.z head.now.m }
        ensures stands { IsWalkingOn (shown V.step) result.head.now result.axes result.lost result.trail
            result.visitor.ghost_name (V.state result.visitor.now)
            (record {
              axes = axes;
              trail = no_points;
              state = (
                (of_head head.now, visitor.entry.ghost_name),
                V.state visitor.entry.now,
              );
            }) }
        ensures visitor { result.visitor ≡ visitor.entry }
    {
        CertifiedWalk {
            head,
            axes,
            trail: Trail::new(),
            lost: false,
            visitor,
        }
    }
}

impl<'h, 'v, V: Visit> PointReader for CertifiedWalk<'h, 'v, V> {
    ghost use Rattle.std.specs.Prelude.{◌≡◌, true, Some};
    ghost use Rattle.std.specs.Borrow.{GName};
    ghost use Rattle.twkb_head.specs.Header.{Header};
    ghost use Rattle.twkb_body.specs.Devices.PointReader.{IsWalkingOn};
    ghost use Rattle.twkb_body.specs.Devices.Walk.{shown};

    type Fault = Malformed;

    // The header and the name of the reference to the visitor, which don't change, and the visitor's state.
    ghost State = { (Header × GName) × V.State };

    ghost step = { λ s point. (s.0, shown V.step s.0.0 s.1 point) };

    ghost stands = { λ walk at. IsWalkingOn (shown V.step) walk.head.now walk.axes walk.lost walk.trail
        walk.visitor.ghost_name (V.state walk.visitor.now) at };

    ghost trusts = { true };

    ghost ends = { λ s. ⊥ };

    ghost lasts = { λ s point ended. ended };

    ghost tells = { λ fault. Some fault };

    /// Shows points until the visitor is settled, and moves past the others. It returns no error.
    #[inline(always)]
    fn take_points(&mut self, cursor: &mut Cursor, count: u64) -> Result<(), Malformed> {
        // A local copy: its coordinates are indexed, which would otherwise keep all of `self` out of registers.
        let mut trail = self.trail;
        let axes = self.head.precisions();
        let mut done = 0;
        while done < count && !self.lost && !self.visitor.is_settled() {
            take_known_point(cursor, self.axes, &mut trail);
            self.visitor.add_raw(axes, &trail.last);
            done += 1;
        }
        self.trail = trail;
        if done < count {
            self.lost = true;
            pass_points(cursor, self.axes, count - done);
        }
        Ok(())
    }

    #[inline(always)]
    fn fault_of(malformed: Malformed) -> Malformed
        ensures { result ≡ malformed }
    {
        malformed
    }
}

/// Moves past `count` points that can be read.
#[inline(always)]
fn pass_points(cursor: &mut Cursor, axes: usize, count: u64)
    requires known { (s : PointValue) × (points : List PointValue) × (stop : Reading)
        × (many_at count add (point_at axes) s cursor.old ≡ (Ok points, stop)) }
    ensures { (s : PointValue) (points : List PointValue) (stop : Reading)
        → many_at count add (point_at axes) s cursor.old ≡ (Ok points, stop) → cursor.new ≡ stop }
{
    cursor.place_is_within();
    // The product fits, since each number takes at least a byte.
    let Ok(_) = cursor.pass_numbers(count * axes as u64) else {
        unreachable!()
    };
}
