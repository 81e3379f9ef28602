//! [`Pass`], what an audit finds on its way, and the judging of claims.
//! Used by `auditing`, `fields`, `flat_point`, `geometry`, `lists` and `shape`.
ghost use Rattle.std.specs.Prelude.{◌≡◌, ◌≤◌, IfSome, is_some, None, Some};
ghost use Rattle.twkb_head.specs.Raw.{HavePrecisions, head_said};
ghost use Rattle.twkb_body.specs.Devices.Inside.{of_head};
ghost use Rattle.twkb_body.specs.Devices.Pass.{false_at, is_tight};
ghost use Rattle.twkb_body.specs.Devices.Found.{named, size_judged, box_judged, Notes};
ghost use Rattle.twkb_body.specs.Audited.{number_of};
ghost use Rattle.twkb_body.specs.Devices.Walk.{precisions_of};

use crate::answers::Claim;
use crate::extent::Extent;
use crate::stopped::Stopped;
use twkb_head::{BoxField, Fields, Head, SizeField};

/// A claim that is false, and its offset.
#[derive(Clone, Copy, Debug, PartialEq, Eq)]
pub struct FalseClaim {
    pub offset: usize,
    pub claim: Claim,
}

/// What an audit finds on its way through a blob.
#[derive(Drop)]
pub struct Pass {
    /// Of the claims that were judged, the false one of least offset.
    pub refused: Option<FalseClaim>,
    /// Why reading stopped, once it has.
    pub stopped: Stopped,
}

/// Reading stopped before the end. The pass says why.
#[derive(Clone, Copy, Debug, PartialEq, Eq)]
pub struct Halted;

impl Pass {
    /// Nothing was read.
    #[inline(always)]
    pub fn new() -> Pass
        ensures { named result.refused ≡ None }
    {
        Pass {
            refused: None,
            stopped: Stopped::Memory,
        }
    }

    /// Whether some claim is false.
    #[inline(always)]
    pub fn is_refused(&self) -> bool
        ensures { result ≡ is_some (named self.now.refused) }
    {
        self.refused.is_some()
    }

    /// Notes a claim, if it is false. It precedes all claims that were noted since `was_refused` was [`Pass::is_refused`].
    #[inline(always)]
    pub fn note(&mut self, was_refused: bool, claim: Option<FalseClaim>)
        ensures { Notes was_refused self.old self.new (named claim) }
    {
        if let Some(claim) = claim {
            self.refuse(was_refused, claim);
        }
    }

    /// Notes a false claim as [`Pass::note`] does.
    #[cold]
    #[inline(never)]
    fn refuse(&mut self, was_refused: bool, claim: FalseClaim)
        ensures { Notes was_refused self.old self.new (named (Some claim)) }
    {
        if !was_refused {
            self.refused = Some(claim);
        }
    }

    /// Stops reading.
    #[cold]
    #[inline(never)]
    pub fn stop(&mut self, stopped: Stopped) -> Halted
        ensures { self.new.stopped ≡ stopped }
    {
        self.stopped = stopped;
        Halted
    }
}

/// `Claim::Size`, if the size is false of a geometry that ends at `stop`.
#[inline(always)]
pub fn judge_size(size: Option<SizeField>, stop: usize) -> Option<FalseClaim>
    requires { IfSome size (λ size. size.after ≤ stop) }
    ensures { named result ≡ size_judged size stop }
{
    match size {
        Some(size) => {
            // The end that the size claims. A sum beyond 64 bits wraps to a place before `after`, so it isn't `stop`.
            let end = (size.after as u64).wrapping_add(size.value);
            claimed(end == stop as u64, size.offset, Claim::Size)
        }
        None => None,
    }
}

/// Judges the box of a header as [`judge_box`] does.
// It isn't inlined, so that no box in units is set up for each geometry.
#[inline(never)]
pub fn judge_raw(raw: &Fields, extent: &Extent, tight: bool) -> Option<FalseClaim>
    requires precisions { HavePrecisions raw.now.axes }
    ensures { named result ≡ box_judged tight (of_head (head_said raw.now)) (head_said raw.now).bounds extent.now }
{
    judge_box(&raw.whole(), extent, tight)
}

/// `Claim::Box`, if some vertex of this extent is outside the box. With `tight`, `Claim::Loose` if the box is loose.
#[inline(always)]
fn judge_box(head: &Head, extent: &Extent, tight: bool) -> Option<FalseClaim>
    requires precisions { HavePrecisions (precisions_of head.now) }
    ensures { named result ≡ box_judged tight (of_head head.now) head.now.bounds extent.now }
{
    match &head.bounds {
        Some(field) => {
            let outside = claimed(extent.within(&field.bounds), field.offset, Claim::Box);
            if tight {
                outside.or(judge_tight(head, field, extent))
            } else {
                outside
            }
        }
        None => None,
    }
}

/// `Claim::Loose`, if the box is loose at the precisions of its header.
#[inline(always)]
fn judge_tight(head: &Head, field: &BoxField, extent: &Extent) -> Option<FalseClaim>
    requires precisions { HavePrecisions (precisions_of head.now) }
    ensures { named result ≡ false_at
        (is_tight head.now.xy head.now.z head.now.m field.now.bounds extent.now) field.now.offset 9 }
{
    let hugs = extent.tight(&field.bounds, head.xy, head.z, head.m);
    claimed(hugs, field.offset, Claim::Loose)
}

/// A false claim at the offset, or `None` if the claim holds.
#[inline(always)]
pub fn claimed(holds: bool, offset: usize, claim: Claim) -> Option<FalseClaim>
    ensures { named result ≡ false_at holds offset (number_of claim) }
{
    if holds {
        None
    } else {
        Some(FalseClaim { offset, claim })
    }
}
