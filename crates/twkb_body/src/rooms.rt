//! Room for the ids of a list: memory that grows, or a slice that is lent.
//! Used by other crates, and here by `auditing`, `geometry`, `lists` and `shape`.
ghost use Rattle.std.specs.Prelude.{◌≡◌, ◌≢◌, ◌≤◌, ◌<ℤ◌, ◌↔◌, ℤ, List, [], ◌∷◌, ◌++◌, length, take, AllPairs, IsTrue, OnOk, OnErr, IfErr};
ghost use Rattle.twkb_body.specs.declared.stopped.Stopped.TheVariants.{Memory};
ghost use Rattle.twkb_body.specs.Devices.Stops.{ReadsIds};

use crate::ids::are_distinct;
use crate::stopped::Stopped;
use crate::varints::take_signed;
use smallvec::SmallVec;
use std::alloc::Allocator;
use twkb_num::Cursor;

/// The room in which the ids of one list are held while they are judged.
pub trait IdRoom {
    /// Reads `count` ids, and returns whether they are distinct.
    fn take_ids(&mut self, cursor: &mut Cursor, count: u64) -> Result<bool, Stopped>
        ensures { ReadsIds count cursor.old result cursor.new };
}

/// Room for the ids of one list at a time, which an audit judges: an allocator, or a slice that is lent.
// It has only the methods of `IdRoom`, which other crates can't name.
pub trait AuditRoom: IdRoom {}

impl<A: Allocator> AuditRoom for &A {}

impl AuditRoom for &mut [i64] {}

impl<A: Allocator> IdRoom for &A {
    // Few ids are kept in an array: each costs less than in memory that may grow.
    fn take_ids(&mut self, cursor: &mut Cursor, count: u64) -> Result<bool, Stopped> {
        if count <= 16 {
            return take_kept(&mut LentIds::of(&mut [0; 16]), cursor, count);
        }
        let mut ids: SmallVec<i64, 16, &A> = SmallVec::new(*self);
        take_kept(&mut ids, cursor, count)
    }
}

impl IdRoom for &mut [i64] {
    fn take_ids(&mut self, cursor: &mut Cursor, count: u64) -> Result<bool, Stopped> {
        if self.len() < 16 {
            take_kept(&mut LentIds::of(&mut [0; 16]), cursor, count)
        } else {
            take_kept(&mut LentIds::of(self), cursor, count)
        }
    }
}

/// The ids of one list, as they are read.
trait IdStore {
    /// The ids, in order.
    ghost ids: { Self → List ℤ };

    /// There is room for sixteen ids at least.
    ghost is_roomy: { Self → Type 0 };

    /// Another id may be refused.
    ghost is_full: { Self → Type 0 };

    /// Keeps one id more. It may refuse only if it is full, and holds sixteen ids.
    fn keep(&mut self, id: i64) -> Result<(), Stopped>
        requires { is_roomy self.old }
        ensures ok { OnOk result (ids self.new ≡ ids self.old ++ id ∷ []) }
        ensures err { IfErr result (λ stop. (stop ≡ Memory) × (16 ≤ length (ids self.old))) }
        ensures full { OnErr result (is_full self.old) }
        ensures roomy { is_roomy self.new };

    /// Whether no two ids are equal. It sorts them.
    fn are_distinct(&mut self) -> bool
        requires { is_roomy self.old }
        ensures { IsTrue result ↔ AllPairs (λ a b. a ≢ b) (ids self.old) };
}

/// Ids in memory that grows.
impl<A: Allocator + Copy> IdStore for SmallVec<i64, 16, A> {
    ghost ids = { λ s. s.items };

    ghost is_roomy = { λ s. 16 ≤ s.capacity };

    ghost is_full = { λ s. s.capacity ≤ length s.items };

    #[inline(always)]
    fn keep(&mut self, id: i64) -> Result<(), Stopped> {
        self.push(id)?;
        Ok(())
    }

    fn are_distinct(&mut self) -> bool {
        are_distinct(self.as_mut_slice())
    }
}

/// Ids in places that are lent.
#[derive(Drop)]
struct LentIds<'r> {
    room: &'r mut [i64],
    held: usize,
}

impl<'r> LentIds<'r> {
    /// No ids yet.
    fn of(room: &'r mut [i64]) -> LentIds<'r>
        ensures { result ≡ record { room = room.entry; held = 0 } }
    {
        LentIds { room, held: 0 }
    }
}

impl<'r> IdStore for LentIds<'r> {
    ghost ids = { λ s. take s.held s.room.now };

    ghost is_roomy = { λ s. (16 ≤ length s.room.now) × (s.held ≤ length s.room.now) };

    ghost is_full = { λ s. s.held ≡ length s.room.now };

    #[inline(always)]
    fn keep(&mut self, id: i64) -> Result<(), Stopped> {
        if self.held == self.room.len() {
            return Err(Stopped::Memory);
        }
        self.room[self.held] = id;
        self.held += 1;
        Ok(())
    }

    fn are_distinct(&mut self) -> bool {
        are_distinct(&mut self.room[..self.held])
    }
}

/// Reads and judges the ids of a list, and keeps them in a store that holds none yet.
fn take_kept<S: IdStore>(ids: &mut S, cursor: &mut Cursor, count: u64) -> Result<bool, Stopped>
    requires none { S.ids ids.old ≡ [] }
    requires roomy { S.is_roomy ids.old }
    ensures { ReadsIds count cursor.old result cursor.new }
{
    cursor.place_is_within();
    let mut last = i64::MIN;
    let mut rising = true;
    for _ in 0..count {
        let id = take_signed(cursor)?;
        rising = still_rises(rising, last, id);
        last = id;
        ids.keep(id)?;
    }
    if rising {
        return Ok(true);
    }
    Ok(ids.are_distinct())
}

/// Whether ids that rose up to the last one still rise. Ids that all rise are distinct, and needn't be sorted.
#[inline(always)]
fn still_rises(rising: bool, last: i64, id: i64) -> bool
    ensures { IsTrue result → IsTrue rising × (last <ℤ id) }
{
    rising && last < id
}
