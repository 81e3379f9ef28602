//! [`Stopped`], the reasons why reading stops before the end of a blob.
//! Used by `auditing`, `fields`, `found`, `lists`, `rooms` and `shape`.
ghost use Rattle.std.specs.Prelude.{◌≡◌};
ghost use Rattle.twkb_body.specs.declared.stopped.Stopped.TheVariants.{Malformed as BadField, Memory as NoMemory};

use std::alloc::AllocFailed;
use twkb_head::Malformed;

/// Why reading stopped before the end of a blob.
#[derive(Clone, Copy, Debug, PartialEq, Eq)]
pub enum Stopped {
    Malformed(Malformed),
    Memory,
}

impl From<Malformed> for Stopped {
    ghost from_gives = { λ malformed stopped. stopped ≡ BadField malformed };

    fn from(malformed: Malformed) -> Stopped {
        Stopped::Malformed(malformed)
    }
}

impl From<AllocFailed<i64>> for Stopped {
    ghost from_gives = { λ failed stopped. stopped ≡ NoMemory };

    fn from(_failed: AllocFailed<i64>) -> Stopped {
        Stopped::Memory
    }
}
