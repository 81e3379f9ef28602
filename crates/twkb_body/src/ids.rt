//! Whether the ids of a list are distinct, judged by sorting them. Used by `rooms`.
ghost use Rattle.std.specs.Prelude.{◌≢◌, ◌↔◌, ◌<◌, IsTrue, AllPairs};
ghost use Rattle.std.specs.List.Sorted.{IsSorted};
ghost use Rattle.std.specs.Ordering.{int_cmp};

/// Whether no two ids of a slice are equal. It sorts them in place, and takes no memory.
pub fn are_distinct(ids: &mut [i64]) -> bool
    ensures { IsTrue result ↔ AllPairs (λ a b. a ≢ b) ids.old }
{
    ids.sort_unstable();
    neighbors_differ(ids)
}

/// Whether no two ids of a sorted list are equal.
fn neighbors_differ(ids: &[i64]) -> bool
    requires { IsSorted int_cmp ids.now }
    ensures { IsTrue result ↔ AllPairs (λ a b. a ≢ b) ids.now }
{
    for i in 1..ids.len() {
        if ids[i - 1] == ids[i] {
            return false;
        }
    }
    true
}
