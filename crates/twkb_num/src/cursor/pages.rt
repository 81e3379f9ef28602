//! [`Prefetch`], by which the processor looks up pages of memory before a cursor reads them.
ghost use Rattle.std.specs.Prelude.{◌≡◌};

use super::Cursor;
use std::marker::Model;

/// The bytes of a page of memory.
const PAGE: usize = 4096;

/// How many pages are touched at once.
const PAGES: usize = 16;

/// Touches the pages of memory that a cursor comes to, sixteen at a time.
///
/// A processor fetches bytes that are read in order before they are needed, but only up to the end of a page of memory. At the first
/// read of the next page it has to look up the page's address, which is slow in a virtual machine. If it is asked for several pages
/// together, it looks up their addresses at the same time. A byte near the start of each page is touched: some processors fetch a page
/// more slowly if one of its later bytes was read first.
///
/// The byte that is read of each page is neither returned nor counted, and contracts say that the cursor stays as it was.
#[derive(Drop)]
pub struct Prefetch {
    /// The place from which on the next pages are touched.
    due: usize,
}

impl Model for Prefetch {
    ghost Value = { Unit {0} };

    ghost view = { λ p. tt };
}

impl Prefetch {
    /// For reading on from the cursor's place. The first two pages aren't touched, so a short read costs nothing more.
    #[inline(always)]
    pub fn new(cursor: &Cursor) -> Prefetch {
        Prefetch {
            due: cursor.place().wrapping_add(2 * PAGE),
        }
    }

    /// Touches the next pages, if the cursor has come to the last of those that were touched before.
    ///
    /// If the cursor is already sixteen pages past that one, it has just passed a long blob. A scan that skips such blobs would skip
    /// most of the next pages too. So none is touched, and it starts again as in [`new`](Prefetch::new).
    // A sum that wraps around is too small, so that pages are touched too early, or not at all. With a difference instead of the
    // second sum, each call takes an instruction more.
    #[inline(always)]
    pub fn advance(&mut self, cursor: &mut Cursor)
        ensures { cursor.new ≡ cursor.old }
    {
        if self.due <= cursor.place() {
            if cursor.place() < self.due.wrapping_add(PAGES * PAGE) {
                // Large buffers begin at a page of memory, or a few bytes after its start.
                let page = cursor.place - cursor.place % PAGE;
                // The compiler would leave out reads whose results aren't used.
                cursor.touched = touched(&cursor.bytes[page..]);
                self.due = page.wrapping_add((PAGES - 1) * PAGE);
            } else {
                *self = Prefetch::new(cursor);
            }
        }
    }
}

/// Reads the first byte of each whole page from there on, of sixteen at most, and returns bits of them.
// It isn't handed the cursor, so that the place of a cursor whose functions are inlined stays in a register.
#[inline(never)]
fn touched(ahead: &[u8]) -> u8 {
    let mut bits = 0;
    for page in 0..PAGES.min(ahead.len() / PAGE) {
        bits |= ahead[page * PAGE];
    }
    bits
}
