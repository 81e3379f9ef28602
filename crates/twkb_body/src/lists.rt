//! Reading the count and the ids of a list: an audit judges the ids, and a skim passes them.
//! Used by `body`, `geometry` and `shape`.
ghost use Rattle.std.specs.Prelude.{◌≡◌, Ok};
ghost use Rattle.twkb_head.specs.Shared.Reader.{signeds_at, Reads};
ghost use Rattle.twkb_body.specs.Devices.Stops.{ReadsList};
ghost use Rattle.twkb_body.specs.Devices.BodyReader.{list_at};

use crate::answers::Claim;
use crate::found::{Halted, Pass, claimed};
use crate::rooms::IdRoom;
use crate::stopped::Stopped;
use crate::varints::{take_number, take_signed};
use twkb_head::Malformed;
use twkb_num::Cursor;

/// Reads the count of a list, and its ids if they are announced. If these aren't distinct, the pass has their claim.
#[tactic(auto, unfolding(crate::specs::Devices::BodyReader::list_at))]
#[inline(always)]
pub fn take_list<R: IdRoom>(
    room: &mut R,
    pass: &mut Pass,
    cursor: &mut Cursor,
    has_ids: bool,
) -> Result<u64, Halted>
    ensures { ReadsList (list_at has_ids cursor.old) has_ids pass.old pass.new cursor.old result cursor.new }
{
    cursor.place_is_within();
    let count = match take_number(cursor) {
        Ok(count) => count,
        Err(malformed) => return Err(pass.stop(Stopped::Malformed(malformed))),
    };
    if has_ids {
        let offset = cursor.place();
        let was_refused = pass.is_refused();
        match room.take_ids(cursor, count) {
            Ok(distinct) => pass.note(was_refused, claimed(distinct, offset, Claim::Ids)),
            Err(stopped) => return Err(pass.stop(stopped)),
        }
    }
    Ok(count)
}

/// Reads the count of a list, and moves past its ids if they are announced.
// It isn't inlined, since the functions that call it would be too large to be inlined themselves.
#[inline(never)]
#[tactic(auto, unfolding(crate::specs::Devices::BodyReader::list_at))]
pub fn pass_list(cursor: &mut Cursor, has_ids: bool) -> Result<u64, Malformed>
    ensures { Reads (list_at has_ids cursor.old) (λ list count. count ≡ (list.0).0) result cursor.new }
{
    let count = take_number(cursor)?;
    if has_ids {
        pass_ids(cursor, count)?;
    }
    Ok(count)
}

/// Moves past `count` ids.
#[inline(always)]
fn pass_ids(cursor: &mut Cursor, count: u64) -> Result<(), Malformed>
    ensures { Reads (signeds_at count cursor.old) (λ ids done. Unit {0}) result cursor.new }
{
    for _ in 0..count {
        take_signed(cursor)?;
    }
    Ok(())
}
