//! The slots of a blob, put into memory: into a vector, or into room that a caller lends. Used by `certified`.
ghost use Rattle.std.specs.Prelude.{◌≡◌, ◌+◌, ◌-◌, ◌*◌, ◌<◌, ◌≤◌, ◌++◌, ◌∷◌, [], List, length, take, drop, vec_len, vec_capacity};
ghost use Rattle.twkb_body.specs.Geometry.{Geometry};
ghost use Rattle.twkb_body.specs.Visit.{bytes_to_pass};
ghost use Rattle.twkb_layer.specs.Directory.{Entry, IsDirectoryOf, entry_of};
ghost use Rattle.twkb_layer.specs.Layer.{IsCertifiedLayer, AddsAtMost, OfLayer};
ghost use Rattle.twkb_layer.specs.Devices.EachBlob.{Lent, adds, lent};
ghost use Rattle.twkb_layer.specs.Devices.Slots.{AreWhole};
ghost use Rattle.twkb_layer.specs.Slots.{entries_kept};
ghost use Rattle.twkb_layer.specs.declared.slots.TheConstants.{MOST_SLOTS};

use crate::each_blob::{EachBlob, for_each_blob};
use crate::slots::{MOST_SLOTS, Slot};
use std::alloc::Allocator;
use twkb_body::read_and_pass;
use twkb_num::Cursor;

impl<A: Allocator> EachBlob for Vec<Slot, A> {
    ghost State = { List Entry };

    ghost state = { λ slots. entries_kept slots.items };

    ghost step = { adds entry_of };

    ghost reads = { λ s g. bytes_to_pass g };

    ghost fits = { λ slots blob more. AreWhole slots.items × (MOST_SLOTS * more ≤ vec_capacity slots - vec_len slots) };

    ghost keeps = { λ before many slots. Unit {0} };

    #[inline(always)]
    fn take_blob(&mut self, cursor: &mut Cursor, _blob: usize) {
        let offset = cursor.place();
        let header = read_and_pass(cursor);
        match Slot::short(offset, &header) {
            Some(slot) => push(self, &[slot]),
            None => push(self, &Slot::long(offset, &header)),
        }
    }
}

/// Pushes the slots of a blob.
#[inline(always)]
fn push<A: Allocator>(slots: &mut Vec<Slot, A>, own: &[Slot])
    requires { length own.now ≤ vec_capacity slots.old - vec_len slots.old }
    ensures items { slots.new.items ≡ slots.old.items ++ own.now }
    ensures len { vec_len slots.new ≡ vec_len slots.old + length own.now }
    ensures capacity { vec_capacity slots.new ≡ vec_capacity slots.old }
{
    for slot in own {
        slots.push_reserved(*slot);
    }
}

/// Room for slots that a caller lends, and how many of its places are used.
#[derive(Drop)]
struct LentSlots<'r> {
    room: &'r mut [Slot],
    used: usize,
}

impl<'r> EachBlob for LentSlots<'r> {
    ghost State = { Lent (List Entry) };

    ghost state = { λ s. record { name = s.room.ghost_name; state = entries_kept (take s.used s.room.now) } };

    ghost step = { lent (adds entry_of) };

    ghost reads = { λ s g. bytes_to_pass g };

    ghost fits = { λ s blob more. AreWhole (take s.used s.room.now) × (s.used + MOST_SLOTS * more ≤ length s.room.now) };

    ghost keeps = { λ before many s. (s.used ≤ before.used + MOST_SLOTS * many)
        × (drop s.used s.room.now ≡ drop s.used before.room.now) };

    #[inline(always)]
    fn take_blob(&mut self, cursor: &mut Cursor, _blob: usize) {
        let offset = cursor.place();
        let header = read_and_pass(cursor);
        match Slot::short(offset, &header) {
            Some(slot) => self.used = put(self.room, self.used, &[slot]),
            None => self.used = put(self.room, self.used, &Slot::long(offset, &header)),
        }
    }
}

/// Writes the slots of a blob after the `used` ones of the room, and returns how many are used then.
#[inline(always)]
fn put(room: &mut [Slot], used: usize, slots: &[Slot]) -> usize
    requires { used + length slots.now ≤ length room.old }
    ensures used { result ≡ used + length slots.now }
    ensures slots { take result room.new ≡ take used room.old ++ slots.now }
    ensures left { drop result room.new ≡ drop result room.old }
    ensures length { length room.new ≡ length room.old }
{
    let end = used + slots.len();
    room[used..end].copy_from_slice(slots);
    end
}

/// Puts the slots of a certified layer into the room, which has as many places as they may take, and returns how many there are.
pub fn put_slots(room: &mut [Slot], cursor: &mut Cursor) -> usize
    requires { (trees : List Geometry) × IsCertifiedLayer trees cursor.old.bytes
        × (MOST_SLOTS * length trees ≤ length room.old) }
    ensures directory { IsDirectoryOf (entries_kept (take result room.new)) cursor.old.bytes }
    ensures few { OfLayer cursor.old.bytes (λ trees. result ≤ MOST_SLOTS * length trees) }
    ensures rest { drop result room.new ≡ drop result room.old }
    ensures bytes { cursor.new.bytes ≡ cursor.old.bytes }
    ensures once { AddsAtMost (length cursor.old.bytes) cursor.old.count cursor.new.count }
    ensures grows { cursor.old.count ≤ cursor.new.count }
{
    let mut slots = LentSlots { room, used: 0 };
    for_each_blob(&mut slots, cursor, None);
    slots.used
}
