//! Slots, one by one.
ghost use Rattle.std.specs.Prelude.{◌≡◌, ◌<◌, ◌≤◌, length, slice_set, vec_len, vec_capacity};
ghost use Rattle.block_format.specs.declared.slot.Slot.TheVariants.{Unused};
ghost use Rattle.dir_slots.specs.Slots.{slot_at, name_of, is_used, with_slot};

use block_format::Slot;

/// What a slot holds: no entry from the width on.
pub(crate) fn slot_at(slots: &[Slot], i: usize) -> Slot
    ensures { result ≡ slot_at slots.now i }
{
    if i >= slots.len() {
        return Slot::Unused;
    }
    slots[i]
}

/// The name of an entry, and none of an unused slot.
pub(crate) fn name_of(slot: &Slot) -> &[u8]
    ensures { result.now ≡ name_of slot.now }
{
    match slot {
        Slot::Unused => &[],
        Slot::Entry { name, .. } => name.as_bytes(),
    }
}

pub(crate) fn is_used(slot: &Slot) -> bool
    ensures { result ≡ is_used slot.now }
{
    match slot {
        Slot::Unused => false,
        Slot::Entry { .. } => true,
    }
}

/// Makes a slot unused.
pub(crate) fn clear_slot(slots: &mut Vec<Slot>, i: u32)
    requires { i < length slots.old.items }
    ensures { slots.new.items ≡ slice_set slots.old.items i Unused }
{
    slots[i as usize] = Slot::Unused;
}

/// Puts this into a slot, or behind the last one.
pub(crate) fn put_slot(slots: &mut Vec<Slot>, i: u32, slot: Slot)
    requires within { i ≤ length slots.old.items }
    requires room { vec_len slots.old < vec_capacity slots.old }
    ensures { slots.new.items ≡ with_slot slots.old.items i slot }
{
    if (i as usize) < slots.len() {
        slots[i as usize] = slot;
    } else {
        let _ = slots.push(slot);
    }
}
