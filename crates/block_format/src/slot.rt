//! A slot of a directory: a name and a node's number.
ghost use Rattle.std.specs.Prelude.{◌≡◌, ◌≢◌, ◌≤◌, ◌<◌, ◌+◌, ◌*◌, ◌++◌, ℕ, IfSome, IfNone, length, take, drop};
ghost use Rattle.block_format.specs.Slot.{SpellsSlot, SlotFits, slot_bytes, slot_in, slot_part};

use crate::bytes::{is_same, put};
use byteorder::{ByteOrder, LittleEndian};
use vol_numbers::{Block, InoNo, Name};

/// How many bytes a slot has.
const SLOT_SIZE: usize = 256;

/// A slot of a directory.
#[derive(Clone, Copy, Debug, PartialEq, Eq)]
pub enum Slot {
    /// It holds no entry.
    Unused,
    /// The name of a node, and its number from 1 to 65,535.
    Entry { number: InoNo, name: Name },
}

/// The slot k of a block. None exactly where it is outside the grammar.
pub fn read_slot(from: &Block, k: u32) -> Option<Slot>
    requires { k < 16 }
    ensures found { IfSome result (λ slot. SpellsSlot slot (slot_part k from.now.bytes)) }
    ensures fields { IfSome result (λ slot. slot ≡ slot_in (slot_part k from.now.bytes)) }
    ensures none { IfNone result ((slot : _) → SpellsSlot slot (slot_part k from.now.bytes) → ⊥) }
{
    let at = SLOT_SIZE * k as usize;
    slot_of(&from.bytes[at..at + SLOT_SIZE])
}

/// Puts a slot into its place in a block. All other bytes stay.
pub fn write_slot(slot: &Slot, k: u32, into: &mut Block)
    requires k { k < 16 }
    requires fits { SlotFits slot.now }
    ensures bytes { into.new.bytes ≡ take (256 * k) into.old.bytes ++ slot_bytes slot.now ++ drop (256 * k + 256) into.old.bytes }
    ensures spelled { slot_part k into.new.bytes ≡ slot_bytes slot.now }
    ensures reads_back { slot_in (slot_part k into.new.bytes) ≡ slot.now }
    ensures others { (j : ℕ) → j ≢ k → slot_part j into.new.bytes ≡ slot_part j into.old.bytes }
{
    put(&spelled(slot), SLOT_SIZE * k as usize, &mut into.bytes);
}

/// The slot that the bytes spell.
fn slot_of(bytes: &[u8]) -> Option<Slot>
    requires { length bytes.now ≡ 256 }
    ensures found { IfSome result (λ slot. SpellsSlot slot bytes.now) }
    ensures fields { IfSome result (λ slot. slot ≡ slot_in bytes.now) }
    ensures none { IfNone result ((slot : _) → SpellsSlot slot bytes.now → ⊥) }
{
    let slot = fields(bytes)?;
    if !is_same(&spelled(&slot), bytes) {
        return None;
    }
    Some(slot)
}

/// What the fields of these bytes say. None exactly where that is no slot.
#[tactic(auto, unfolding(crate::specs::Slot::slot_in))]
fn fields(bytes: &[u8]) -> Option<Slot>
    requires { length bytes.now ≡ 256 }
    ensures found { IfSome result (λ slot. slot ≡ slot_in bytes.now) }
    ensures fits { IfSome result (λ slot. SlotFits slot) }
    ensures none { IfNone result (SlotFits (slot_in bytes.now) → ⊥) }
{
    let number = LittleEndian::read_u32(bytes);
    if number == 0 {
        return Some(Slot::Unused);
    }
    if number > 65_535 {
        return None;
    }
    let len = usize::from(bytes[4]).min(250);
    match Name::new(&bytes[6..6 + len]) {
        Ok(name) => Some(Slot::Entry { number, name }),
        Err(_) => None,
    }
}

/// The bytes of a slot.
fn spelled(slot: &Slot) -> [u8; SLOT_SIZE]
    requires { SlotFits slot.now }
    ensures { result ≡ slot_bytes slot.now }
{
    let mut bytes = [0; SLOT_SIZE];
    if let Slot::Entry { number, name } = slot {
        LittleEndian::write_u32(&mut bytes, *number);
        bytes[4] = name.as_bytes().len() as u8;
        bytes[6..].copy_from_slice(&name.padded());
    }
    bytes
}
