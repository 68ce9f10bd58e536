//! The slots for entries that wait, each with room for one. There are more if more wait, and these are
//! given back once none waits.

ghost use Rattle.std.specs.Prelude.{◌≡◌, ◌+◌, ◌<◌, ◌≤◌, ◌++◌, IsTrue, OnOk, OnErr, length, drop, slice_get};
ghost use Rattle.circular_buffer.specs.Buffer.{buffer};
ghost use Rattle.tn_discipline.specs.{HalfLine.effect_entries, Keys.gives_entry};
ghost use Rattle.tn_pty.specs.{Terminal.max_waiting, Waiting.{HasSlots, HasSlotFor}};

use circular_buffer::HeapCircularBuffer;
use std::alloc::AllocError;
use tn_discipline::{Effect, Entry, Role};

/// The most entries that may wait.
pub(crate) const MAX_WAITING: usize = 1024;

/// The number of slots at the start, and again once no entry waits.
pub(crate) const FEW_SLOTS: usize = 16;

/// Finds a slot for the entry that a key of this role makes, if it makes one. If all are taken, it gets
/// twice as many, at most 1,024.
///
/// # Errors
///
/// - `AllocError`: there is no memory for more slots.
pub(crate) fn find_slot(
    entries: &mut HeapCircularBuffer<Entry>,
    role: Role,
) -> Result<(), AllocError>
    requires some { HasSlots entries.old }
    requires room { IsTrue (gives_entry role) → length entries.old.items < max_waiting }
    ensures found { OnOk result (HasSlotFor entries.new role) }
    ensures items { entries.new.items ≡ entries.old.items }
    ensures some { HasSlots entries.new }
    ensures only_an_entry { OnErr result (IsTrue (gives_entry role)) }
{
    let slots = entries.capacity();
    if entries.len() < slots || !role.gives_entry() {
        return Ok(());
    }
    entries.resize((slots * 2).min(MAX_WAITING))?;
    Ok(())
}

/// Appends the entry of an effect, for which there is a slot.
pub(crate) fn keep(entries: &mut HeapCircularBuffer<Entry>, effect: Effect)
    requires { length entries.old.items + length (effect_entries effect) ≤ entries.old.capacity }
    ensures { let kept = entries.old.items ++ effect_entries effect in
        entries.new ≡ buffer kept entries.old.capacity }
{
    if let Effect::Gives(entry) = effect {
        let _room = entries.try_push_back(entry);
    }
}

/// Takes the first entry. If no other waits, it gives slots back until 16 are left, or keeps them if
/// there is no memory for these 16.
pub(crate) fn take_first(entries: &mut HeapCircularBuffer<Entry>) -> Option<Entry>
    requires { HasSlots entries.old }
    ensures first { result ≡ slice_get entries.old.items 0 }
    ensures rest { entries.new.items ≡ drop 1 entries.old.items }
    ensures some { HasSlots entries.new }
{
    let first = entries.pop_front();
    give_back(entries);
    first
}

// Gives slots back if no entry waits, and memory is found for those that are left.
fn give_back(entries: &mut HeapCircularBuffer<Entry>)
    requires { HasSlots entries.old }
    ensures items { entries.new.items ≡ entries.old.items }
    ensures some { HasSlots entries.new }
{
    if entries.is_empty() && entries.capacity() > FEW_SLOTS {
        let _kept = entries.resize(FEW_SLOTS);
    }
}
