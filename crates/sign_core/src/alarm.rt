//! Telling that a state file seems cut short: it has bytes behind its last record.

ghost use Rattle.std.specs.Prelude.{◌≡◌, ◌∷◌, ℕ, List, length};
ghost use Rattle.state_file.specs.FileStore.{records_of};
ghost use Rattle.sign_core.specs.Alarm.{TellsSlot, last_slot, slot_behind};

use state_file::{Disk, FileStore, SlotList};

/// Hears of the state files that are opened and seem cut short or damaged.
pub trait Alarm {
    // the slots that it was told of, the last one first
    ghost slots: { Self → List ℕ };

    /// Bytes stand behind the last record of a state file, which is in this slot.
    fn bytes_behind(&mut self, slot: u32)
        ensures { slots self.new ≡ slot ∷ slots self.old };
}

/// An alarm that nobody hears. It takes no bytes.
impl Alarm for SlotList {
    ghost slots = { λ list. list };

    fn bytes_behind(&mut self, slot: u32) {
        self.push(slot);
    }
}

// The last of this number of slots.
fn last_slot(count: u32) -> Option<u32>
    ensures { result ≡ last_slot count }
{
    count.checked_sub(1)
}

/// The last record's slot, if the store's file was opened with bytes behind what an append can leave. Such a file was
/// cut short by a gate that was closed from outside, or bytes were added to it.
pub fn slot_behind<D: Disk + Drop>(store: &FileStore<D>) -> Option<u32>
    ensures { result ≡ slot_behind store.now }
{
    if store.has_bytes_behind() {
        last_slot(store.count())
    } else {
        None
    }
}

/// Tells the alarm of the last record's slot, if the store's file was opened with bytes behind it.
pub fn warn_behind<D: Disk + Drop, A: Alarm>(store: &FileStore<D>, alarm: &mut A)
    ensures { TellsSlot (slot_behind store.now) (A.slots alarm.old) (A.slots alarm.new) }
{
    if let Some(slot) = slot_behind(store) {
        alarm.bytes_behind(slot);
    }
}
