// The table of sixteen slots.
ghost use Rattle.std.specs.Prelude.{◌≡◌, true, length, replicate, if◌then◌else◌, Some, None, position};
ghost use Rattle.std.specs.List.{list_all};
ghost use Rattle.carrier.specs.Names.{distinct};
ghost use Rattle.slots.specs.Places.{lawful_place, named, free, names, room, place_for};
ghost use Rattle.slots.specs.Slots.{places_of};
ghost use Rattle.slots.specs.Tables.{slot_table};

use crate::slot::{MAX_VALUE, Slot};
use carrier::faults::SetFault;
use carrier::names::is_name;
use carrier::traits::{Carrier, Extractor, Injector};
use text::check::is_lawful;

// How many slots a table has.
pub const SLOTS: usize = 16;

// What the slots hold is lawful, and no name stands in two of them.
#[derive(Drop)]
pub struct SlotTable {
    slots: [Slot; SLOTS],
    ghost sixteen: { length slots ≡ 16 },
    ghost lawful: { list_all lawful_place (places_of slots) ≡ true },
    ghost once: { distinct (names (places_of slots)) ≡ true },
}

impl SlotTable {
    // A table with all slots free.
    pub fn new() -> SlotTable
        ensures { places_of result.slots ≡ replicate 16 None }
    {
        SlotTable {
            slots: [Slot::new(); SLOTS],
        }
    }

    // The slot that has the name.
    fn find(&self, name: &[u8]) -> Option<usize>
        ensures { result ≡ position (named name.now) (places_of self.now.slots) }
    {
        self.slots.iter().position(|slot| slot.is_named(name))
    }

    // The first free slot.
    fn find_free(&self) -> Option<usize>
        ensures { result ≡ position free (places_of self.now.slots) }
    {
        self.slots.iter().position(|slot| slot.is_free())
    }

    // Where a value of that length goes under the name, if it is taken.
    fn slot_for(&self, name: &[u8], len: usize) -> Option<usize>
        ensures { result ≡ (if room (places_of self.now.slots) name.now len then Some (place_for (places_of self.now.slots) name.now) else None) }
    {
        if !is_name(name) || len > MAX_VALUE {
            return None;
        }
        self.find(name).or_else(|| self.find_free())
    }
}

impl Carrier for SlotTable {
    ghost kind = { slot_table };

    ghost held = { λ t. places_of t.slots };
}

impl Extractor for SlotTable {
    ghost order = { λ t. names (places_of t.slots) };

    fn get<'a>(&'a self, name: &[u8]) -> Option<&'a [u8]> {
        let at = self.find(name)?;
        self.slots[at].value()
    }

    fn key_count(&self) -> usize {
        self.slots.iter().filter(|slot| !slot.is_free()).count()
    }

    // The chain begins as that of `key_count`: its type holds a closure, so no function can answer it.
    fn key_at(&self, at: usize) -> Option<&[u8]> {
        self.slots
            .iter()
            .filter(|slot| !slot.is_free())
            .nth(at)
            .and_then(|slot| slot.name())
    }
}

impl Injector for SlotTable {
    fn takes(&self, name: &[u8], len: usize) -> bool {
        self.slot_for(name, len).is_some()
    }

    fn set(&mut self, name: &[u8], value: &[u8]) -> Result<(), SetFault> {
        // Every carrier's set begins so; what follows differs.
        if !is_name(name) || !is_lawful(value) {
            return Err(SetFault::Unlawful);
        }
        let at = self.slot_for(name, value.len()).ok_or(SetFault::Full)?;
        self.slots[at].fill(name, value);
        Ok(())
    }

    fn unset(&mut self, name: &[u8]) {
        if let Some(at) = self.find(name) {
            self.slots[at].clear();
        }
    }
}
