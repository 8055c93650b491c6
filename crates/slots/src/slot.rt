// One slot, and what stands in it.
ghost use Rattle.std.specs.Prelude.{◌≡◌, ◌≤◌, length, Some, None};
ghost use Rattle.std.specs.Option.{option_map};
ghost use Rattle.slots.specs.Places.{entry, named, free};
ghost use Rattle.slots.specs.Slots.{place_of};

use carrier::names::MAX_NAME;
use text::inline::Inline;

// The longest value that a slot has room for.
pub(crate) const MAX_VALUE: usize = 1_024;

// A slot is free where it has no name; its value counts only where it has one. That both are lawful is said by a ghost field of the
// table and by none here: an array's element of a type with a ghost field cannot be lent by `&mut` to `fill`, since the checker does
// not cover it.
#[derive(Clone, Copy)]
pub(crate) struct Slot {
    name: Option<Inline<MAX_NAME>>,
    value: Inline<MAX_VALUE>,
}

impl Slot {
    // A free slot.
    pub(crate) fn new() -> Slot
        ensures { place_of result ≡ None }
    {
        Slot {
            name: None,
            value: Inline::new(),
        }
    }

    // This and `value` differ in a field, which no parameter can name.
    pub(crate) fn name(&self) -> Option<&[u8]>
        ensures { option_map (λ x. x.now) result ≡ option_map (λ e. e.name) (place_of self.now) }
    {
        self.name.as_ref().map(|name| name.as_slice())
    }

    pub(crate) fn value(&self) -> Option<&[u8]>
        ensures { option_map (λ x. x.now) result ≡ option_map (λ e. e.value) (place_of self.now) }
    {
        self.name.as_ref().map(|_| self.value.as_slice())
    }

    pub(crate) fn is_free(&self) -> bool
        ensures { result ≡ free (place_of self.now) }
    {
        self.name.is_none()
    }

    pub(crate) fn is_named(&self, name: &[u8]) -> bool
        ensures { result ≡ named name.now (place_of self.now) }
    {
        self.name().is_some_and(|own| own == name)
    }

    // The slot has this name and value from now on. Both are written in place: a new slot would be moved whole, 1,104 bytes for the
    // shortest value.
    pub(crate) fn fill(&mut self, name: &[u8], value: &[u8])
        requires name { length name.now ≤ 64 }
        requires value { length value.now ≤ 1024 }
        ensures { place_of self.new ≡ Some (entry name.now value.now) }
    {
        let own = self.name.get_or_insert_with(Inline::new);
        own.clear();
        own.push(name).unwrap();
        self.value.clear();
        self.value.push(value).unwrap();
    }

    // The slot is free from now on.
    pub(crate) fn clear(&mut self)
        ensures { place_of self.new ≡ None }
    {
        self.name = None;
    }
}
