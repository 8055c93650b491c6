// Memory whose first items are in use. Its length stays after making, and what lies past the items in use is free.
ghost use Rattle.std.specs.Prelude.{◌≡◌, ◌+◌, ◌≤◌, true, [], length, min, vec_len};

// Not the length of the `Vec`: that is how much memory was handed in, and stays.
#[derive(Drop)]
pub(crate) struct InUse<T> {
    memory: Vec<T>,
    used: usize,
    ghost within: { used ≤ vec_len memory },
}

// That the room stays is said of two states, so it stands in contracts, and no invariant can say it.
impl<T: Copy> InUse<T> {
    ghost use Rattle.store.specs.Uses.{has_room, in_use, replaced, room};

    // The memory up to the limit, with nothing in use.
    #[tactic(auto, unfolding(crate::specs::Uses::in_use))]
    pub(crate) fn new(mut memory: Vec<T>, limit: usize) -> InUse<T>
        ensures items { in_use result ≡ [] }
        ensures room { room result ≡ min (vec_len memory) limit }
    {
        memory.truncate(limit);
        InUse { memory, used: 0 }
    }

    // Nothing is in use any more.
    #[tactic(auto, unfolding(crate::specs::Uses::in_use))]
    pub(crate) fn clear(&mut self)
        ensures items { in_use self.new ≡ [] }
        ensures room { room self.new ≡ room self.old }
    {
        self.used = 0;
    }

    // The items in use.
    #[tactic(auto, unfolding(crate::specs::Uses::in_use))]
    pub(crate) fn as_slice(&self) -> &[T]
        ensures { result.now ≡ in_use self.now }
    {
        let memory = self.memory.as_slice();
        &memory[..self.used]
    }

    // Whether there is room for so many items in the place of some that are in use.
    pub(crate) fn has_room(&self, old: usize, new: usize) -> bool
        requires { old ≤ length (in_use self.now) }
        ensures { result ≡ has_room self.now old new }
    {
        new <= self.memory.len() - (self.used - old)
    }

    // Puts `new` in the place of the `old` items at `at`.
    pub(crate) fn replace(&mut self, at: usize, old: usize, new: &[T])
        requires within { at + old ≤ length (in_use self.old) }
        requires fits { has_room self.old old (length new.now) ≡ true }
        ensures items { in_use self.new ≡ replaced (in_use self.old) at old new.now }
        ensures room { room self.new ≡ room self.old }
    {
        let (used, end) = (self.used, at + new.len());
        self.memory.copy_within(at + old..used, end);
        let memory = self.memory.as_mut_slice();
        memory[at..end].copy_from_slice(new);
        self.used = used - old + new.len();
    }
}
