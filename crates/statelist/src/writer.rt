// A tracestate list, written member by member.
ghost use Rattle.std.specs.Prelude.{◌≡◌, ◌≤◌, length};

use crate::choose::Passing;
use text::append::append;
use text::pieces::Pieces;
use text::trim::trim;
use tracestate::read::TRACESTATE_MAX_MEMBERS;

// The list as far as it is written. The work bytes are lent, so how many of them are the list stands beside them.
#[derive(Drop)]
pub(crate) struct ListWriter<'w> {
    pub(crate) work: &'w mut [u8],
    pub(crate) len: usize,
    ghost within: { len ≤ length work.now },
}

// After `None` the work bytes are too few for the list, and what they hold is free. That they are the same loan stands in each contract
// (`same`): it is said of two states, and no invariant can say it.
impl<'w> ListWriter<'w> {
    ghost use Rattle.std.specs.Prelude.{◌++◌, take};
    ghost use Rattle.statelist.specs.Choosing.{given, listed};
    ghost use Rattle.statelist.specs.Placing.{followed};
    ghost use Rattle.statelist.specs.Writing.{Added, so_far};
    ghost use Rattle.statelist.specs.Written.{carried_pieces, passed, written_list};

    // Adds a piece; none if it does not fit, where `append` would write as much as does.
    fn put(&mut self, piece: &[u8]) -> Option<()>
        ensures same { self.new.work.ghost_name ≡ self.old.work.ghost_name }
        ensures added { Added (so_far self.old ++ piece.now) self.new result }
    {
        if piece.len() > self.work.len() - self.len {
            return None;
        }
        self.len = append(self.work, self.len, piece);
        Some(())
    }

    // Adds a member: what leads it in, and its text.
    fn put_member(&mut self, lead: &[u8], text: &[u8]) -> Option<()>
        ensures same { self.new.work.ghost_name ≡ self.old.work.ghost_name }
        ensures added { Added (so_far self.old ++ (lead.now ++ text.now)) self.new result }
    {
        self.put(lead)?;
        self.put(text)
    }

    // Adds the first carried members that are passed on, up to so many; each follows a comma.
    fn put_carried(&mut self, passing: Passing, most: usize) -> Option<()>
        ensures same { self.new.work.ghost_name ≡ self.old.work.ghost_name }
        ensures added { Added (so_far self.old ++ followed (take most (passed (given passing.entry) (carried_pieces (listed passing.entry))))) self.new result }
    {
        let Some(list) = passing.carried else {
            return Some(());
        };
        let members = Pieces::new(list, b',')
            .map(trim)
            .filter(|text| passing.takes(text))
            .take(most);
        for member in members {
            self.put_member(b",", member)?;
        }
        Some(())
    }

    // Adds all members: dd's, one of the ot value unless it is carried, and what is passed on.
    pub(crate) fn put_list(&mut self, dd: &[u8], passing: Passing) -> Option<()>
        ensures same { self.new.work.ghost_name ≡ self.old.work.ghost_name }
        ensures added { Added (so_far self.old ++ written_list dd.now (given passing.entry) (listed passing.entry)) self.new result }
    {
        self.put_member(b"dd=", dd)?;
        // A match: a new ot value is a member more, and leaves room for one less.
        match passing.new_ot() {
            Some(value) => {
                self.put_member(b",ot=", value)?;
                self.put_carried(passing, TRACESTATE_MAX_MEMBERS - 2)
            }
            None => self.put_carried(passing, TRACESTATE_MAX_MEMBERS - 1),
        }
    }
}
