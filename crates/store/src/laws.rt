// The rules of a store, in the words of tags. A law is proved because a contract names it.
ghost use Rattle.store.specs.Laws.{ByteOrder, StaysSound, KeepsTags, RefusesWhenItMust};

// Keys are compared byte by byte from the left, and a front comes before what it is a front of.
#[tactic(auto, using(crate::proofs::Orders::byte_order))]
pub fn keys_are_in_byte_order()
    ensures { ByteOrder }
{}

// Every change leaves contents in order, lawful and within the limits.
#[tactic(auto, using(crate::proofs::Staying::stays_sound))]
pub fn contents_stay_sound()
    ensures { StaysSound }
{}

// A look-up finds what was put and not what was removed, and the order is the only one there is.
#[tactic(auto, using(crate::proofs::Rules::keeps_tags))]
pub fn tags_are_kept()
    ensures { KeepsTags }
{}

// A refusal alters nothing, and what takes no more room than there was is never refused.
#[tactic(auto, using(crate::proofs::Rules::refuses_when_it_must))]
pub fn refuses_when_it_must()
    ensures { RefusesWhenItMust }
{}
