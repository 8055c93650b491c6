// Laws of every written list, in the words of its reader. A law is proved because a contract names it.
ghost use Rattle.statelist.specs.Laws.{WrittenLawful, WrittenFits, ForeignKept, OwnReadBack, Settles};

// A written list is a lawful tracestate with dd first, and its pieces are the members.
pub fn written_is_lawful()
    ensures { WrittenLawful }
{}

// It fits a header value.
pub fn written_fits()
    ensures { WrittenFits }
{}

// The foreign members of the carried list stand in it, from the first on, up to 32 members.
pub fn foreign_is_kept()
    ensures { ForeignKept }
{}

// What was written of our own is read back.
pub fn own_is_read_back()
    ensures { OwnReadBack }
{}

// What was read and is written again keeps all other members.
pub fn settles()
    ensures { Settles }
{}
