// Laws of the definitions, in the words of texts. A law is proved because a contract names it.
ghost use Rattle.text.specs.Laws.{TrimIs, TrimOnly, SplitFound, SplitParts, SplitNone, SplitLacks, PiecesJoin, PiecesOnly, StripIs, StripOnly};

// A text without blanks at its ends exists and is unique, and trimming gives it.
pub fn trim_is_determined()
    ensures is { TrimIs }
    ensures only { TrimOnly }
{}

// A text is parted at the first separator and nowhere else.
pub fn split_is_determined()
    ensures found { SplitFound }
    ensures parts { SplitParts }
    ensures none { SplitNone }
    ensures lacks { SplitLacks }
{}

// The pieces of a text make it up again, and no other pieces without a separator do.
pub fn pieces_are_determined()
    ensures join { PiecesJoin }
    ensures only { PiecesOnly }
{}

// A prefix is stripped exactly where it stands.
pub fn strip_is_determined()
    ensures is { StripIs }
    ensures only { StripOnly }
{}
