// Laws of the definitions. A law is proved because a contract names it.
ghost use Rattle.ddvalue.specs.Laws.{LawfulValues, ItemsReadBack, WritingSettles};

// A dd value is a lawful tracestate value of at most 255 bytes.
pub fn values_are_lawful()
    ensures { LawfulValues }
{}

// A dd value reads back as the items that were written.
pub fn items_read_back()
    ensures { ItemsReadBack }
{}

// What was written once is written and read as it is.
pub fn writing_settles()
    ensures { WritingSettles }
{}
