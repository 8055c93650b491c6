// Laws of the definitions. A law is proved because a contract names it.
ghost use Rattle.traceparent.specs.Cases.{Cases};
ghost use Rattle.traceparent.specs.Laws.{HeaderReadsBack, ReadTells, ShapeIs, ShapeOnly, WrittenLength, WrittenReadsBack};

// A written traceparent reads back as the same ids and keep decision, as a header's value too.
pub fn written_reads_back()
    ensures same { WrittenReadsBack }
    ensures header { HeaderReadsBack }
    ensures long { WrittenLength }
{}

// A text is taken apart exactly where it has the shape of a traceparent.
pub fn shape_is_determined()
    ensures is { ShapeIs }
    ensures only { ShapeOnly }
{}

// What is accepted has ids of 64 bits, neither of them zero, and the priority 0 or 1.
pub fn read_is_lawful()
    ensures { ReadTells }
{}

// The definitions at the examples of the rules.
pub fn cases_hold()
    ensures { Cases }
{}
