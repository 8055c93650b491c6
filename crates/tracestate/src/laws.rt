// The definitions at the examples of the rules. They are proved because a contract names them.
ghost use Rattle.tracestate.specs.Cases.{Cases};

pub fn cases_hold()
    ensures { Cases }
{}
