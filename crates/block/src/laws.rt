// Laws of lines and blocks. A law is proved because a contract names it.
ghost use Rattle.block.specs.Laws.{LineIs, LineOnly, LinesAre, LinesOnly, WellFormedIs, WellFormedOnly, MachineAccepts};

// A line is taken exactly where one stands, and the lines of a text are those that it begins with.
pub fn lines_are_determined()
    ensures is { LineIs }
    ensures only { LineOnly }
    ensures front { LinesAre }
    ensures only_front { LinesOnly }
{}

// A block is the text of lawful lines, those lines are read from it, and the machine accepts it.
pub fn blocks_are_determined()
    ensures is { WellFormedIs }
    ensures only { WellFormedOnly }
    ensures machine { MachineAccepts }
{}
