// A refusal in the original's words.
use crate::{Cause, Fault, Operation, Propagator, Worded};
use std::error::Error;
use std::fmt;

// One impl for each, since none of `Display` may stand for all that is `Worded`.
impl fmt::Display for Propagator {
    ghost use Rattle.std.specs.Prelude.{Some};
    ghost use Rattle.fault.specs.Faults.{propagator_text};

    ghost output = { λ p. Some (propagator_text p) };

    fn fmt<W: fmt::Write>(&self, f: &mut fmt::Formatter<W>) -> fmt::Result {
        f.write_str(self.text())
    }
}

impl fmt::Display for Operation {
    ghost use Rattle.std.specs.Prelude.{Some};
    ghost use Rattle.fault.specs.Faults.{operation_text};

    ghost output = { λ o. Some (operation_text o) };

    fn fmt<W: fmt::Write>(&self, f: &mut fmt::Formatter<W>) -> fmt::Result {
        f.write_str(self.text())
    }
}

impl fmt::Display for Cause {
    ghost use Rattle.std.specs.Prelude.{Some};
    ghost use Rattle.fault.specs.Faults.{message_text};

    ghost output = { λ c. Some (message_text c) };

    fn fmt<W: fmt::Write>(&self, f: &mut fmt::Formatter<W>) -> fmt::Result {
        f.write_str(self.text())
    }
}

impl fmt::Display for Fault {
    ghost use Rattle.std.specs.Prelude.{Some};
    ghost use Rattle.fault.specs.Faults.{fault_text};

    ghost output = { λ f. Some (fault_text f) };

    fn fmt<W: fmt::Write>(&self, f: &mut fmt::Formatter<W>) -> fmt::Result {
        let Fault {
            cause,
            propagator,
            operation,
        } = *self;
        write!(f, "Cannot {operation} from {propagator}, {cause}")
    }
}

impl Error for Cause {}

impl Error for Fault {}
