// The two interfaces. What a carrier holds decides what it shows, takes and answers, and what it holds next.
ghost use Rattle.std.specs.Prelude.{◌≡◌, ℕ, List, length};
ghost use Rattle.std.specs.Option.{option_map};
ghost use Rattle.std.specs.List.{slice_get};
ghost use Rattle.carrier.specs.Kinds.{Kind};
ghost use Rattle.carrier.specs.Names.{Lists};
ghost use Rattle.carrier.specs.Steps.{set_answer, after_set};

use crate::faults::SetFault;

// What an implementation means: its kind, and what one of its values holds.
pub trait Carrier {
    ghost kind: { Kind };

    ghost held: { Self → kind.Held };
}

// The reading side.
pub trait Extractor: Carrier {
    // The names shown, in this side's own order.
    ghost order: { Self → List (List ℕ) };

    // The value that the name shows, as a part of the carrier.
    fn get<'a>(&'a self, name: &[u8]) -> Option<&'a [u8]>
        ensures { option_map (λ x. x.now) result ≡ Self.Carrier.kind.shown (Self.Carrier.held self.now) name.now };

    // How many names are shown.
    fn key_count(&self) -> usize
        ensures count { result ≡ length (order self.now) }
        ensures lists { Lists (order self.now) (Self.Carrier.kind.shown (Self.Carrier.held self.now)) };

    // The name at that place of the order.
    fn key_at(&self, at: usize) -> Option<&[u8]>
        ensures { option_map (λ x. x.now) result ≡ slice_get (order self.now) at };
}

// The writing side.
pub trait Injector: Carrier {
    // Whether a value of that length would be taken under the name.
    fn takes(&self, name: &[u8], len: usize) -> bool
        ensures { result ≡ Self.Carrier.kind.room (Self.Carrier.held self.now) name.now len };

    // Makes the name show the value; a refusal alters nothing.
    fn set(&mut self, name: &[u8], value: &[u8]) -> Result<(), SetFault>
        ensures answer { result ≡ set_answer Self.Carrier.kind (Self.Carrier.held self.old) name.now value.now }
        ensures after { Self.Carrier.held self.new ≡ after_set Self.Carrier.kind (Self.Carrier.held self.old) name.now value.now };

    // Makes the name show nothing.
    fn unset(&mut self, name: &[u8])
        ensures { Self.Carrier.held self.new ≡ Self.Carrier.kind.cut (Self.Carrier.held self.old) name.now };
}
