// The laws of carriers in the words of headers, for every implementation.
ghost use Rattle.carrier.specs.Laws.{KeepsTheRules};

use crate::traits::Carrier;

// Every kind of carrier keeps the rules of docs/CARRIERS.md.
pub fn carriers_keep_the_rules<C: Carrier>()
    ensures { KeepsTheRules C.Carrier.kind }
{}
