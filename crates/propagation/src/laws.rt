// Laws of the definitions. A law is proved because a contract names it.
ghost use Rattle.propagation.specs.Laws.{AcceptedAreMade, ChangesFollow};
ghost use Rattle.propagation.specs.Tables.{AllOrNone};

use carrier::traits::Carrier;

// Changes are made in their order, and all of them where none is refused.
#[tactic(auto, using(crate::proofs::Chains::accepted_are_made, crate::proofs::Chains::changes_append))]
pub fn changes_are_made()
    ensures made { AcceptedAreMade }
    ensures follow { ChangesFollow }
{}

// An inject shows all its headers or none of its form, and every other name shows what it showed, on any carrier.
#[tactic(auto, using(crate::proofs::Showing::injects))]
pub fn injects_show_all_or_none<C: Carrier>()
    ensures { AllOrNone C.Carrier.kind }
{}
