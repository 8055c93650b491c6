// The laws of layers, over every carrier.
ghost use Rattle.carrier.specs.Laws.{KeepsTheRules};
ghost use Rattle.prefix.specs.Laws.{LeavesOthers, PilesJoin};
ghost use Rattle.prefix.specs.Layers.{layered};

use crate::layer::Prefixed;
use carrier::laws::carriers_keep_the_rules;
use carrier::traits::Carrier;

// A layer keeps the rules of all carriers: what is set through it is got through it, and other names keep theirs.
pub fn layers_keep_the_rules<C: Carrier>()
    ensures { KeepsTheRules (layered C.Carrier.kind) }
{
    carriers_keep_the_rules::<Prefixed<C>>();
}

// So does a layer on a layer, and so on.
pub fn piles_keep_the_rules<C: Carrier>()
    ensures { KeepsTheRules (layered (layered C.Carrier.kind)) }
{
    carriers_keep_the_rules::<Prefixed<Prefixed<C>>>();
}

// The prefixes of a pile are joined, the lowest first.
pub fn piles_join_prefixes<C: Carrier>()
    ensures { PilesJoin C.Carrier.kind }
{}

// Names below that do not begin with the prefix are not altered.
pub fn layers_leave_other_names<C: Carrier>()
    ensures { LeavesOthers C.Carrier.kind }
{}
