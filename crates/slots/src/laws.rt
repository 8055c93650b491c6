// The laws of slot tables.
ghost use Rattle.carrier.specs.Laws.{KeepsTheRules};
ghost use Rattle.slots.specs.Laws.{SetFillsOne};
ghost use Rattle.slots.specs.Tables.{slot_table};

use crate::table::SlotTable;
use carrier::laws::carriers_keep_the_rules;

// A slot table keeps the rules of all carriers.
pub fn slot_tables_keep_the_rules()
    ensures { KeepsTheRules slot_table }
{
    carriers_keep_the_rules::<SlotTable>();
}

// A set fills one slot, and the other fifteen stay.
pub fn set_fills_one_slot()
    ensures { SetFillsOne }
{}
