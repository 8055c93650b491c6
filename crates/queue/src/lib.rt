// The pile that queue jobs use: the prefix `job-` over a line block.
#![tactic(auto)]

ghost use Rattle.std.specs.Prelude.{◌≡◌, IfOk};
ghost use Rattle.std.specs.Result.{is_ok};
ghost use Rattle.block.specs.Blocks.{opens};
ghost use Rattle.carrier.specs.Laws.{KeepsTheRules};
ghost use Rattle.queue.specs.Queues.{Opened, queue};

use block::faults::OpenFault;
use block::writer::LineBlock;
use carrier::laws::carriers_keep_the_rules;
use prefix::layer::Prefixed;
use prefix::prefixes::Prefix;

// The headers of a job stand under this prefix in the queue's block.
pub const QUEUE_PREFIX: &[u8] = b"job-";

pub type Queue<'m> = Prefixed<LineBlock<'m>>;

// Opens the pile on the block at the front of the memory.
pub fn open_queue<'m>(memory: &'m mut [u8], len: usize) -> Result<Queue<'m>, OpenFault>
    ensures opens { is_ok result ≡ opens memory.old len }
    ensures opened { IfOk result (Opened memory.entry len) }
{
    let prefix = Prefix::new(QUEUE_PREFIX).unwrap();
    let block = LineBlock::open(memory, len)?;
    Ok(Prefixed::new(block, prefix))
}

// The pile keeps the rules of all carriers, with nothing shown of its own.
pub fn queues_keep_the_rules()
    ensures { KeepsTheRules queue }
{
    carriers_keep_the_rules::<Queue>();
}
