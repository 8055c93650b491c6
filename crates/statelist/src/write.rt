// tracestate, written.
ghost use Rattle.std.specs.Option.{option_map};
ghost use Rattle.statelist.specs.Placing.{Answered};
ghost use Rattle.statelist.specs.Written.{written_list};

use crate::choose::Passing;
use crate::writer::ListWriter;

// Writes the list into the work bytes and says how long it is; none if they are too few.
pub fn write_tracestate(
    work: &mut [u8],
    dd: &[u8],
    ot: Option<&[u8]>,
    carried: Option<&[u8]>,
) -> Option<usize>
    ensures { Answered (written_list dd.now (option_map (λ x. x.now) ot.entry) (option_map (λ x. x.now) carried.entry)) work.old work.new result }
{
    let mut list = ListWriter { work, len: 0 };
    list.put_list(dd, Passing { ot, carried })?;
    Some(list.len)
}
