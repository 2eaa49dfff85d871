// Rows of events.
ghost use Rattle.std.specs.Prelude.{map, length};
ghost use Rattle.addresses.specs.Life.{WholeLife};
ghost use Rattle.mailboxes.specs.Listed.{listed};
ghost use Rattle.life.specs.Rows.{Row};
ghost use Rattle.life.specs.Turns.{asked_in, told_in};

use crate::call::call;
use crate::turn::Turn;
use mailboxes::list::MailboxList;
use marks::source::Source;

// Performs the events in their order on the list, and puts the answer to each beside it. Each writing goes into `out`.
pub fn perform<S: Source>(list: &mut MailboxList, turns: &mut [Turn<'_, S>], out: &mut [u8])
    ensures row { Row S.Source.waiting S.Source.close (listed list.old) out.old turns.old turns.new (listed list.new) out.new }
    ensures life { WholeLife (listed list.old) (map (asked_in S.Source.waiting S.Source.close (length out.old)) turns.old) (map told_in turns.new) (listed list.new) }
{
    for turn in turns.iter_mut() {
        turn.answer = call(list, turn.event, &mut turn.source, out);
    }
}
