// One event. Each makes the very call that a holder of the list makes.
// An event is matched, and is no closure: a row keeps its events, shows them in words and may repeat them.
ghost use Rattle.addresses.specs.Additions.{added};
ghost use Rattle.addresses.specs.Outcomes.{ComesOut};
ghost use Rattle.mailboxes.specs.Listed.{listed};
ghost use Rattle.life.specs.Asked.{addition_asked};
ghost use Rattle.life.specs.Rows.{Performed};

use crate::answer::Answer;
use crate::event::{Addition, Event};
use mailboxes::list::MailboxList;
use marks::fault::Fault;
use marks::source::Source;

fn add(list: &mut MailboxList, addition: Addition<'_>) -> Result<(), Fault>
    ensures { ComesOut (listed list.old) (added (listed list.old) (addition_asked addition.entry)) result (listed list.new) }
{
    match addition {
        Addition::Mailbox(mailbox) => list.add_mailbox(mailbox.name, mailbox.addr),
        Addition::Group { name } => list.add_group(name),
        Addition::Member { entry, mailbox } => list.add_member(entry, mailbox.name, mailbox.addr),
    }
}

pub(crate) fn call<S: Source>(
    list: &mut MailboxList,
    event: Event<'_>,
    source: &mut S,
    out: &mut [u8],
) -> Result<Answer, Fault>
    ensures { Performed S.Source.waiting S.Source.close (listed list.old) out.old event.entry source.old result source.new (listed list.new) out.new }
{
    match event {
        Event::Read => list.read(source).map(|()| Answer::Done),
        Event::ReadText(text) => list.read_text(text).map(|()| Answer::Done),
        Event::Add(addition) => add(list, addition).map(|()| Answer::Done),
        Event::Remove(part) => list.remove(part.entry, part.member).map(|()| Answer::Done),
        Event::Write => list.write(out).map(Answer::Number),
        Event::CountMailboxes => Ok(Answer::Number(list.count_mailboxes())),
        Event::CountEntries => Ok(Answer::Number(list.count_entries())),
        Event::Look(part) => list.look(part.entry, part.member).map(Answer::from),
    }
}
