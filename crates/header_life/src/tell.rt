// A row performed, and told event by event.
use crate::desk::Desk;
use crate::looking::Seen;
use crate::row::Row;
use life::event::Event;
use life::row::perform;
use life::turn::Turn;
use mailboxes::list::MailboxList;

impl Row<'_> {
    // Performs the row, and prints each event with its answer.
    pub fn tell(&mut self, rt: &HostRuntime, desk: &mut Desk) -> anyhow::Result<()> {
        let page = desk.page.as_mut_slice();
        perform(&mut desk.list, self.turns.as_mut_slice(), page);
        tell_all(rt, &desk.list, self.turns.as_slice())
    }
}

fn tell_all<S>(rt: &HostRuntime, list: &MailboxList, turns: &[Turn<'_, S>]) -> anyhow::Result<()> {
    for turn in turns {
        tell_turn(rt, list, turn)?;
    }
    Ok(())
}

// A row answers a look by lengths alone, so that the characters are looked up once more. No row of this program changes
// what it has looked at.
fn tell_turn<S>(rt: &HostRuntime, list: &MailboxList, turn: &Turn<'_, S>) -> anyhow::Result<()> {
    if let Event::Look(part) = turn.event {
        if let Ok(look) = list.look(part.entry, part.member) {
            println!(rt; "  {turn}: {}", Seen(look))?;
            return Ok(());
        }
    }
    println!(rt; "  {turn}")?;
    Ok(())
}
