// The entries of a list, one a line, and members indented below their group.
use crate::looking::Seen;
use mailboxes::list::MailboxList;
use store::look::Look;

// Reads a header's value and prints what it holds, or why it is refused.
pub fn read(rt: &HostRuntime, text: &[u8]) -> anyhow::Result<()> {
    let mut list = MailboxList::new(rt.alloc())?;
    match list.read_text(text) {
        Ok(()) => all(rt, &list),
        Err(fault) => {
            println!(rt; "refused, {fault}")?;
            Ok(())
        }
    }
}

fn all(rt: &HostRuntime, list: &MailboxList) -> anyhow::Result<()> {
    let count = list.count_entries();
    if count == 0 {
        println!(rt; "no entries")?;
    }
    for i in 0..count {
        entry(rt, list, i)?;
    }
    Ok(())
}

fn entry(rt: &HostRuntime, list: &MailboxList, i: usize) -> anyhow::Result<()> {
    let Ok(look) = list.look(i, None) else {
        return Ok(());
    };
    let seen = Seen(look);
    match look {
        Look::Mailbox(_) => println!(rt; "mailbox: {seen}")?,
        Look::Group { members: count, .. } => {
            println!(rt; "group: {seen}, {count} members")?;
            members(rt, list, i, count)?;
        }
    }
    Ok(())
}

fn members(rt: &HostRuntime, list: &MailboxList, i: usize, count: usize) -> anyhow::Result<()> {
    for j in 0..count {
        if let Ok(look) = list.look(i, Some(j)) {
            println!(rt; "  mailbox: {}", Seen(look))?;
        }
    }
    Ok(())
}
