// Looks at a whole list.
use crate::desk::Desk;
use crate::row::Row;
use life::answer::Answer;
use life::event::Part;
use life::turn::Turn;
use std::alloc::{AllocError, Global};

// Looks at every entry in one row, and at every member of the groups among them in another.
pub fn look_around(rt: &HostRuntime, desk: &mut Desk) -> anyhow::Result<()> {
    let mut entries = Row::new(rt.alloc());
    look_at_entries(&mut entries, desk.list.count_entries())?;
    entries.tell(rt, desk)?;
    let sizes = group_sizes(rt.alloc(), entries.turns.as_slice())?;
    let mut members = Row::new(rt.alloc());
    look_at_groups(&mut members, sizes.as_slice())?;
    members.tell(rt, desk)
}

fn look_at_entries(row: &mut Row<'static>, count: usize) -> Result<(), AllocError> {
    for entry in 0..count {
        let member = None;
        row.look(Part { entry, member })?;
    }
    Ok(())
}

// How many members each entry has that was looked at; a mailbox has none. A row of its own: the borrow checker does not cover
// a function that reads one row of turns and fills another.
fn group_sizes<S>(heap: Global, looks: &[Turn<'_, S>]) -> Result<Vec<usize>, AllocError> {
    let mut sizes = Vec::new(heap);
    for look in looks {
        match look.answer {
            Ok(Answer::Group { members, .. }) => sizes.push(members)?,
            _ => sizes.push(0)?,
        }
    }
    Ok(sizes)
}

fn look_at_groups(row: &mut Row<'static>, sizes: &[usize]) -> Result<(), AllocError> {
    for (entry, size) in sizes.iter().enumerate() {
        look_at_members(row, entry, *size)?;
    }
    Ok(())
}

fn look_at_members(row: &mut Row<'static>, entry: usize, size: usize) -> Result<(), AllocError> {
    for j in 0..size {
        let member = Some(j);
        row.look(Part { entry, member })?;
    }
    Ok(())
}
