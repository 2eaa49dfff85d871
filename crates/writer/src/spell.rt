// The pieces of a written text, given to a sink.
ghost use Rattle.std.specs.Prelude.{[], ◌∷◌};
ghost use Rattle.addresses.specs.Lent.{lent};
ghost use Rattle.addresses.specs.Written.{quoted, bracketed, mailbox_text};
ghost use Rattle.writer.specs.Pieces.{opening};
ghost use Rattle.writer.specs.Sinks.{Takes};

use crate::bare::is_bare;
use crate::escaping::Escaping;
use crate::signs::{CLOSE_BRACKET, COLON, OPEN_BRACKET, QUOTE, SPACE};
use crate::sink::{Refused, Sink};
use addresses::name_addr::NameAddr;

fn spell_row<S: Sink>(sink: &mut S, row: &[u32]) -> Result<(), Refused>
    ensures { Takes S.took S.refuses sink.old row.now result sink.new }
{
    for c in row {
        sink.push(*c)?;
    }
    Ok(())
}

fn spell_quoted<S: Sink>(sink: &mut S, name: &[u32]) -> Result<(), Refused>
    ensures { Takes S.took S.refuses sink.old (quoted name.now) result sink.new }
{
    sink.push(QUOTE)?;
    spell_row(&mut Escaping { sink }, name)?;
    sink.push(QUOTE)
}

fn spell_bracketed<S: Sink>(sink: &mut S, addr: &[u32]) -> Result<(), Refused>
    ensures { Takes S.took S.refuses sink.old (bracketed addr.now) result sink.new }
{
    sink.push(OPEN_BRACKET)?;
    spell_row(sink, addr)?;
    sink.push(CLOSE_BRACKET)
}

pub fn spell_opening<S: Sink>(sink: &mut S, name: &[u32]) -> Result<(), Refused>
    ensures { Takes S.took S.refuses sink.old (opening name.now) result sink.new }
{
    spell_quoted(sink, name)?;
    sink.push(COLON)
}

pub fn spell_mailbox<S: Sink>(sink: &mut S, mailbox: NameAddr<u32>) -> Result<(), Refused>
    ensures { Takes S.took S.refuses sink.old (mailbox_text (lent mailbox.entry)) result sink.new }
{
    match mailbox.name {
        Some(name) => {
            spell_quoted(sink, name)?;
            sink.push(SPACE)?;
            spell_bracketed(sink, mailbox.addr)
        }
        None if is_bare(mailbox.addr) => spell_row(sink, mailbox.addr),
        None => spell_bracketed(sink, mailbox.addr),
    }
}
