// The text of one step of a walk, piece by piece: what the walk shows there, and what is written before and behind it.
ghost use Rattle.store.specs.Looks.{seen};
ghost use Rattle.writer.specs.Sinks.{Takes};
ghost use Rattle.writing.specs.Stages.{own_text, step_text};

use crate::pieces::Pieces;
use crate::stage::Stage;
use store::look::Look;
use writer::Refused;

fn spell_look<P: Pieces>(pieces: &mut P, look: Look) -> Result<(), Refused>
    ensures { Takes P.took P.refuses pieces.old (own_text (seen look.entry)) result pieces.new }
{
    match look {
        Look::Mailbox(mailbox) => pieces.take_mailbox(mailbox),
        Look::Group { name, .. } => pieces.take_opening(name),
    }
}

pub(crate) fn spell_step<P: Pieces>(pieces: &mut P, stage: Stage, look: Look) -> Result<(), Refused>
    ensures { Takes P.took P.refuses pieces.old (step_text stage (seen look.entry)) result pieces.new }
{
    pieces.take_signs(stage.lead())?;
    spell_look(pieces, look)?;
    pieces.take_signs(stage.tail(look))
}
