// The comments that are open, one inside another.
ghost use Rattle.std.specs.Prelude.{◌≡◌, true};
ghost use Rattle.reader.specs.States.{outside_comments};

use crate::state::State;

pub const MAX_DEPTH: u8 = 100;

#[derive(Clone, Copy)]
pub struct Nesting {
    // the state that the outermost began in
    pub began_in: State,
    pub depth: u8,
    ghost rests: { outside_comments began_in ≡ true },
}
