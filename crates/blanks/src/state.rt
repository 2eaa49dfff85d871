// Where the layer stands between two answers.
use marks::mark::Mark;

#[derive(Clone, Copy)]
pub enum State {
    // nothing is held, and the last mark was neither a Word nor a word character
    Plain,
    // nothing is held, and the last mark was a Word or a word character
    AfterWord,
    // a run is held, whose blank at `from` is given next, and the mark behind it, if there is one
    Holding { from: usize, behind: Option<Mark> },
    // a run was too long, and ended all
    Long,
}
