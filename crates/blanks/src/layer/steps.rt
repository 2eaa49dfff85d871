// One answer of the layer, by where it stands.
ghost use Rattle.std.specs.Prelude.{◌≡◌, true, [], ◌∷◌};
ghost use Rattle.characters.specs.WhiteSpace.{white};
ghost use Rattle.marks.specs.declared.mark.Mark.TheVariants.{Blank};
ghost use Rattle.blanks.specs.declared.state.State.TheVariants.{Plain, AfterWord};
ghost use Rattle.blanks.specs.Ahead.{IsHolding};
ghost use Rattle.blanks.specs.Answers.{Answers};

use crate::blank::{code, flat};
use crate::gather::gather;
use crate::layer::BlankLayer;
use crate::run::TooLong;
use crate::state::State;
use marks::fault::Fault;
use marks::mark::Mark;
use marks::source::Source;

impl<S: Source> BlankLayer<S> {
    // Outside a run each mark passes.
    pub(super) fn pass(&mut self) -> Result<Option<Mark>, Fault>
        requires { self.old.held.state ≡ Plain }
        ensures { Answers S.waiting S.close [] self.old result self.new }
    {
        let Some(m) = self.below.next()? else {
            return Ok(None);
        };
        self.held.pass(m);
        Ok(Some(flat(m)))
    }

    // After a word a blank begins a run, and any other mark passes.
    pub(super) fn after_word(&mut self) -> Result<Option<Mark>, Fault>
        requires { self.old.held.state ≡ AfterWord }
        ensures { Answers S.waiting S.close [] self.old result self.new }
    {
        let Some(m) = self.below.next()? else {
            return Ok(None);
        };
        if let Some(first) = code(m) {
            return self.begin(first);
        }
        self.held.pass(m);
        Ok(Some(m))
    }

    // Reads the run that begins with the blank `first`, and gives the first mark of what it comes to.
    fn begin(&mut self, first: u32) -> Result<Option<Mark>, Fault>
        requires { (self.old.held.state ≡ AfterWord) × (white first ≡ true) }
        ensures { Answers S.waiting S.close (Blank first ∷ []) self.old result self.new }
    {
        match gather(&mut self.below, &mut self.held.run, first) {
            Ok(behind) => {
                self.held.hold(behind);
                self.give()
            }
            Err(TooLong) => {
                self.held.state = State::Long;
                Err(self.held.long_run())
            }
        }
    }

    // Where a run is held, it is given before what waits below.
    pub(super) fn give(&mut self) -> Result<Option<Mark>, Fault>
        requires { IsHolding self.old.held.state }
        ensures { Answers S.waiting S.close [] self.old result self.new }
    {
        match self.held.give() {
            Some(m) => Ok(Some(m)),
            None => self.pass(),
        }
    }
}
