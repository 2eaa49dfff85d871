// What is given from the marks that are held, and counted.
ghost use Rattle.std.specs.Prelude.{◌≡◌, List};
ghost use Rattle.marks.specs.Proper.{AllProper};
ghost use Rattle.marks.specs.declared.mark.Mark.{Mark};
ghost use Rattle.blanks.specs.declared.state.State.TheVariants.{Holding};
ghost use Rattle.blanks.specs.Given.{outside, after, these, blanks, giving, long_run};
ghost use Rattle.blanks.specs.Ahead.{behind_run, ahead, counted, IsHolding, Gave};
ghost use Rattle.blanks.specs.Kept.{beside};

use crate::blank::state_after;
use crate::held::Held;
use crate::run::Run;
use crate::state::State;
use marks::fault::{Fault, Ground, Layer};
use marks::mark::Mark;

impl Held {
    // Nothing is held yet.
    pub(crate) fn none() -> Held
        ensures ahead { (ws : List Mark) → ahead result ws ≡ giving outside ws }
        ensures given { result.given ≡ 0 }
    {
        Held {
            state: State::Plain,
            given: 0,
            run: Run::none(),
        }
    }

    // The mark is given, and nothing is held then.
    pub(crate) fn pass(&mut self, m: Mark)
        ensures ahead { (ws : List Mark) → ahead self.new ws ≡ giving (after m) ws }
        ensures given { self.new.given ≡ counted self.old.given }
    {
        self.state = state_after(m);
        self.given = self.given.saturating_add(1);
    }

    // The run is held, and the mark behind it.
    pub(crate) fn hold(&mut self, behind: Option<Mark>)
        requires { AllProper (beside behind) }
        ensures ahead { (ws : List Mark) → ahead self.new ws ≡ these (blanks self.old.run) (behind_run behind ws) }
        ensures state { self.new.state ≡ Holding 0 behind }
        ensures given { self.new.given ≡ self.old.given }
    {
        self.state = State::Holding { from: 0, behind };
    }

    // Gives the next mark of a run that is held, or the mark behind it. With none left the layer stands outside a run.
    pub(crate) fn give(&mut self) -> Option<Mark>
        requires { IsHolding self.old.state }
        ensures { Gave self.old result self.new }
    {
        let State::Holding { from, behind } = &mut self.state else {
            return None;
        };
        if let Some(c) = self.run.get(*from) {
            *from += 1;
            self.given = self.given.saturating_add(1);
            return Some(Mark::Blank(c));
        }
        let Some(m) = *behind else {
            self.state = State::Plain;
            return None;
        };
        self.pass(m);
        Some(m)
    }

    // The fault of a run that is too long.
    pub(crate) fn long_run(&self) -> Fault
        ensures { result ≡ long_run self.now.given }
    {
        // `as`: a `usize` has no `From<u32>`, and `try_from` would ask for a fault that cannot be
        Layer::Blanks.fault(Ground::LongRun, self.given as usize)
    }
}
