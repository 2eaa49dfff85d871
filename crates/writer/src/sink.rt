// What takes the characters of a text one after the other: it counts their bytes, or holds them.
ghost use Rattle.std.specs.Prelude.{ℕ, List, [], ◌∷◌};
ghost use Rattle.writer.specs.Sinks.{Takes, SinkLaws};

// A character that has no bytes, or for whose bytes there is no room.
#[derive(Clone, Copy, Debug, PartialEq, Eq)]
pub struct Refused;

pub trait Sink {
    // A sink, characters that it took, and the sink behind them.
    ghost took: { Self → List ℕ → Self → Type 0 };

    // A sink, and characters of which it cannot take all.
    ghost refuses: { Self → List ℕ → Type 0 };

    fn push(&mut self, c: u32) -> Result<(), Refused>
        ensures { Takes took refuses self.old (c ∷ []) result self.new };

    ghost laws: { SinkLaws took refuses };
}
