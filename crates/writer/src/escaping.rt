// A sink for what stands inside quotes: it puts a backslash before each quote and each backslash.
ghost use Rattle.std.specs.Prelude.{◌≡◌};
ghost use Rattle.addresses.specs.Written.{escaped};

use crate::signs::{BACKSLASH, is_escaped};
use crate::sink::{Refused, Sink};

#[derive(Drop)]
pub(crate) struct Escaping<'a, S> {
    pub(crate) sink: &'a mut S,
}

impl<'a, S: Sink> Sink for Escaping<'a, S> {
    ghost use Rattle.writer.specs.SinkLaws.{escaping_laws};

    ghost took = { λ s cs t. S.took s.sink.now (escaped cs) t.sink.now × (t.sink.ghost_name ≡ s.sink.ghost_name) };

    ghost refuses = { λ s cs. S.refuses s.sink.now (escaped cs) };

    ghost laws = { escaping_laws (λ s. s.sink) S.laws };

    fn push(&mut self, c: u32) -> Result<(), Refused> {
        if !is_escaped(c) {
            return self.sink.push(c);
        }
        self.sink.push(BACKSLASH)?;
        self.sink.push(c)
    }
}
