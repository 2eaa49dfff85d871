// All marks of a source, and how it closes.
ghost use Rattle.std.specs.Prelude.{◌≡◌, [], IfOk, OnOk};

use crate::fault::Fault;
use crate::mark::Mark;
use crate::source::Source;
use std::alloc::{AllocError, Global};

#[derive(Drop)]
pub struct Collected {
    pub marks: Vec<Mark>,
    pub close: Result<(), Fault>,
}

// Takes every mark that waits. Only want of memory stops it earlier.
pub fn collect_marks<S: Source>(heap: Global, source: &mut S) -> Result<Collected, AllocError>
    ensures marks { IfOk result (λ all. all.marks.items ≡ S.waiting source.old) }
    ensures close { IfOk result (λ all. all.close ≡ S.close source.old) }
    ensures rest { OnOk result (S.waiting source.new ≡ []) }
    ensures same { S.close source.new ≡ S.close source.old }
{
    let mut marks = Vec::new(heap);
    let close = loop {
        match source.next() {
            Ok(Some(mark)) => marks.push(mark)?,
            Ok(None) => break Ok(()),
            Err(fault) => break Err(fault),
        }
    };
    Ok(Collected { marks, close })
}
