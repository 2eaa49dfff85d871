// What a source is expected to give.
use marks::collect::collect_marks;
use marks::fault::{Fault, Ground, Layer};
use marks::mark::Mark;
use marks::source::Source;
use std::alloc::Global;
use std::process::Abort;
use std::test::Fail;

// The heap comes beside `rt`: outside a test the runtime has no `Abort`, and what has `Abort` need have no heap.

// The source gives just these marks, and then closes so, as often as it is asked.
pub fn gives<S: Source>(
    rt: &impl Abort,
    heap: Global,
    source: &mut S,
    marks: &[Mark],
    close: Result<(), Fault>,
) -> Result<(), Fail> {
    let all = collect_marks(heap, source)?;
    assert_eq!(rt; all.marks.as_slice(), marks);
    assert_eq!(rt; all.close, close);
    let again = collect_marks(heap, source)?;
    assert_eq!(rt; again.marks.len(), 0);
    assert_eq!(rt; again.close, close);
    Ok(())
}

// The source gives so many marks, and then closes so.
pub fn counts<S: Source>(
    rt: &impl Abort,
    heap: Global,
    source: &mut S,
    count: usize,
    close: Result<(), Fault>,
) -> Result<(), Fail> {
    let all = collect_marks(heap, source)?;
    assert_eq!(rt; all.marks.len(), count);
    assert_eq!(rt; all.close, close);
    Ok(())
}

pub fn source_fault(ground: Ground, place: usize) -> Result<(), Fault> {
    Err(Layer::Source.fault(ground, place))
}

pub fn long_run(place: usize) -> Result<(), Fault> {
    Err(Layer::Blanks.fault(Ground::LongRun, place))
}
