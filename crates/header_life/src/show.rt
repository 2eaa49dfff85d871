// The marks of a text, in words.
use marks::collect::collect_marks;
use marks::text::TextSource;

// `nukorihe` prints the same under a title, indented: the words are `marks`', and a line of printing is all they share.

// Prints every mark, their number and how the source closes.
pub fn text(rt: &HostRuntime, text: &[u8]) -> anyhow::Result<()> {
    let mut source = TextSource::new(text);
    let all = collect_marks(rt.alloc(), &mut source)?;
    for mark in &all.marks {
        println!(rt; "{mark}")?;
    }
    println!(rt; "{all}")?;
    Ok(())
}
