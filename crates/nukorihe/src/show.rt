// What a source gives, in words.
use marks::collect::collect_marks;
use marks::source::Source;

// Takes every mark of the source, and prints them.
pub fn source<S: Source + Drop>(
    rt: &HostRuntime,
    title: &str,
    mut source: S,
) -> anyhow::Result<()> {
    let all = collect_marks(rt.alloc(), &mut source)?;
    println!(rt; "{title}:")?;
    for mark in &all.marks {
        println!(rt; "  {mark}")?;
    }
    println!(rt; "  {all}")?;
    Ok(())
}
