// A filter: each line of standard input is a header's value, and a line of JSON answers it.
use crate::desk::Desk;
use crate::json::{Json, Listing, Refusal};
use std::alloc::AllocError;
use std::io::{BufRead, BufReader, Write};
use std::str::from_utf8;

// Answers gather until there are so many bytes of them: few large writes are quicker than many small ones.
const ENOUGH: usize = 65_536;

pub fn lines(rt: &HostRuntime) -> anyhow::Result<()> {
    let heap = rt.alloc();
    let mut desk = Desk::new(heap)?;
    let mut input = BufReader::new(heap, rt.stdin())?;
    let mut line = Vec::new(heap);
    let mut answers = String::new(heap);
    // counted only so that the loop has an end; and no `split`, since `read_until` fills the one line again
    for _ in 0..u64::MAX {
        line.clear();
        if input.read_until(b'\n', &mut line)? == 0 {
            break;
        }
        answer(&mut desk, value(line.as_slice()), &mut answers)?;
        if answers.len() >= ENOUGH {
            hand_over(rt, &mut answers)?;
        }
    }
    hand_over(rt, &mut answers)
}

// The line without its end, which the last line may lack.
fn value(line: &[u8]) -> &[u8] {
    match line {
        [front @ .., b'\n'] => front,
        _ => line,
    }
}

// The page takes every list, and what is written is UTF-8, so that the written text is always there.
fn answer(desk: &mut Desk, text: &[u8], answers: &mut String) -> Result<(), AllocError> {
    if let Err(fault) = desk.list.read_text(text) {
        return write!(answers, "{}\n", Refusal(fault));
    }
    let length = desk.list.write(desk.page.as_mut_slice()).ok();
    let written = written(desk, length);
    let list = &desk.list;
    Listing { list, written }.put(answers)?;
    answers.push('\n')
}

fn written(desk: &Desk, length: Option<usize>) -> Option<&str> {
    from_utf8(desk.text(length?)).ok()
}

fn hand_over(rt: &HostRuntime, answers: &mut String) -> anyhow::Result<()> {
    rt.stdout().write_all(answers.as_bytes())?;
    answers.clear();
    Ok(())
}
