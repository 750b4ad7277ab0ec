// Runs vectors from outside: repeats each line of its input with the answer behind it. The files `stdin` and `stdout` beside src/ have the lines and the
// answers that are due; a line that begins with '#' says what the cases below it are, and whence they come. docs/ARCHITECTURE.md, "vectors", has the
// lines of each operation.
#![tactic(auto)]

mod answers;
mod archives;
mod hexadecimal;
mod laws;
mod meters;
mod profiles;
mod readers;
mod readouts;
mod rewritings;
mod temperatures;
mod text;
mod verdicts;
mod waters;
mod writers;

use answers::{Unanswered, put_refusal};
use std::io;
use std::io::{Read, Write};

// The most bytes of an input that are read.
const MOST_INPUT: usize = 1048576;

fn main(rt: HostRuntime) -> io::Result<()> {
    let mut space = empty_space();
    let mut input = rt.reader().take(MOST_INPUT as u64);
    let copied = io::copy(&mut input, &mut &mut space[..])? as usize;
    // `take` let no more through, which the checker does not know of a reader of unknown bytes.
    let size = copied.min(MOST_INPUT);
    run(&mut io::writer(&rt), &space[..size])
}

// Apart from `main`, where the checker would count so many zeros one by one.
fn empty_space() -> [u8; MOST_INPUT] {
    [0; MOST_INPUT]
}

fn run(out: &mut impl Write, input: &[u8]) -> io::Result<()> {
    for ended in input.split_inclusive(|byte| *byte == b'\n') {
        let line = ended.strip_suffix(b"\n").unwrap_or(ended);
        out.write_all(line)?;
        put_answer(out, line)?;
        out.write_all(b"\n")?;
    }
    Ok(())
}

fn put_answer(out: &mut impl Write, line: &[u8]) -> io::Result<()> {
    match operate(out, line) {
        Ok(()) => Ok(()),
        Err(Unanswered::Refused(refusal)) => put_refusal(out, refusal),
        Err(Unanswered::Failed(error)) => Err(error),
    }
}

// The line's first byte names the operation that its numbers go to.
fn operate(out: &mut impl Write, line: &[u8]) -> Result<(), Unanswered> {
    match line {
        [b'T', ..] => temperatures::of_reading(out, line)?,
        [b'P', ..] => temperatures::of_published(out, line)?,
        [b'K', ..] => waters::of_pair(out, line)?,
        [b'W', ..] => waters::of_degree(out, line)?,
        [b'Q', ..] => waters::of_published(out, line)?,
        [b'F', ..] => meters::of_card(out, line)?,
        [b'M', ..] => meters::of_state(out, line)?,
        [b'D', ..] => profiles::of_quarter(out, line)?,
        [b'V', ..] => verdicts::of_point(out, line)?,
        [b'G', ..] => verdicts::limit_at_point(out, line)?,
        [b'J', ..] => verdicts::of_limit(out, line)?,
        [b'O', ..] => readers::of_opening(out, line)?,
        [b'C', ..] => readers::of_card(out, line)?,
        [b'S', ..] => readers::of_sample_or_end(out, line)?,
        [b'A', ..] => archives::of_file(out, line)?,
        [b'N', ..] => archives::of_zeros(out, line)?,
        [b'L', ..] => writers::of_values(out, line)?,
        [b'E', ..] => rewritings::of_edition(out, line)?,
        [b'H', ..] => rewritings::of_archive(out, line)?,
        [b'Z', ..] => rewritings::of_columns(out, line)?,
        [b'B', ..] => readouts::of_values(out, line)?,
        [b'Y', ..] => readouts::of_bytes(out, line)?,
        _ => {}
    }
    Ok(())
}
