// The program `audit`: reads a file on standard input and prints one line about it (docs/OPERATIONS.md, "The audit and the program").
#![tactic(auto)]

mod input;
#[cfg(test)]
mod tests;

ghost use Rattle.std.specs.Prelude.{OnOk, IfSome};
ghost use Rattle.std.specs.Io.KnownBytes.{Appends};
ghost use Rattle.lines.specs.Report.{report_text};
ghost use Rattle.archive.specs.Report.{audit_limit, report_of};

use archive::AUDIT_LIMIT;
use std::io;
use std::io::{Read, Write};

fn main(rt: HostRuntime) -> io::Result<()> {
    audit(&mut rt.reader(), &mut io::writer(&rt))
}

// Writes the line of the whole input. Up to one byte more than the limit is read, which is enough to tell that an input is longer. After a failed
// read nothing is printed. Over any reader and writer, so that its contract can say what is read and written: of standard input and output none can.
#[tactic(auto, using(crate::proofs::Whole::audited))]
fn audit<R: Read, W: Write>(input: &mut R, out: &mut W) -> io::Result<()>
    ensures { OnOk result (IfSome (R.remaining input.old) (λ bytes. Appends (W.contents out.old) (W.contents out.new)
        (report_text (report_of audit_limit bytes)))) }
{
    let mut space = [0u8; AUDIT_LIMIT + 1];
    let used = input::read_all(input, &mut space)?;
    let line = archive::report(&space[..used], AUDIT_LIMIT);
    out.write_all(&line.bytes[..line.length])?;
    Ok(())
}
