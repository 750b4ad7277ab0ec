// Whole archives, given as hexadecimal bytes.
use crate::hexadecimal::{MOST_BYTES, bytes_of};
use crate::text::number;
use archive::AUDIT_LIMIT;
use quantity::Refusal;
use std::io;
use std::io::Write;

// `A,` the bytes, at most 4096: the audit's whole output line. More bytes are over the limit here, and not audited as if they were whole.
pub(crate) fn of_file(out: &mut impl Write, line: &[u8]) -> io::Result<()> {
    let mut space = [0; MOST_BYTES + 1];
    put_report(out, bytes_of(line, 1, &mut space), MOST_BYTES)
}

// `N,` a number: the output line of that many zero bytes, at most one more than the program's limit.
pub(crate) fn of_zeros(out: &mut impl Write, line: &[u8]) -> io::Result<()> {
    let zeros = [0; AUDIT_LIMIT + 1];
    let count = zeros.len().min(number(line, 1) as usize);
    put_report(out, &zeros[..count], AUDIT_LIMIT)
}

// The audit's line of an input, with a limit.
fn put_report(out: &mut impl Write, input: &[u8], limit: usize) -> io::Result<()> {
    let report = archive::report(input, limit);
    put_text(out, &report.bytes[..report.length])
}

// The line that was written at the front of a space, up to the next position, or the refusal.
pub(crate) fn put_written(
    out: &mut impl Write,
    space: &[u8],
    next: Result<usize, Refusal>,
) -> io::Result<()> {
    match next {
        Ok(next) => put_text(out, space.get(..next).unwrap_or_default()),
        Err(refusal) => write!(out, ",refused {refusal}"),
    }
}

// A line that was written, without the line feed that ends it.
fn put_text(out: &mut impl Write, line: &[u8]) -> io::Result<()> {
    if let Some((_, text)) = line.split_last() {
        out.write_all(b",")?;
        out.write_all(text)?;
    }
    Ok(())
}
