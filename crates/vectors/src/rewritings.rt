// Files of which new ones are made, given as hexadecimal bytes: moved between editions, put in columns, and restored from them.
use crate::answers::put_refusal;
use crate::hexadecimal::{MOST_BYTES, bytes_of, put_bytes};
use crate::text::number;
use archive::NotMade;
use lines::RefusedAt;
use quantity::Refusal;
use std::io;
use std::io::Write;

// What is made of the bytes.
#[derive(Clone, Copy)]
enum New {
    Edition2,
    Edition3,
    Columns,
    Archive,
}

// `E,` the edition that is converted from, 2 or 3, the size of the output buffer, at most 4096, and the bytes, at most 4096: N and the length, or
// X, the refusal and its line, or X and 66; then the whole buffer, which began as points. Another edition has no converter, and no answer.
pub(crate) fn of_edition(out: &mut impl Write, line: &[u8]) -> io::Result<()> {
    match number(line, 1) {
        2 => put_new(out, New::Edition3, number(line, 2), line, 3),
        3 => put_new(out, New::Edition2, number(line, 2), line, 3),
        _ => Ok(()),
    }
}

// `H,` the size of the output buffer and the bytes of an archive: the same, of the file in columns.
pub(crate) fn of_archive(out: &mut impl Write, line: &[u8]) -> io::Result<()> {
    put_new(out, New::Columns, number(line, 1), line, 2)
}

// `Z,` the size and the bytes of a file in columns: N and the length of the archive, or X and the refusal, then the whole buffer.
pub(crate) fn of_columns(out: &mut impl Write, line: &[u8]) -> io::Result<()> {
    put_new(out, New::Archive, number(line, 1), line, 2)
}

// The answer of what is made of the bytes behind the k-th comma, and the buffer of that size; none of a larger buffer than 4096.
fn put_new(out: &mut impl Write, what: New, size: u64, line: &[u8], k: usize) -> io::Result<()> {
    let mut space = [0; MOST_BYTES];
    let bytes = bytes_of(line, k, &mut space);
    match [b'.'; MOST_BYTES].get_mut(..size as usize) {
        Some(buf) => {
            put_answer(out, what, bytes, buf)?;
            out.write_all(b",")?;
            put_bytes(out, buf)
        }
        None => Ok(()),
    }
}

fn put_answer(out: &mut impl Write, what: New, bytes: &[u8], buf: &mut [u8]) -> io::Result<()> {
    match what {
        New::Edition2 => put_made(out, conversion::to_edition_2(bytes, buf)),
        New::Edition3 => put_made(out, conversion::to_edition_3(bytes, buf)),
        New::Columns => put_made(out, columns::to_columns(bytes, buf)),
        New::Archive => put_restored(out, columns::to_archive(bytes, buf)),
    }
}

fn put_made(out: &mut impl Write, length: Result<usize, NotMade>) -> io::Result<()> {
    match length {
        Ok(length) => write!(out, ",N,{length}"),
        Err(NotMade::At(RefusedAt { refusal, line })) => write!(out, ",X,{refusal},{line}"),
        Err(NotMade::NoRoom) => put_refusal(out, Refusal::Room),
    }
}

fn put_restored(out: &mut impl Write, length: Result<usize, Refusal>) -> io::Result<()> {
    match length {
        Ok(length) => write!(out, ",N,{length}"),
        Err(refusal) => put_refusal(out, refusal),
    }
}
