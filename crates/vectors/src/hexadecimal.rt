// Bytes in hexadecimal, read and written.
ghost use Rattle.std.specs.Prelude.{◌≤◌, length};

use crate::text::last_field;
use std::io;
use std::io::Write;

// The most bytes that an operation takes.
pub(crate) const MOST_BYTES: usize = 4096;

// The bytes behind the k-th comma of a line, its last field, put at the front of buf: as many as it holds.
pub(crate) fn bytes_of<'a>(line: &[u8], k: usize, buf: &'a mut [u8]) -> &'a [u8]
    ensures { length result.now ≤ length buf.old }
{
    let (pairs, _) = last_field(line, k).as_chunks::<2>();
    let n = pairs.len().min(buf.len());
    let bytes = &mut buf[..n];
    for (byte, [high, low]) in bytes.iter_mut().zip(pairs) {
        *byte = digit(*high) * 16 + digit(*low);
    }
    bytes
}

// The value of a digit, small letters for ten to fifteen; 0 for any other byte, also for capital letters, which `to_digit` would take.
fn digit(byte: u8) -> u8
    ensures { result ≤ 15 }
{
    match byte {
        b'0'..=b'9' => byte - b'0',
        b'a'..=b'f' => byte - b'a' + 10,
        _ => 0,
    }
}

// Writes bytes, two digits each.
pub(crate) fn put_bytes(out: &mut impl Write, bytes: &[u8]) -> io::Result<()> {
    for byte in bytes {
        write!(out, "{byte:02x}")?;
    }
    Ok(())
}
