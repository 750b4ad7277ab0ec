// The program over a reader and a writer in memory: that it does end without an error, which its contract supposes, and what stands there after a
// read or a write that fails.
use crate::audit;
use std::io;
use std::io::{ErrorKind, Read, Write};
use std::process::Abort;

// Two samples, of which the second is refused, since its supply is colder than its return.
const ACCEPTED: &[u8] =
    b"HEATARCHIVE,1\nC,7,1,100,10,5,150,3,100,15000,1500000,3000000,200000\nS,0,900,1308968,1077935\nS,5,900,1077935,1308968\nE,1,1,0,0\n";

// Gives some bytes, and then only errors.
#[derive(Drop)]
struct Broken<'a> {
    left: &'a [u8],
}

impl Read for Broken<'_> {
    fn read(&mut self, buf: &mut [u8]) -> io::Result<usize> {
        if self.left.is_empty() {
            return Err(io::Error::from(ErrorKind::ConnectionReset));
        }
        self.left.read(buf)
    }
}

// Takes a byte at a time, so many of them; then fails once, and takes on as before.
#[derive(Drop)]
struct Narrow {
    taken: Vec<u8>,
    room: usize,
}

impl Write for Narrow {
    fn write(&mut self, buf: &[u8]) -> io::Result<usize> {
        if self.room == 0 {
            self.room = usize::MAX;
            return Err(io::Error::from(ErrorKind::ConnectionReset));
        }
        self.room -= 1;
        self.taken.write(&buf[..buf.len().min(1)])
    }

    fn flush(&mut self) -> io::Result<()> {
        Ok(())
    }
}

// The program ends well, and has written this line and no more.
fn prints(rt: &impl Abort, mut input: &[u8], mut out: Vec<u8>, line: &[u8]) {
    let ended = audit(&mut input, &mut out);
    assert!(rt; ended.is_ok());
    assert!(rt; out.as_slice() == line);
}

#[test]
fn accepted_input(rt: HostRuntime) {
    prints(&rt, ACCEPTED, Vec::new(rt.alloc()), b"R,7,1,1,0,0\n");
}

#[test]
fn refused_input(rt: HostRuntime) {
    prints(&rt, b"", Vec::new(rt.alloc()), b"X,60,1\n");
}

#[test]
fn input_at_the_limit(rt: HostRuntime) {
    prints(&rt, &[0; 65536], Vec::new(rt.alloc()), b"X,60,1\n");
}

#[test]
fn input_over_the_limit(rt: HostRuntime) {
    prints(&rt, &[0; 65537], Vec::new(rt.alloc()), b"X,68,0\n");
}

// Also where all that was read before would be an archive.
#[test]
fn failed_read(rt: HostRuntime) {
    let mut input = Broken { left: ACCEPTED };
    let mut out = Vec::new(rt.alloc());
    let ended = audit(&mut input, &mut out);
    assert!(rt; ended.is_err());
    assert!(rt; out.is_empty());
}

#[test]
fn failed_write(rt: HostRuntime) {
    let mut input = ACCEPTED;
    let mut out = Narrow {
        taken: Vec::new(rt.alloc()),
        room: 11,
    };
    let ended = audit(&mut input, &mut out);
    assert!(rt; ended.is_err());
    assert!(rt; out.taken.as_slice() == b"R,7,1,1,0,0".as_slice());
}
