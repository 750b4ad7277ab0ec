// What stands behind a line: the answer that its operation puts, or its refusal.
use quantity::Refusal;
use std::io;
use std::io::Write;

// Why an operation put no answer: it was refused, or its output failed.
#[derive(Drop)]
pub(crate) enum Unanswered {
    Refused(Refusal),
    Failed(io::Error),
}

impl From<Refusal> for Unanswered {
    fn from(refusal: Refusal) -> Unanswered {
        Unanswered::Refused(refusal)
    }
}

impl From<io::Error> for Unanswered {
    fn from(error: io::Error) -> Unanswered {
        Unanswered::Failed(error)
    }
}

// A refusal as X and its number.
pub(crate) fn put_refusal(out: &mut impl Write, refusal: Refusal) -> io::Result<()> {
    write!(out, ",X,{refusal}")
}
