// The line that the audit program prints: R with what an accepted file ends with, or X with the refusal and its line (docs/OPERATIONS.md, "The audit
// and the program").
ghost use Rattle.std.specs.Prelude.{◌≡◌, ◌≤◌, length};
ghost use Rattle.lines.specs.Line.{text_of};
ghost use Rattle.lines.specs.Report.{report_text, most_reported, longest_output, output_of};

use crate::writing::put_text;

// The most numbers of a printed line, those of R.
const MOST_REPORTED: usize = 5;

// The most digits of a number of 64 bits.
const MOST_DIGITS_64: usize = 20;

// The most bytes of a printed line: a letter, the numbers, each after a comma, and the line feed.
const LONGEST: usize = 1 + MOST_REPORTED * (1 + MOST_DIGITS_64) + 1;

/// What is printed, of any numbers of 64 bits: the line R or the line X.
// The refusal is a number and no `Refusal`, since X can be made of any.
#[derive(Clone, Copy)]
pub enum Report {
    /// R: what an accepted file ends with. Kept seconds and cold register are not printed.
    EndState {
        /// the meter's serial number
        serial: u64,
        /// how many samples were accepted
        accepted: u64,
        /// how many samples were refused
        refused: u64,
        /// the heat register, in mJ
        heat_register: u64,
        /// the volume, in mL
        volume: u64,
    },
    /// X: why a file is refused, and at which line, counted from 1, or at 0 where the file was not looked into (68).
    Refused {
        /// the refusal's number
        number: u64,
        /// the line's number, or 0
        line: u64,
    },
}

/// A printed line with its line feed: it is the first length of the bytes, and those behind it are 0. It comes by value, with room for any such
/// line, so that no buffer can be too short (docs/OPERATIONS.md, "The audit and the program").
// Array and length are two fields, since the contract gives every byte, also those behind the line.
#[derive(Clone, Copy)]
pub struct OutputLine {
    /// the line, and zeros behind it
    pub bytes: [u8; LONGEST],
    /// how many bytes the line has, at most 107
    pub length: usize,
}

/// Makes the line of a report, of any numbers, with its line feed (docs/OPERATIONS.md, "The audit and the program"). Nothing is refused.
#[tactic(auto, unfolding(crate::specs::Report::report_text))]
pub fn report_line(report: Report) -> OutputLine
    ensures answer { result ≡ output_of (report_text report) }
    ensures within { result.length ≤ longest_output }
{
    match report {
        Report::EndState {
            serial,
            accepted,
            refused,
            heat_register,
            volume,
        } => output_of(b"R", &[serial, accepted, refused, heat_register, volume]),
        Report::Refused { number, line } => output_of(b"X", &[number, line]),
    }
}

// The printed line of a first field and numbers.
#[tactic(auto, using(crate::proofs::Reports::line_within, buffer::proofs::Puts::front_at), unfolding(crate::specs::Report::output_of))]
fn output_of(first: &[u8], numbers: &[u64]) -> OutputLine
    requires { (length first.now ≤ 1) × (length numbers.now ≤ most_reported) }
    ensures answer { result ≡ output_of (text_of first.now numbers.now) }
    ensures within { result.length ≤ longest_output }
{
    let mut bytes = [0u8; LONGEST];
    let length = put_text(&mut bytes, first, numbers);
    OutputLine { bytes, length }
}
