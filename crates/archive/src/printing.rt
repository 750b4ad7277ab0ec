// The line that a program prints of a file, for a program with a limit on its input.
ghost use Rattle.std.specs.Prelude.{◌≡◌, ◌≤◌};
ghost use Rattle.lines.specs.Report.{longest_output};
ghost use Rattle.archive.specs.Report.{of_audited, report_of, line_of, ArchiveExactly, OverLimitExactly};

use crate::auditing::audit;
use lines::{OutputLine, RefusedAt, Report};
use meter::Meter;
use quantity::Refusal;

/// The limit of the program `audit`, in bytes: it does not look into a longer input.
pub const AUDIT_LIMIT: usize = 65536;

/// The line to print of a whole input (docs/OPERATIONS.md, "The audit and the program"). If the input has more bytes than limit it is X with 68 and
/// line 0. Otherwise it is R with what the audit's meter holds, or X with the audit's refusal and its line.
pub fn report(input: &[u8], limit: usize) -> OutputLine
    ensures answer { result ≡ line_of (report_of limit input.now) }
    ensures within { result.length ≤ longest_output }
    ensures archive_exactly { ArchiveExactly limit input.now result }
    ensures over_limit_exactly { OverLimitExactly limit input.now result }
{
    lines::report_line(found(input, limit))
}

// What is reported of an input. Its length is looked at before a byte of it.
#[tactic(auto, unfolding(crate::specs::Report::report_of))]
fn found(input: &[u8], limit: usize) -> Report
    ensures { result ≡ report_of limit input.now }
{
    if limit < input.len() {
        return Report::Refused {
            number: Refusal::InputSize.number(),
            line: 0,
        };
    }
    of_audited(audit(input))
}

// What is reported of the audit's answer. A function and no `From`, since the answer's meaning is this crate's and its types are of others.
#[tactic(auto, unfolding(crate::specs::Report::of_audited))]
fn of_audited(answer: Result<Meter, RefusedAt>) -> Report
    ensures { result ≡ of_audited answer }
{
    match answer {
        Ok(m) => Report::EndState {
            serial: m.card.serial,
            accepted: m.accepted,
            refused: m.refused,
            heat_register: m.heat_register,
            volume: m.volume,
        },
        Err(RefusedAt { refusal, line }) => Report::Refused {
            number: refusal.number(),
            line,
        },
    }
}
