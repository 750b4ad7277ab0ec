// Refusals with the lines at which they refuse a file.
ghost use Rattle.std.specs.Prelude.{◌≡◌};
ghost use Rattle.archive.specs.Places.{on_line};

use lines::RefusedAt;
use quantity::Refusal;

// An answer that concerns one line, with that line's number added to its refusal.
pub(crate) fn on_line<T>(answer: Result<T, Refusal>, line: u64) -> Result<T, RefusedAt>
    ensures { result ≡ on_line line answer }
{
    answer.map_err(|refusal| RefusedAt { refusal, line })
}
