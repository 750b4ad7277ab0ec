// The refusal of a line whose numbers could not all be read: 61 or 62. Only such a line is gone through again for its shape.
ghost use Rattle.std.specs.Prelude.{◌≡◌, not, cond, [], length};
ghost use Rattle.std.specs.Option.{unwrap_or};
ghost use Rattle.lines.specs.Reading.{same_bytes, is_ended, first_in, others_in, is_misshapen};

use quantity::Refusal;

// 61 for a line that has not its shape, and otherwise 62, by what follows its letter, where so many fields are due behind that, or any count. The
// line is known to be refused.
pub(crate) fn fault(after: &[u8], count: Option<usize>) -> Refusal
    ensures { result ≡ cond (is_misshapen [] (unwrap_or count (length (others_in after.now))) after.now) Refusal.Shape Refusal.Number }
{
    if is_misshapen(after, count) {
        Refusal::Shape
    } else {
        Refusal::Number
    }
}

// Whether the line is not ended, its first field is more than the letter, or it has not so many fields behind that as are due.
#[tactic(auto, using(crate::proofs::Faults::misshapen_first))]
fn is_misshapen(after: &[u8], count: Option<usize>) -> bool
    ensures { result ≡ is_misshapen [] (unwrap_or count (length (others_in after.now))) after.now }
{
    goes_on(after)
        || match commas_in(after) {
            Some(commas) => commas != count.unwrap_or(commas),
            None => true,
        }
}

// Whether the first field goes on after the letter.
#[tactic(auto, using(crate::proofs::Faults::first_ends))]
fn goes_on(after: &[u8]) -> bool
    ensures { result ≡ not (same_bytes (first_in after.now) []) }
{
    match after {
        [] | [b',' | b'\n', ..] => false,
        _ => true,
    }
}

// How many commas the line has, each with a field after it; none of a line that is not ended. One pass, which ends at the line feed.
fn commas_in(after: &[u8]) -> Option<usize>
    ensures { result ≡ cond (is_ended after.now) (Some (length (others_in after.now))) None }
{
    let mut commas = 0;
    for byte in after {
        if *byte == b'\n' {
            return Some(commas);
        }
        if *byte == b',' {
            commas += 1;
        }
    }
    None
}
