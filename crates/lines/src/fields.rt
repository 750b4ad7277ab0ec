// The numbers of a line, read one after the other behind its letter.
ghost use Rattle.lines.specs.Inside.Parts.{NumbersRead};

use crate::fault::fault;
use crate::number::read_field;
use quantity::Refusal;

// Reads the numbers after a line's letter into out, as many as it holds, and answers how many bytes the line takes, its letter among them, or the
// refusal, 61 or 62. It stops at the first field that is no number: what is wrong with the line is then told by `fault`.
#[tactic(auto, using(crate::proofs::Turns::ends))]
pub(crate) fn fill_numbers(after: &[u8], out: &mut [u64]) -> Result<usize, Refusal>
    ensures { NumbersRead after.now out.new result }
{
    let count = out.len();
    let mut at: usize = 0;
    for place in out.iter_mut() {
        let Some(number) = read_field(&after[at..]) else {
            return Err(fault(after, Some(count)));
        };
        *place = number.value;
        at += number.size;
    }
    if after.get(at) == Some(&b'\n') {
        Ok(at + 2)
    } else {
        Err(fault(after, Some(count)))
    }
}
