// The writer of one number behind its comma, for lines that are put together number by number.
ghost use Rattle.std.specs.Prelude.{◌≡◌, length};
ghost use Rattle.quantity.specs.Refusals.{first_number, refusal_number};
ghost use Rattle.buffer.specs.Putting.{put_rows, put_of, buffer_after};
ghost use Rattle.lines.specs.Columns.{field_text, field_rows};
ghost use Rattle.lines.specs.Theorems.{FieldExactly};

use crate::number::{LEAST_LONG, put_field, width};
use buffer::put_refusal;
use quantity::{Refusal, first_refusal};

/// Puts a comma and a number into buf from the position at on, counted from 0, and answers the position behind it; all other bytes stay. Refusals, in
/// this order, which leave buf as it was: 67 if at is above the length of buf; 62 if the number has over 18 digits; 66 if there are fewer bytes from at
/// on than comma and number take (docs/OPERATIONS.md, "One line: reading and writing").
#[tactic(auto, unfolding(buffer::specs::Putting::buffer_after))]
pub fn write_field(buf: &mut [u8], at: usize, number: u64) -> Result<usize, Refusal>
    ensures answer { result ≡ put_of (length buf.old) at (field_rows number) (field_text number) }
    ensures buffer { buf.new ≡ buffer_after buf.old at (field_text number) result }
    ensures number { refusal_number result ≡ first_number (put_rows (length buf.old) at (field_rows number) (length (field_text number))) }
    ensures field_exactly { FieldExactly (length buf.old) at number result }
{
    let own = first_refusal(&[Refusal::Number.when(LEAST_LONG <= number)]);
    put_refusal(buf.len(), at, own, width(number) + 1)?;
    Ok(at + put_field(&mut buf[at..], number))
}
