// The conditions on a text that is to be put into a lent buffer. A writer that asks for them before its first byte leaves the buffer as it was where one
// of them refuses.
ghost use Rattle.std.specs.Prelude.{◌≡◌};
ghost use Rattle.quantity.specs.Refusals.{first_number, first_of, refusal_number};
ghost use Rattle.buffer.specs.Putting.{as_rows, put_rows};
ghost use Rattle.buffer.specs.Theorems.{FitsExactly};

use quantity::{Refusal, first_refusal};

/// What refuses a text of `needed` bytes that is to be put into a buffer of `size` bytes at the position `at`, counted from 0. In this order: 67 if `at` is
/// above `size`; what refuses the text itself, `own`; 66 if fewer than `needed` bytes are left from `at` on (docs/OPERATIONS.md, "Refusals").
pub fn put_refusal(
    size: usize,
    at: usize,
    own: Result<(), Refusal>,
    needed: usize,
) -> Result<(), Refusal>
    ensures answer { result ≡ first_of (put_rows size at (as_rows own) needed) }
    ensures number { refusal_number result ≡ first_number (put_rows size at (as_rows own) needed) }
    ensures fits_exactly { FitsExactly size at own needed result }
{
    first_refusal(&[Refusal::PlaceBeyond.when(size < at)])?;
    own?;
    first_refusal(&[Refusal::Room.when(size - at < needed)])
}
