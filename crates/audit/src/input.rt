// Reading an input, as much of it as there is space for. A failed read is told apart from the input's end, since a file that is cut short there
// would be another file.
ghost use Rattle.std.specs.Prelude.{◌<◌, ◌≤◌, length, take, IfOk};
ghost use Rattle.std.specs.Io.KnownBytes.{Consumes, IsAtEnd};

use std::io;
use std::io::Read;

// Fills the space from its start and answers how many bytes stand there: fewer than it holds only if the input has ended. A `while`, since each read
// tells where the next begins, and an input that ends early is no error.
pub(crate) fn read_all<R: Read>(input: &mut R, buf: &mut [u8]) -> io::Result<usize>
    ensures size { IfOk result (λ size. size ≤ length buf.new) }
    ensures bytes { IfOk result (λ size. Consumes (R.remaining input.old) (R.remaining input.new) (take size buf.new)) }
    ensures end { IfOk result (λ size. size < length buf.new → IsAtEnd (R.remaining input.new)) }
{
    let mut done = 0;
    while done < buf.len() {
        let more = input.read(&mut buf[done..])?;
        if more == 0 {
            return Ok(done);
        }
        done += more;
    }
    Ok(done)
}
