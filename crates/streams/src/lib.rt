// Input as bytes, from any reader.
#![tactic(auto)]

ghost use Rattle.std.specs.Prelude.{◌≡◌, ◌<◌, ◌≤◌, length, take, IfOk, IfSome};
ghost use Rattle.std.specs.Io.KnownBytes.{Consumes, IsAtEnd};

use std::io;
use std::io::Read;

// Reads to the start of a buffer until it is full or the input ends, and gives how many bytes that was. Where a read fails, its error is passed on, and the
// buffer may hold what came before it.
pub fn fill<R: Read>(from: &mut R, to: &mut [u8]) -> io::Result<usize>
    ensures size { length to.new ≡ length to.old }
    ensures within { IfOk result (λ n. n ≤ length to.new) }
    ensures bytes { IfOk result (λ n. Consumes (R.remaining from.old) (R.remaining from.new) (take n to.new)) }
    ensures first { IfOk result (λ n. IfSome (R.remaining from.old) (λ input. take n to.new ≡ take (length to.new) input)) }
    ensures ends { IfOk result (λ n. n < length to.new → IsAtEnd (R.remaining from.new)) }
{
    let mut have = 0;
    while have < to.len() {
        let n = from.read(&mut to[have..])?;
        if n == 0 {
            return Ok(have);
        }
        have += n;
    }
    Ok(have)
}
