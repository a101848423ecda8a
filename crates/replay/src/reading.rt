// A case from an input.
ghost use Rattle.std.specs.Prelude.{◌≡◌, ◌≤◌, length, take, IfOk, IfSome, IsTrue};
ghost use Rattle.case_line.specs.Case.{Whole};

use case_line::announced;
use code::part::part;
use std::io;
use std::io::Read;
use streams::fill;

// Reads the bytes of a case from one place to another; false where the input ends before, or where the buffer does.
fn more<R: Read>(input: &mut R, case: &mut [u8], from: usize, to: usize) -> io::Result<bool>
    ensures size { length case.new ≡ length case.old }
    ensures there { IfOk result (λ there. IsTrue there → (from ≤ to) × (to ≤ length case.new)) }
{
    if case.len() < to {
        return Ok(false);
    }
    if to < from {
        return Ok(false);
    }
    Ok(fill(input, &mut case[from..to])? == to - from)
}

// Reads a case to the start of the buffer, and gives how long it is if it is all there. What is there announces what follows, until it is a case.
pub fn read<R: Read>(input: &mut R, case: &mut [u8]) -> io::Result<Option<usize>>
    ensures size { length case.new ≡ length case.old }
    ensures whole { IfOk result (λ case_read. IfSome case_read (λ n. Whole (take n case.new))) }
{
    let mut have = 0;
    let mut all = announced(part(case, 0, have));
    while have != all {
        if !more(input, case, have, all)? {
            return Ok(None);
        }
        have = all;
        all = announced(part(case, 0, have));
    }
    Ok(Some(have))
}
