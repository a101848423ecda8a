// replay: reads cases from standard input, one after the other, and prints the answer line of each.
#![tactic(auto)]

mod reading; // a case from an input

use case_line::line;
use code::part::part;
use std::io;
use std::io::{Read, Write};

// The longest case has 65,535 bytes of tables and of code and 255 arguments.
const MOST_CASE: usize = 133119;

// By the counts of 01 the longest line has room.
const MOST_LINE: usize = 131072;

// One case, read and answered; false where the input ends before it does.
fn answered<R: Read, W: Write>(
    input: &mut R,
    output: &mut W,
    case: &mut [u8],
    out: &mut [u8],
) -> io::Result<bool> {
    let Some(n) = reading::read(input, case)? else {
        return Ok(false);
    };
    let end = line(part(case, 0, n), out);
    output.write_all(part(out, 0, end))?;
    Ok(true)
}

// Nothing says that an input ends, so the cases are counted, by a number that no input uses up.
fn main(rt: HostRuntime) -> io::Result<()> {
    let mut bytes = [0u8; MOST_CASE];
    let mut text = [0u8; MOST_LINE];
    let case: &mut [u8] = &mut bytes;
    let out: &mut [u8] = &mut text;
    for _ in 0..u64::MAX {
        if !answered(&mut rt.stdin(), &mut rt.stdout(), case, out)? {
            break;
        }
    }
    Ok(())
}
