// turn: reads a whole input, two bytes of table length, tables and code, and prints one line.
#![tactic(auto)]

ghost use Rattle.std.specs.Prelude.{take, IfSome, OnOk};
ghost use Rattle.std.specs.Io.KnownBytes.{Appends};
ghost use Rattle.model.specs.Turn.{turn as turn_of};

use code::part::part;
use std::io;
use std::io::{Read, Write};
use streams::fill;
use turn_line::turn;

// As many bytes of an input as are read.
const MOST_INPUT: usize = 65536;

// Reads an input and writes its line.
fn answer<R: Read, W: Write>(from: &mut R, to: &mut W) -> io::Result<()>
    ensures { OnOk result (IfSome (R.remaining from.old) (λ input.
        Appends (W.contents to.old) (W.contents to.new) (turn_of (take 65536 input)))) }
{
    let mut space = [0u8; MOST_INPUT];
    let n = fill(from, &mut space)?;
    let mut out = [0u8; 128];
    let k = turn(&space[..n], &mut out);
    to.write_all(part(&out, 0, k))
}

fn main(rt: HostRuntime) -> io::Result<()> {
    answer(&mut rt.stdin(), &mut rt.stdout())
}
