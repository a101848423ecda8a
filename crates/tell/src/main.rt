// tell: reads a module, then places in it, and prints for each the line of the shape that the check found there. A module is its tables and its code,
// each after its length in two bytes; a place is the row of a method and an offset in its code, two bytes each. An input that ends early prints no more.
#![tactic(auto)]

use code::little::little2;
use code::part::part;
use std::io;
use std::io::{Read, Write};
use streams::fill;
use tell_line::line;

// The bytes of a length, a row or an offset, and of a place.
const NUMBER: usize = 2;

const PLACE: usize = 4;

// Room for a part of a module.
const MOST_PART: usize = 65536;

// Reads n bytes, if there are so many, to the start of buf.
fn filled<R: Read>(input: &mut R, buf: &mut [u8], n: usize) -> io::Result<bool> {
    if n <= buf.len() {
        return Ok(fill(input, &mut buf[..n])? == n);
    }
    Ok(false)
}

// Reads a part of the module to the start of buf, and gives its length if it is all there.
fn read_part<R: Read>(input: &mut R, buf: &mut [u8]) -> io::Result<Option<usize>> {
    let mut bytes = [0u8; NUMBER];
    if fill(input, &mut bytes)? < NUMBER {
        return Ok(None);
    }
    let n = little2(&bytes) as usize;
    Ok(if filled(input, buf, n)? {
        Some(n)
    } else {
        None
    })
}

// Whether there was a place; if so its line is written.
fn place<R: Read, W: Write>(
    input: &mut R,
    output: &mut W,
    tables: &[u8],
    code: &[u8],
    out: &mut [u8; 1024],
) -> io::Result<bool> {
    let mut bytes = [0u8; PLACE];
    if fill(input, &mut bytes)? < PLACE {
        return Ok(false);
    }
    let row = little2(&bytes) as usize;
    let offset = little2(part(&bytes, NUMBER, NUMBER)) as usize;
    let n = line(tables, code, row, offset, out);
    output.write_all(part(out, 0, n))?;
    Ok(true)
}

// Nothing says that an input ends, so the places are counted, by a number that no input uses up.
fn places<R: Read, W: Write>(
    input: &mut R,
    output: &mut W,
    tables: &[u8],
    code: &[u8],
) -> io::Result<()> {
    let mut out = [0u8; 1024];
    for _ in 0..u64::MAX {
        if !place(input, output, tables, code, &mut out)? {
            break;
        }
    }
    Ok(())
}

fn main(rt: HostRuntime) -> io::Result<()> {
    let mut first = [0u8; MOST_PART];
    let mut second = [0u8; MOST_PART];
    let tables: &mut [u8] = &mut first;
    let code: &mut [u8] = &mut second;
    let Some(t) = read_part(&mut rt.stdin(), tables)? else {
        return Ok(());
    };
    let Some(c) = read_part(&mut rt.stdin(), code)? else {
        return Ok(());
    };
    places(
        &mut rt.stdin(),
        &mut rt.stdout(),
        part(tables, 0, t),
        part(code, 0, c),
    )
}
