// The rows that the tokens of fields and casts name.
ghost use Rattle.std.specs.Prelude.{◌≤◌, ◌<◌, length};
ghost use Rattle.fields.specs.Named.{NamesRow, NamesField};

use crate::members::SIZE;
use code::operands::{four_after, whole};
use loaded::columns::{FIELD, STATIC};
use state::ending::Ending;
use state::tokens::row_named;

// The top bytes of tokens.
pub const CLASS_KIND: u64 = 2;

const FIELD_KIND: u64 = 4;

// The row that the token after an opcode names, of a kind with `count` rows.
pub fn row_after(part: &[u8], at: usize, kind: u64, count: usize) -> Result<usize, Ending>
    requires { (at < length part.now) × (kind < 0x100) × (count ≤ 128) }
    ensures { NamesRow part.now at kind count result }
{
    if !whole(part, at, SIZE) {
        return Err(Ending::Undecodable);
    }
    let r = row_named(four_after(part, at) as u64, kind);
    if count as u64 <= r {
        return Err(Ending::BadOperand);
    }
    Ok(r as usize + 1)
}

// The field that it names, static where `flag` is 1.
pub fn field_named(
    part: &[u8],
    at: usize,
    fields: &[u8; 516],
    count: usize,
    flag: u8,
) -> Result<usize, Ending>
    requires { (at < length part.now) × (count ≤ 128) }
    ensures { NamesField part.now at fields.now count flag result }
{
    let row = row_after(part, at, FIELD_KIND, count)?;
    if fields[row * FIELD + STATIC] != flag {
        return Err(Ending::BadOperand);
    }
    Ok(row)
}
