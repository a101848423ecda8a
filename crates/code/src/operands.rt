// What stands after an opcode, in the code of the running method.
ghost use Rattle.std.specs.Prelude.{◌≡◌, suc, ◌+◌, ◌≤◌, ◌<◌, length, drop, leb};
ghost use Rattle.model.specs.Loading.{little};

use crate::little::first;

// Whether an instruction of a size at an offset is there whole.
pub fn whole(part: &[u8], at: usize, size: usize) -> bool
    requires { (at < length part.now) × (size ≤ 16) }
    ensures { result ≡ leb (at + size) (length part.now) }
{
    at + size <= part.len()
}

// The byte after the opcode.
pub fn byte_after(part: &[u8], at: usize) -> usize
    requires { at + 2 ≤ length part.now }
    ensures { (result ≡ little 1 (drop (suc at) part.now)) × (result < 0x100) }
{
    let from = at + 1;
    first::<1>(&part[from..]) as usize
}

// The four bytes after it.
pub fn four_after(part: &[u8], at: usize) -> usize
    requires { at + 5 ≤ length part.now }
    ensures { (result ≡ little 4 (drop (suc at) part.now)) × (result < 0x100000000) }
{
    let from = at + 1;
    first::<4>(&part[from..]) as usize
}

// The eight bytes after it.
pub fn eight_after(part: &[u8], at: usize) -> u64
    requires { at + 9 ≤ length part.now }
    ensures { result ≡ little 8 (drop (suc at) part.now) }
{
    let from = at + 1;
    first::<8>(&part[from..])
}
