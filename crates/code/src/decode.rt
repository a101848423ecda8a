// The instruction at an offset.
ghost use Rattle.std.specs.Prelude.{◌≡◌, ◌+◌, ◌-◌, ◌≤◌, ◌<◌, length, get_or};
ghost use Rattle.std.proofs.Math.Option.{some};
ghost use Rattle.model.specs.Code.{decode, length_of};
ghost use Rattle.model.specs.Loading.{little};
ghost use Rattle.code.specs.Lengths.{Lengths};
ghost use Rattle.code.specs.Insn.{Length, ins_of, size_at};

use super::insn::Insn;
use super::little::first;

// The operand of an instruction of a size, from the part that begins just after its opcode and has all its bytes.
fn operand(rest: &[u8], size: usize) -> u64
    requires length { Length size }
    requires size_inside { size ≤ length rest.now + 1 }
    ensures { result ≡ little (size - 1) rest.now }
{
    if size < 2 {
        return 0;
    }
    match size {
        2 => first::<1>(rest),
        5 => first::<4>(rest),
        _ => first::<8>(rest),
    }
}

// The length by the first byte, but 0 where FE is followed by a byte that says nothing.
fn kept_size(code: &[u8], at: usize, size: usize) -> usize
    requires at_inside { at < length code.now }
    requires size_is { size ≡ length_of (get_or code.now at 0) }
    requires code_at_inside { at + size ≤ length code.now }
    ensures result_is { result ≡ size_at code.now at }
    ensures result_at_most { result ≤ size }
{
    if code[at] == 0xFE {
        let second = at + 1;
        let b = code[second];
        if b < 1 {
            return 0;
        }
        if 5 < b {
            return 0;
        }
        return size;
    }
    size
}

// The length of the instruction at an offset, by the table of lengths; 0 where none can be read.
pub fn size_at(lengths: &[u8; 256], code: &[u8], at: usize) -> usize
    requires lengths { Lengths lengths.now }
    requires at_inside { at < length code.now }
    requires length_at_most { length code.now ≤ 1024 }
    ensures result_is { result ≡ size_at code.now at }
    ensures result_at_most { result ≤ 9 }
    ensures at_inside { at + result ≤ length code.now }
{
    let size = usize::from(lengths[usize::from(code[at])]);
    if code.len() < at + size {
        return 0;
    }
    kept_size(code, at, size)
}

// The instruction at an offset, of a length that is known: nothing is tested again.
pub fn known(code: &[u8], at: usize, size: usize) -> Insn
    requires size_is { size ≡ size_at code.now at }
    requires size_positive { 0 < size }
    ensures decode_is { decode code.now at ≡ some (record { ins = ins_of result; next = result.next }) }
    ensures next_is { result.next ≡ at + size }
{
    let b = code[at];
    let from = at + 1;
    let rest = &code[from..];
    let next = at + size;
    if b == 0xFE {
        return Insn {
            op: 0xFE00 + u16::from(rest[0]),
            operand: 0,
            next,
        };
    }
    Insn {
        op: u16::from(b),
        operand: operand(rest, size),
        next,
    }
}
