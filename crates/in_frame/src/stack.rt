// The stack of the running frame, and the constants with an operand.
ghost use Rattle.std.specs.Prelude.{◌≡◌, ◌<◌, ◌≤◌, length, slice_index};
ghost use Rattle.state.specs.View.{Work};
ghost use Rattle.state.specs.Work.{Tables, with_regs, moved_to, push_w, pop_w, dup_w, acts_w};
ghost use Rattle.state.specs.Meets.{Stays, Topped, on_stack};
ghost use Rattle.state.specs.Steps.{Own, ComesTo};

use crate::operands::away;
use code::operands::{byte_after, eight_after, four_after, whole};
use reals::stored_bits;
use state::ending::{Ending, ends};
use state::{Stay, Step};

// A value of a kind is pushed, where the method's max stack has room.
pub fn push(
    y: Stay,
    at: usize,
    sp: usize,
    cells: &mut [u64; 2048],
    kinds: &mut [u8; 2048],
    kind: u8,
    bits: u64,
    next: usize,
) -> Step
    requires stays { Stays y }
    requires topped { Topped y sp }
    ensures own { Own y sp result }
    ensures meets { ((c : Work) →
        let before = on_stack c at sp cells.old kinds.old in
        ComesTo result (on_stack c at sp cells.new kinds.new) before (push_w y before kind bits next)) }
{
    if y.limit <= sp {
        return ends(Ending::TooMany);
    }
    kinds[sp] = kind;
    cells[sp] = bits;
    Step::On {
        at: next,
        sp: sp + 1,
    }
}

pub fn pop(y: Stay, at: usize, sp: usize, next: usize) -> Step
    requires { Topped y sp }
    ensures own { Own y sp result }
    ensures meets { ((c : Work) →
        let before = with_regs c (moved_to c.regs at sp) in
        ComesTo result before before (pop_w y before next)) }
{
    if sp <= y.floor {
        return ends(Ending::TooFew);
    }
    Step::On {
        at: next,
        sp: sp - 1,
    }
}

pub fn dup(
    y: Stay,
    at: usize,
    sp: usize,
    cells: &mut [u64; 2048],
    kinds: &mut [u8; 2048],
    next: usize,
) -> Step
    requires stays { Stays y }
    requires topped { Topped y sp }
    ensures own { Own y sp result }
    ensures meets { ((c : Work) →
        let before = on_stack c at sp cells.old kinds.old in
        ComesTo result (on_stack c at sp cells.new kinds.new) before (dup_w y before next)) }
{
    if sp <= y.floor {
        return ends(Ending::TooFew);
    }
    let k = kinds[sp - 1];
    let v = cells[sp - 1];
    push(y, at, sp, cells, kinds, k, v, next)
}

// ldc.i4.s: a signed byte.
pub fn ldc_i4_s(
    y: Stay,
    part: &[u8],
    at: usize,
    sp: usize,
    cells: &mut [u64; 2048],
    kinds: &mut [u8; 2048],
) -> Step
    requires stays { Stays y }
    requires topped { Topped y sp }
    requires at_range { (at < length part.now) × (length part.now ≤ 1024) }
    ensures own { Own y sp result }
    ensures meets { ((P : Tables) (c : Work) → slice_index part.now at ≡ 0x1F →
        let before = on_stack c at sp cells.old kinds.old in
        ComesTo result (on_stack c at sp cells.new kinds.new) before (acts_w P part.now y before)) }
{
    if !whole(part, at, 2) {
        return ends(Ending::Undecodable);
    }
    let low = away(0x80, byte_after(part, at) as u64) % 0x100000000;
    push(y, at, sp, cells, kinds, 1, low, at + 2)
}

// ldc.i4: four bytes.
pub fn ldc_i4(
    y: Stay,
    part: &[u8],
    at: usize,
    sp: usize,
    cells: &mut [u64; 2048],
    kinds: &mut [u8; 2048],
) -> Step
    requires stays { Stays y }
    requires topped { Topped y sp }
    requires at_range { (at < length part.now) × (length part.now ≤ 1024) }
    ensures own { Own y sp result }
    ensures meets { ((P : Tables) (c : Work) → slice_index part.now at ≡ 0x20 →
        let before = on_stack c at sp cells.old kinds.old in
        ComesTo result (on_stack c at sp cells.new kinds.new) before (acts_w P part.now y before)) }
{
    if !whole(part, at, 5) {
        return ends(Ending::Undecodable);
    }
    push(
        y,
        at,
        sp,
        cells,
        kinds,
        1,
        four_after(part, at) as u64,
        at + 5,
    )
}

// ldc.i8: eight bytes.
pub fn ldc_i8(
    y: Stay,
    part: &[u8],
    at: usize,
    sp: usize,
    cells: &mut [u64; 2048],
    kinds: &mut [u8; 2048],
) -> Step
    requires stays { Stays y }
    requires topped { Topped y sp }
    requires at_range { (at < length part.now) × (length part.now ≤ 1024) }
    ensures own { Own y sp result }
    ensures meets { ((P : Tables) (c : Work) → slice_index part.now at ≡ 0x21 →
        let before = on_stack c at sp cells.old kinds.old in
        ComesTo result (on_stack c at sp cells.new kinds.new) before (acts_w P part.now y before)) }
{
    if !whole(part, at, 9) {
        return ends(Ending::Undecodable);
    }
    push(y, at, sp, cells, kinds, 2, eight_after(part, at), at + 9)
}

// ldc.r8: eight bytes, every NaN as the one pattern.
pub fn ldc_r8(
    y: Stay,
    part: &[u8],
    at: usize,
    sp: usize,
    cells: &mut [u64; 2048],
    kinds: &mut [u8; 2048],
) -> Step
    requires stays { Stays y }
    requires topped { Topped y sp }
    requires at_range { (at < length part.now) × (length part.now ≤ 1024) }
    ensures own { Own y sp result }
    ensures meets { ((P : Tables) (c : Work) → slice_index part.now at ≡ 0x23 →
        let before = on_stack c at sp cells.old kinds.old in
        ComesTo result (on_stack c at sp cells.new kinds.new) before (acts_w P part.now y before)) }
{
    if !whole(part, at, 9) {
        return ends(Ending::Undecodable);
    }
    push(
        y,
        at,
        sp,
        cells,
        kinds,
        3,
        stored_bits(eight_after(part, at)),
        at + 9,
    )
}
