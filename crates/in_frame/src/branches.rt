// Branches. The target must lie in the method's code, taken or not.
ghost use Rattle.std.specs.Prelude.{◌≡◌, ◌<◌, ◌≤◌, length, slice_index};
ghost use Rattle.std.proofs.Math.Option.{some};
ghost use Rattle.model.specs.Code.{Form, form_of, instructions};
ghost use Rattle.state.specs.View.{Work, shown};
ghost use Rattle.state.specs.Work.{Tables, test_w, when_w, branch_w, acts_w};
ghost use Rattle.state.specs.Meets.{Stays, Topped, Few, on_stack};
ghost use Rattle.operators.specs.Gives.{relation_by, jump_by};
ghost use Rattle.state.specs.Steps.{Own, ComesTo};

use crate::operands::led;
use code::operands::{byte_after, four_after, whole};
use operators::codes::{Jump, Relation};
use operators::comparisons::{both, related};
use state::ending::{Ending, ends};
use state::{Stay, Step};

// The bits of a value: of an int32 the low 32.
fn shown(kind: u8, bits: u64) -> u64
    ensures { result ≡ shown kind bits }
{
    if kind == 1 { bits % 0x100000000 } else { bits }
}

// brtrue and brfalse: the top value is popped, and it is 0 or not.
fn test(
    y: Stay,
    at: usize,
    sp: usize,
    cells: &[u64; 2048],
    kinds: &[u8; 2048],
    on_zero: usize,
    on_other: usize,
) -> Step
    requires stays { Stays y }
    requires topped { Topped y sp }
    ensures own { Own y sp result }
    ensures meets { ((c : Work) →
        let before = on_stack c at sp cells.now kinds.now in
        ComesTo result (on_stack c at sp cells.now kinds.now) before (test_w y before on_zero on_other)) }
{
    if sp <= y.floor {
        return ends(Ending::TooFew);
    }
    let i = sp - 1;
    if 3 <= kinds[i] {
        return ends(Ending::WrongType);
    }
    if shown(kinds[i], cells[i]) == 0 {
        return Step::On { at: on_zero, sp: i };
    }
    Step::On {
        at: on_other,
        sp: i,
    }
}

// beq, blt and the like: two values are popped and compared.
fn when(
    y: Stay,
    at: usize,
    sp: usize,
    cells: &[u64; 2048],
    kinds: &[u8; 2048],
    relation: Relation,
    target: usize,
    next: usize,
) -> Step
    requires stays { Stays y }
    requires topped { Topped y sp }
    requires few { Few 3 kinds.now }
    ensures own { Own y sp result }
    ensures meets { ((c : Work) →
        let before = on_stack c at sp cells.now kinds.now in
        ComesTo result (on_stack c at sp cells.now kinds.now) before (when_w y before (relation_by relation) target next)) }
{
    if sp < y.floor + 2 {
        return ends(Ending::TooFew);
    }
    let i = sp - 2;
    let j = sp - 1;
    match related(relation, both(kinds[i], kinds[j]), cells[i], cells[j]) {
        Some(true) => Step::On { at: target, sp: i },
        Some(false) => Step::On { at: next, sp: i },
        None => ends(Ending::WrongType),
    }
}

// A branch to a target, in code of a length.
fn branch(
    y: Stay,
    len: usize,
    at: usize,
    sp: usize,
    cells: &[u64; 2048],
    kinds: &[u8; 2048],
    how: Jump,
    target: usize,
    next: usize,
) -> Step
    requires stays { Stays y }
    requires topped { Topped y sp }
    requires few { Few 3 kinds.now }
    ensures own { Own y sp result }
    ensures meets { ((c : Work) →
        let before = on_stack c at sp cells.now kinds.now in
        ComesTo result (on_stack c at sp cells.now kinds.now) before (branch_w len y before (jump_by how) (some target) next)) }
{
    if len <= target {
        return ends(Ending::BadOperand);
    }
    match how {
        Jump::Always => Step::On { at: target, sp: sp },
        Jump::IfTrue => test(y, at, sp, cells, kinds, next, target),
        Jump::IfFalse => test(y, at, sp, cells, kinds, target, next),
        Jump::When(relation) => when(y, at, sp, cells, kinds, relation, target, next),
    }
}

// A branch with a distance of one byte.
pub fn near(
    y: Stay,
    part: &[u8],
    at: usize,
    sp: usize,
    cells: &[u64; 2048],
    kinds: &[u8; 2048],
    how: Jump,
) -> Step
    requires stays { Stays y }
    requires topped { Topped y sp }
    requires at_range { (at < length part.now) × (length part.now ≤ 1024) }
    requires few { Few 3 kinds.now }
    ensures own { Own y sp result }
    ensures meets { ((P : Tables) (c : Work) → slice_index part.now at < 256
        → form_of instructions (slice_index part.now at) ≡ some (Form.near (jump_by how)) →
        let before = on_stack c at sp cells.now kinds.now in
        ComesTo result (on_stack c at sp cells.now kinds.now) before (acts_w P part.now y before)) }
{
    if !whole(part, at, 2) {
        return ends(Ending::Undecodable);
    }
    let next = at + 2;
    let target = led(0x80, next, byte_after(part, at) as u64);
    branch(y, part.len(), at, sp, cells, kinds, how, target, next)
}

// A branch with a distance of four bytes.
pub fn far(
    y: Stay,
    part: &[u8],
    at: usize,
    sp: usize,
    cells: &[u64; 2048],
    kinds: &[u8; 2048],
    how: Jump,
) -> Step
    requires stays { Stays y }
    requires topped { Topped y sp }
    requires at_range { (at < length part.now) × (length part.now ≤ 1024) }
    requires few { Few 3 kinds.now }
    ensures own { Own y sp result }
    ensures meets { ((P : Tables) (c : Work) → slice_index part.now at < 256
        → form_of instructions (slice_index part.now at) ≡ some (Form.far (jump_by how)) →
        let before = on_stack c at sp cells.now kinds.now in
        ComesTo result (on_stack c at sp cells.now kinds.now) before (acts_w P part.now y before)) }
{
    if !whole(part, at, 5) {
        return ends(Ending::Undecodable);
    }
    let next = at + 5;
    let target = led(0x80000000, next, four_after(part, at) as u64);
    branch(y, part.len(), at, sp, cells, kinds, how, target, next)
}
