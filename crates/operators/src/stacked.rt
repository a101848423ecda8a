// Operators on one or two cells of the stack.
ghost use Rattle.std.specs.Prelude.{◌+◌};
ghost use Rattle.state.specs.View.{Work};
ghost use Rattle.state.specs.Work.{binary_w, unary_w};
ghost use Rattle.state.specs.Meets.{Stays, Topped, Few, on_stack};
ghost use Rattle.state.specs.Steps.{Own, ComesTo};
ghost use Rattle.operators.specs.Gives.{binary_by, unary_by};

use crate::codes::{Binary, Unary};
use crate::operators::{converted, operated};
use state::ending::{Ending, ends};
use state::{Stay, Step};

// Two operands.
#[inline(always)]
pub fn binary(
    y: Stay,
    at: usize,
    sp: usize,
    cells: &mut [u64; 2048],
    kinds: &mut [u8; 2048],
    op: Binary,
    next: usize,
) -> Step
    requires stays { Stays y }
    requires topped { Topped y sp }
    requires few { Few 3 kinds.old }
    ensures own { Own y sp result }
    ensures meets { ((c : Work) → let before = on_stack c at sp cells.old kinds.old in ComesTo result (on_stack c at sp cells.new kinds.new) before (binary_w y before (binary_by op) next)) }
{
    if sp < y.floor + 2 {
        return ends(Ending::TooFew);
    }
    let i = sp - 2;
    let j = sp - 1;
    match operated(op, kinds[i], kinds[j], cells[i], cells[j]) {
        Ok(cell) => {
            kinds[i] = cell.kind;
            cells[i] = cell.bits;
            Step::On {
                at: next,
                sp: i + 1,
            }
        }
        Err(e) => Step::Ends(u8::from(e)),
    }
}

// One operand.
#[inline(always)]
pub fn unary(
    y: Stay,
    at: usize,
    sp: usize,
    cells: &mut [u64; 2048],
    kinds: &mut [u8; 2048],
    op: Unary,
    next: usize,
) -> Step
    requires stays { Stays y }
    requires topped { Topped y sp }
    requires few { Few 3 kinds.old }
    ensures own { Own y sp result }
    ensures meets { ((c : Work) → let before = on_stack c at sp cells.old kinds.old in ComesTo result (on_stack c at sp cells.new kinds.new) before (unary_w y before (unary_by op) next)) }
{
    if sp < y.floor + 1 {
        return ends(Ending::TooFew);
    }
    let i = sp - 1;
    match converted(op, kinds[i], cells[i]) {
        Ok(cell) => {
            kinds[i] = cell.kind;
            cells[i] = cell.bits;
            Step::On {
                at: next,
                sp: i + 1,
            }
        }
        Err(e) => Step::Ends(u8::from(e)),
    }
}
