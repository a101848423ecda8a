// What a call takes from the stack.
ghost use Rattle.std.specs.Prelude.{◌≡◌, ◌+◌, ◌-◌, ◌≤◌, IfOk};
ghost use Rattle.model.specs.Answer.{ok};
ghost use Rattle.state.specs.View.{Work};
ghost use Rattle.state.specs.Work.{fit_all_w, taking_w, due_of_byte};
ghost use Rattle.state.specs.Meets.{Stays, Topped, Placed};
ghost use Rattle.across_frames.specs.Lent.{on_leave, unless};

use crate::enter::ROW;
use crate::registers::Registers;
use crate::tables::Tables;
use state::ending::Ending;
use state::fit::fits;

// How many values a return type's byte gives.
pub fn due(byte: u8) -> usize
    ensures { (result ≡ due_of_byte byte) × (result ≤ 1) }
{
    usize::from(byte != 0)
}

// Whether n cells from `from` on fit the types of the method `row` from its variable `first` on.
fn fit_all(
    cells: &[u64; 2048],
    kinds: &[u8; 2048],
    classes: &[u8; 256],
    tables: &Tables,
    row: usize,
    n: usize,
    first: usize,
    from: usize,
) -> bool
    requires placed { Placed classes.now }
    requires row_range { (row ≤ 128) × (first + n ≤ 9) × (from + n ≤ 2048) }
    ensures { (c : Work)
        → result ≡ fit_all_w tables.now.methods.now tables.now.ancestors.now
        (on_leave c c.regs cells.now kinds.now c.marks classes.now) row n first from }
{
    let types = row * ROW + first;
    for i in 0..n {
        let s = from + i;
        if !fits(
            classes,
            tables.ancestors,
            kinds[s],
            cells[s],
            tables.methods[types + i],
        ) {
            return false;
        }
    }
    true
}

// The first of n arguments of the method `row`, `first` of them left out, with room for `more` in their place; or what refuses them.
pub fn take(
    registers: Registers,
    cells: &[u64; 2048],
    kinds: &[u8; 2048],
    classes: &[u8; 256],
    tables: &Tables,
    row: usize,
    n: usize,
    first: usize,
    more: usize,
) -> Result<usize, Ending>
    requires stays { Stays registers.stay }
    requires topped { Topped registers.stay registers.sp }
    requires placed { Placed classes.now }
    requires row_range { (row ≤ 128) × (first + n ≤ 9) × (more ≤ 1) }
    ensures there { IfOk result (λ from. (registers.stay.floor + n ≤ registers.sp) × (from ≡ registers.sp - n) × (from + more ≤ registers.stay.limit)) }
    ensures as_model { ((c : Work) → c.regs.sp ≡ registers.sp
        → taking_w tables.now.methods.now tables.now.ancestors.now registers.stay
        (on_leave c c.regs cells.now kinds.now c.marks classes.now) row n first more
        ≡ unless result (λ _. ok tt)) }
{
    let sp = registers.sp;
    if sp < registers.stay.floor + n {
        return Err(Ending::TooFew);
    }
    let from = sp - n;
    if !fit_all(cells, kinds, classes, tables, row, n, first, from) {
        return Err(Ending::WrongType);
    }
    if registers.stay.limit < from + more {
        return Err(Ending::TooMany);
    }
    Ok(from)
}
