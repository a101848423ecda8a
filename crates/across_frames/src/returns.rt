// ret.
ghost use Rattle.std.specs.Prelude.{◌≡◌, List, ℕ, ◌+◌, ◌≤◌, get_or, eqb};
ghost use Rattle.model.specs.Answer.{pick};
ghost use Rattle.state.specs.View.{Work};
ghost use Rattle.state.specs.Work.{due_of_byte, value_due, return_w, ret_w};
ghost use Rattle.state.specs.Order.{Saved};
ghost use Rattle.state.specs.Meets.{Stays, Topped, Placed, regs_of, Leaves};
ghost use Rattle.across_frames.specs.Lent.{regs_in, on_leave, back_to, moved, unless, Standing, Landed};

use crate::change::Change;
use crate::registers::Registers;
use crate::tables::{INITIALISER, Tables};
use loaded::columns::{RETURN, SORT};
use state::Moved;
use state::columns::{AT, DEPTH, FRAME, METHOD, ON, STACK};
use state::ending::Ending;
use state::fit::fits;

// An instruction that calls is 5 bytes long.
const CALL_BYTES: usize = 5;

// Whether a value of a type's byte may be returned: the stack has to hold what is due and nothing more.
fn returnable(
    registers: Registers,
    cells: &[u64; 2048],
    kinds: &[u8; 2048],
    classes: &[u8; 256],
    ancestors: &[u64; 33],
    byte: u8,
) -> Result<(), Ending>
    requires stays { Stays registers.stay }
    requires topped { Topped registers.stay registers.sp }
    requires placed { Placed classes.now }
    ensures { (c : Work) (methods : List ℕ) → c.regs.sp ≡ registers.sp → byte ≡ get_or methods (registers.stay.mp + 26) 0
        → let before = on_leave c c.regs cells.now kinds.now c.marks classes.now in
        ret_w methods ancestors.now registers.stay before
        ≡ unless result (λ _. return_w before (get_or methods (registers.stay.mp + 24) 0) (due_of_byte byte)) }
{
    let sp = registers.sp;
    let floor = registers.stay.floor;
    if byte == 0 {
        if sp == floor {
            return Ok(());
        }
        return Err(Ending::WrongType);
    }
    if sp == floor {
        return Err(Ending::TooFew);
    }
    if sp != floor + 1 {
        return Err(Ending::WrongType);
    }
    if fits(classes, ancestors, kinds[floor], cells[floor], byte) {
        return Ok(());
    }
    Err(Ending::WrongType)
}

// How far the caller moves: past the call, and not after an initialiser.
fn passed(sort: u8) -> usize
    ensures { (result ≡ pick (eqb sort 4) 0 5) × (result ≤ 5) }
{
    if sort == INITIALISER { 0 } else { CALL_BYTES }
}

// The caller runs on.
fn back(fp: usize, row: usize, at: usize, sp: usize, made: usize) -> Moved
    ensures { result ≡ back_to fp row at sp made }
{
    Moved {
        how: ON,
        at: at,
        sp: sp,
        fp: fp,
        row: row,
        made: made,
    }
}

// The value that is due is handed to the caller, or the run is over.
pub fn ret(
    registers: Registers,
    cells: &mut [u64; 2048],
    kinds: &mut [u8; 2048],
    classes: &[u8; 256],
    tables: &Tables,
) -> Result<Change, Ending>
    requires standing { Standing registers }
    requires saved { Saved 128 cells.old }
    requires placed { Placed classes.now }
    ensures landed { Landed (moved registers result) }
    ensures leaves { ((c : Work)
        → let before = on_leave c (regs_in registers) cells.old kinds.old c.marks classes.now in
        let m = moved registers result in
        Leaves m.how m.row (value_due before (due_of_byte (get_or tables.now.methods.now (registers.stay.mp + 26) 0)))
        (on_leave c (regs_of m) cells.new kinds.new c.marks classes.now) before
        (ret_w tables.now.methods.now tables.now.ancestors.now registers.stay before)) }
{
    let y = registers.stay;
    let byte = tables.methods[y.mp + RETURN];
    returnable(registers, cells, kinds, classes, tables.ancestors, byte)?;
    if y.fp == 0 {
        return Ok(Change::Over);
    }
    let p = y.fp - FRAME;
    let next = cells[p + AT] as usize + passed(tables.methods[y.mp + SORT]);
    let d = p + STACK + cells[p + DEPTH] as usize;
    let caller = cells[p + METHOD] as usize;
    if byte == 0 {
        return Ok(Change::Moves(back(p, caller, next, d, registers.made)));
    }
    kinds[d] = kinds[y.floor];
    cells[d] = cells[y.floor];
    Ok(Change::Moves(back(p, caller, next, d + 1, registers.made)))
}
