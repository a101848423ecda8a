// A new frame, and the start of a class.
ghost use Rattle.std.specs.Prelude.{◌≡◌, List, ℕ, ◌+◌, ◌≤◌, ◌<◌, set, IfSome};
ghost use Rattle.std.proofs.Math.Option.{Option};
ghost use Rattle.model.specs.Answer.{Answer};
ghost use Rattle.model.specs.State.{Value};
ghost use Rattle.state.specs.View.{Work};
ghost use Rattle.state.specs.Work.{Went, with_regs, with_cells, copy_of, clear as cleared, fours, entered, start_w, starting_w};
ghost use Rattle.state.specs.Meets.{Stays, Few, regs_of, Leaves};
ghost use Rattle.across_frames.specs.Lent.{regs_at, regs_in, on_leave, moved, unless_due, RowRanges, Framed, Standing, Landed};

use crate::change::Change;
use crate::registers::Registers;
use loaded::columns::{LOCAL_COUNT, OWNER};
use state::columns::{AT, DEPTH, FRAME, LAST_FRAME, LOCALS, METHOD, ON, STACK};
use state::ending::Ending;
use state::{Moved, Stay};

// How many bytes a method's row has.
pub const ROW: usize = loaded::columns::METHOD;

fn clear_four(cells: &mut [u64; 2048], at: usize)
    requires { at + 4 ≤ 2048 }
    ensures { cells.new ≡ cleared 4 at cells.old }
{
    cells[at] = 0;
    cells[at + 1] = 0;
    cells[at + 2] = 0;
    cells[at + 3] = 0;
}

// n locals cleared, four at a time: what is past them is dead.
// Stays: `entered`, which the clause `as_model` of `enter` cites, clears by `fours`, so a loop over n does not meet it.
fn clear(cells: &mut [u64; 2048], at: usize, n: usize)
    requires { (at + 16 ≤ 2048) × (n ≤ 16) }
    ensures { cells.new ≡ cleared (fours n) at cells.old }
{
    if n == 0 {
        return;
    }
    clear_four(cells, at);
    if n <= 4 {
        return;
    }
    clear_four(cells, at + 4);
    if n <= 8 {
        return;
    }
    clear_four(cells, at + 8);
    clear_four(cells, at + 12);
}

fn copy_four(cells: &mut [u64; 2048], from: usize, to: usize)
    requires { (from + 4 ≤ 2048) × (to + 4 ≤ 2048) }
    ensures { cells.new ≡ copy_of 4 cells.old from to cells.old }
{
    let a = cells[from];
    let b = cells[from + 1];
    let c = cells[from + 2];
    let d = cells[from + 3];
    cells[to] = a;
    cells[to + 1] = b;
    cells[to + 2] = c;
    cells[to + 3] = d;
}

// n cells of the stack laid in the arguments of the next frame, four at a time: what is past them is dead.
// Stays: `invoke_w` and `made_w`, which the clauses of `call` and `newobj` cite, copy by `fours`, so a loop over n does not meet them.
pub fn copy(cells: &mut [u64; 2048], from: usize, to: usize, n: usize)
    requires { (from + 8 ≤ to) × (to + 8 ≤ 2048) × (n ≤ 8) }
    ensures { cells.new ≡ copy_of (fours n) cells.old from to cells.old }
{
    if n == 0 {
        return;
    }
    copy_four(cells, from, to);
    if n <= 4 {
        return;
    }
    copy_four(cells, from + 4, to + 4);
}

// The next frame, of the method `row`; the running one waits with its stack up to `sp`.
pub fn enter(
    y: Stay,
    at: usize,
    sp: usize,
    made: usize,
    cells: &mut [u64; 2048],
    methods: &[u8; 4128],
    row: usize,
) -> Moved
    requires stays { Stays y }
    requires framed { Framed y.fp }
    requires y_range { (y.floor ≤ sp) × (y.fp < 1984) × (row ≤ 128) }
    requires row_ranges { RowRanges methods.now }
    ensures landed { Landed result }
    ensures how_is { result.how ≡ 0 }
    ensures as_model { ((c : Work) (k t : ℕ) → with_regs (with_cells c cells.new c.kinds) (regs_of result)
        ≡ entered methods.now (with_regs (with_cells c cells.old c.kinds) (regs_at y k at t made)) row sp) }
{
    let fp = y.fp + FRAME;
    cells[y.fp + AT] = at as u64;
    cells[y.fp + DEPTH] = (sp - y.floor) as u64;
    cells[fp + METHOD] = row as u64;
    clear(
        cells,
        fp + LOCALS,
        methods[row * ROW + LOCAL_COUNT] as usize,
    );
    Moved {
        how: ON,
        at: 0,
        sp: fp + STACK,
        fp: fp,
        row: row,
        made: made,
    }
}

// The initialiser that comes before a class is used: none where the class is marked or has none.
pub fn first_due(marks: &[u8; 33], initialisers: &[u8; 33], class: usize) -> Option<usize>
    requires few { Few 128 initialisers.now }
    requires class_at_most { class ≤ 32 }
    ensures due_few { IfSome result (λ first. first ≤ 128) }
    ensures as_model { ((c : Work) (then : List ℕ → Answer ℕ Went)
        → c.marks ≡ marks.now → starting_w initialisers.now c class then
        ≡ unless_due result (then (set marks.now class 1))) }
{
    if marks[class] != 0 {
        return None;
    }
    let first = initialisers[class] as usize;
    if first == 0 {
        return None;
    }
    Some(first)
}

// The frame of the initialiser `first`, whose class is marked.
pub fn start(
    registers: Registers,
    cells: &mut [u64; 2048],
    marks: &mut [u8; 33],
    methods: &[u8; 4128],
    first: usize,
) -> Result<Change, Ending>
    requires standing { Standing registers }
    requires first_at_most { first ≤ 128 }
    requires row_ranges { RowRanges methods.now }
    ensures landed { Landed (moved registers result) }
    ensures leaves { ((c : Work) (value : Option Value)
        → let before = on_leave c (regs_in registers) cells.old c.kinds marks.old c.classes in
        let m = moved registers result in
        Leaves m.how m.row value (on_leave c (regs_of m) cells.new c.kinds marks.new c.classes) before
        (start_w methods.now before first)) }
{
    if LAST_FRAME <= registers.stay.fp {
        return Err(Ending::UsedFrames);
    }
    let class = methods[first * ROW + OWNER] as usize;
    marks[class] = 1;
    Ok(Change::Moves(enter(
        registers.stay,
        registers.at,
        registers.sp,
        registers.made,
        cells,
        methods,
        first,
    )))
}
