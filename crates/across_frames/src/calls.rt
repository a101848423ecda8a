// call and callvirt.
ghost use Rattle.std.specs.Prelude.{◌≡◌, ℕ, ◌+◌, ◌≤◌, IfOk};
ghost use Rattle.std.proofs.Math.Option.{Option};
ghost use Rattle.model.specs.Answer.{Answer};
ghost use Rattle.model.specs.State.{Value};
ghost use Rattle.state.specs.View.{Work};
ghost use Rattle.state.specs.Work.{Went, invoke_w};
ghost use Rattle.state.specs.Meets.{Few, Placed, regs_of, Leaves};
ghost use Rattle.across_frames.specs.Lent.{regs_in, on_leave, moved, unless, named_sort, named_w, taken_by, RowRanges, ChoiceRanges, Standing, Landed};
ghost use Rattle.across_frames.specs.declared.calls.Way.TheVariants.{Callvirt};

use crate::arguments::{due, take};
use crate::change::Change;
use crate::enter::{ROW, copy, enter, first_due};
use crate::registers::Registers;
use crate::tables::{INITIALISER, INSTANCE, OBJECTS, Tables, VIRTUAL};
use loaded::columns::{ARGUMENT_COUNT, METHOD_ROWS, OWNER, RETURN, ROOT, SORT};
use state::columns::{FRAME, LAST_FRAME};
use state::ending::Ending;

// The instruction that calls.
#[derive(Clone, Copy, PartialEq, Eq)]
pub enum Way {
    Call,
    Callvirt,
}

// A frame of the method `taken` with n arguments from the stack; its class is started first.
fn invoke(
    registers: Registers,
    cells: &mut [u64; 2048],
    marks: &mut [u8; 33],
    tables: &Tables,
    taken: usize,
    n: usize,
) -> Result<Change, Ending>
    requires standing { Standing registers }
    requires row_ranges { RowRanges tables.now.methods.now }
    requires few { Few 128 tables.now.initialisers.now }
    requires taken_range { (taken ≤ 128) × (n ≤ 8) × (registers.stay.floor + n ≤ registers.sp) }
    ensures landed { Landed (moved registers result) }
    ensures leaves { ((c : Work) (value : Option Value)
        → let before = on_leave c (regs_in registers) cells.old c.kinds marks.old c.classes in
        let m = moved registers result in
        Leaves m.how m.row value (on_leave c (regs_of m) cells.new c.kinds marks.new c.classes) before
        (invoke_w tables.now.methods.now tables.now.initialisers.now before taken n)) }
{
    let class = tables.methods[taken * ROW + OWNER] as usize;
    if let Some(first) = first_due(marks, tables.initialisers, class) {
        return Ok(Change::Waits(first));
    }
    if LAST_FRAME <= registers.stay.fp {
        return Err(Ending::UsedFrames);
    }
    marks[class] = 1;
    let from = registers.sp - n;
    copy(cells, from, registers.stay.fp + FRAME, n);
    Ok(Change::Moves(enter(
        registers.stay,
        registers.at,
        from,
        registers.made,
        cells,
        tables.methods,
        taken,
    )))
}

// The row that callvirt takes where one is named, the first argument's bits being `object`: a virtual method's override.
fn chosen_row(
    classes: &[u8; 256],
    tables: &Tables,
    named: usize,
    object: u64,
) -> Result<usize, Ending>
    requires placed { Placed classes.now }
    requires named_range { (1 ≤ named) × (named ≤ 128) }
    requires choice_ranges { ChoiceRanges tables.now.methods.now tables.now.chosen.now }
    ensures taken_few { IfOk result (λ row. row ≤ 128) }
    ensures as_model { ((then : ℕ → Answer ℕ Went)
        → taken_by Callvirt tables.now.methods.now tables.now.chosen.now classes.now object named then
        ≡ unless result then) }
{
    if object == 0 {
        return Err(Ending::NullReference);
    }
    let m = named * ROW;
    if tables.methods[m + SORT] != VIRTUAL {
        return Ok(named);
    }
    let place = (object - 1) as usize % OBJECTS;
    let i = classes[place] as usize * METHOD_ROWS + tables.methods[m + ROOT] as usize;
    let overriding = tables.chosen[i] as usize;
    if overriding == 0 {
        return Ok(named);
    }
    Ok(overriding)
}

// The row that is taken where one is named.
fn taken_row(
    classes: &[u8; 256],
    tables: &Tables,
    named: usize,
    object: u64,
    way: Way,
) -> Result<usize, Ending>
    requires placed { Placed classes.now }
    requires named_range { (1 ≤ named) × (named ≤ 128) }
    requires choice_ranges { ChoiceRanges tables.now.methods.now tables.now.chosen.now }
    ensures taken_few { IfOk result (λ row. row ≤ 128) }
    ensures as_model { ((then : ℕ → Answer ℕ Went)
        → taken_by way tables.now.methods.now tables.now.chosen.now classes.now object named then
        ≡ unless result then) }
{
    match way {
        Way::Call => Ok(named),
        Way::Callvirt => chosen_row(classes, tables, named, object),
    }
}

// Whether a method of a sort may be called, by callvirt or by call.
fn callable(sort: u8, way: Way) -> bool
    ensures { result ≡ named_sort way sort }
{
    match way {
        Way::Call => sort != INITIALISER,
        Way::Callvirt => INSTANCE <= sort && sort <= VIRTUAL,
    }
}

// call and callvirt of the method row `named`. Put in place, since as a call of its own it makes a step among calls a fifth slower.
#[inline(always)]
pub fn call(
    registers: Registers,
    cells: &mut [u64; 2048],
    kinds: &[u8; 2048],
    marks: &mut [u8; 33],
    classes: &[u8; 256],
    tables: &Tables,
    named: usize,
    way: Way,
) -> Result<Change, Ending>
    requires standing { Standing registers }
    requires placed { Placed classes.now }
    requires named_range { (1 ≤ named) × (named ≤ 128) }
    requires row_ranges { RowRanges tables.now.methods.now }
    requires few { Few 128 tables.now.initialisers.now }
    requires choice_ranges { ChoiceRanges tables.now.methods.now tables.now.chosen.now }
    ensures landed { Landed (moved registers result) }
    ensures leaves { ((c : Work) (value : Option Value)
        → let before = on_leave c (regs_in registers) cells.old kinds.now marks.old classes.now in
        let m = moved registers result in
        Leaves m.how m.row value (on_leave c (regs_of m) cells.new kinds.now marks.new classes.now) before
        (named_w way tables.now.methods.now tables.now.initialisers.now tables.now.ancestors.now tables.now.chosen.now registers.stay before named)) }
{
    let m = named * ROW;
    if !callable(tables.methods[m + SORT], way) {
        return Err(Ending::BadOperand);
    }
    let n = tables.methods[m + ARGUMENT_COUNT] as usize;
    let more = due(tables.methods[m + RETURN]);
    let from = take(registers, cells, kinds, classes, tables, named, n, 0, more)?;
    let taken = taken_row(classes, tables, named, cells[from], way)?;
    invoke(registers, cells, marks, tables, taken, n)
}
