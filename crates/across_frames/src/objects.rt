// newobj.
ghost use Rattle.std.specs.Prelude.{◌≡◌, ℕ, ◌+◌, ◌-◌, ◌≤◌, ◌<◌};
ghost use Rattle.std.proofs.Math.Option.{Option};
ghost use Rattle.model.specs.State.{Value};
ghost use Rattle.state.specs.View.{Work};
ghost use Rattle.state.specs.Work.{entered, made_w};
ghost use Rattle.state.specs.Meets.{Stays, Topped, Few, Placed, regs_of, Leaves};
ghost use Rattle.across_frames.specs.Lent.{regs_at, regs_in, on_leave, moved, newobj_w, RowRanges, Framed, Standing, Landed};

use crate::arguments::take;
use crate::change::Change;
use crate::enter::{ROW, copy, enter, first_due};
use crate::registers::Registers;
use crate::tables::{CONSTRUCTOR, OBJECTS, Tables};
use loaded::columns::{ARGUMENT_COUNT, OWNER, SORT};
use state::Moved;
use state::columns::{FRAME, LAST_FRAME};
use state::ending::Ending;

// An object of a class is made, and the frame of its constructor entered: n cells of the stack are arguments after the reference, which takes their place.
fn construct(
    registers: Registers,
    cells: &mut [u64; 2048],
    kinds: &mut [u8; 2048],
    classes: &mut [u8; 256],
    methods: &[u8; 4128],
    class: u8,
    taken: usize,
    n: usize,
) -> Moved
    requires stays { Stays registers.stay }
    requires topped { Topped registers.stay registers.sp }
    requires framed { Framed registers.stay.fp }
    requires row_ranges { RowRanges methods.now }
    requires in_range { (registers.stay.fp < 1984) × (registers.made < 256) × (taken ≤ 128) × (n ≤ 7) × (registers.stay.floor + n ≤ registers.sp) }
    ensures landed { Landed result }
    ensures how_is { result.how ≡ 0 }
    ensures as_model { ((c : Work) (k : ℕ)
        → on_leave c (regs_of result) cells.new kinds.new c.marks classes.new
        ≡ entered methods.now
        (made_w (on_leave c (regs_at registers.stay k registers.at registers.sp registers.made) cells.old kinds.old c.marks classes.old) class n) taken (registers.sp - n + 1)) }
{
    let d = registers.sp - n;
    let to = registers.stay.fp + FRAME;
    let object = (registers.made + 1) as u64;
    copy(cells, d, to + 1, n);
    cells[to] = object;
    cells[d] = object;
    kinds[d] = 0;
    classes[registers.made] = class;
    enter(
        registers.stay,
        registers.at,
        d + 1,
        registers.made + 1,
        cells,
        methods,
        taken,
    )
}

// newobj by the constructor `named`.
pub fn newobj(
    registers: Registers,
    cells: &mut [u64; 2048],
    kinds: &mut [u8; 2048],
    marks: &mut [u8; 33],
    classes: &mut [u8; 256],
    tables: &Tables,
    named: usize,
) -> Result<Change, Ending>
    requires standing { Standing registers }
    requires placed { Placed classes.old }
    requires row_ranges { RowRanges tables.now.methods.now }
    requires few { Few 128 tables.now.initialisers.now }
    requires named_at_most { named ≤ 128 }
    ensures landed { Landed (moved registers result) }
    ensures leaves { ((c : Work) (value : Option Value)
        → let before = on_leave c (regs_in registers) cells.old kinds.old marks.old classes.old in
        let m = moved registers result in
        Leaves m.how m.row value
        (on_leave c (regs_of m) cells.new kinds.new marks.new classes.new) before
        (newobj_w tables.now.methods.now tables.now.initialisers.now tables.now.ancestors.now registers.stay before named)) }
{
    let m = named * ROW;
    if tables.methods[m + SORT] != CONSTRUCTOR {
        return Err(Ending::BadOperand);
    }
    // `this` is no argument on the stack
    let n = (tables.methods[m + ARGUMENT_COUNT] as usize).saturating_sub(1);
    take(registers, cells, kinds, classes, tables, named, n, 1, 1)?;
    let owner = tables.methods[m + OWNER];
    let class = owner as usize;
    if let Some(first) = first_due(marks, tables.initialisers, class) {
        return Ok(Change::Waits(first));
    }
    if OBJECTS <= registers.made {
        return Err(Ending::UsedObjects);
    }
    if LAST_FRAME <= registers.stay.fp {
        return Err(Ending::UsedFrames);
    }
    marks[class] = 1;
    Ok(Change::Moves(construct(
        registers,
        cells,
        kinds,
        classes,
        tables.methods,
        owner,
        named,
        n,
    )))
}
