// One step that changes the frame: the instruction, or the initialiser that comes before it.
#![tactic(auto)]

ghost use Rattle.std.specs.Prelude.{◌≡◌, ◌+◌, get_or};
ghost use Rattle.state.specs.View.{Work};
ghost use Rattle.state.specs.Work.{Tables as ModelTables, value_due, due_of_byte};
ghost use Rattle.state.specs.Order.{Saved};
ghost use Rattle.state.specs.Meets.{Placed, regs_of, Leaves};
ghost use Rattle.across_frames.specs.Lent.{regs_at, regs_in, on_leave, moved, Lends, LendsAll, CallRanges, InRange, InFrame, Standing, Landed};
ghost use Rattle.crossing.specs.Crossing.{crossing, Crosses};

use across_frames::change::Change;
use across_frames::enter::start;
use across_frames::leave::leave;
use across_frames::registers::Registers;
use across_frames::tables::Tables;
use state::columns::START;
use state::ending::Ending;
use state::{Moved, Stay};

// The step with the number `next`. Where it has to wait for an initialiser, that one's frame comes.
fn step(
    next: u8,
    first: usize,
    registers: Registers,
    part: &[u8],
    cells: &mut [u64; 2048],
    kinds: &mut [u8; 2048],
    marks: &mut [u8; 33],
    classes: &mut [u8; 256],
    tables: &Tables,
) -> Result<Change, Ending>
    requires standing { Standing registers }
    requires saved { Saved 128 cells.old }
    requires placed { Placed classes.old }
    requires in_range { InRange tables.now }
    requires crosses { Crosses next first registers.at part.now }
    ensures landed { Landed (moved registers result) }
    ensures never_waits { ((moved registers result).how ≡ 2 → ⊥) }
    ensures leaves { ((P : ModelTables) (c : Work) → LendsAll P tables.now →
        let before = on_leave c (regs_in registers) cells.old kinds.old marks.old classes.old in
        let m = moved registers result in
        Leaves m.how m.row (value_due before (due_of_byte (get_or tables.now.methods.now (registers.stay.mp + 26) 0)))
        (on_leave c (regs_of m) cells.new kinds.new marks.new classes.new)
        before (crossing P part.now registers.stay before next first)) }
{
    if next == START {
        return start(registers, cells, marks, tables.methods, first);
    }
    match leave(next, registers, part, cells, kinds, marks, classes, tables)? {
        Change::Waits(first) => start(registers, cells, marks, tables.methods, first),
        change => Ok(change),
    }
}

// `next` says which: ret, call, callvirt, newobj, or the frame of the initialiser `first`. Where such a step has to wait for an initialiser, that
// one's frame comes.
pub fn cross(
    next: u8,
    first: usize,
    y: Stay,
    part: &[u8],
    at: usize,
    sp: usize,
    made: usize,
    row: usize,
    cells: &mut [u64; 2048],
    kinds: &mut [u8; 2048],
    marks: &mut [u8; 33],
    classes: &mut [u8; 256],
    methods: &[u8; 4128],
    initialisers: &[u8; 33],
    ancestors: &[u64; 33],
    chosen: &[u8; 4257],
    count: usize,
) -> Moved
    requires in_frame { InFrame y sp row }
    requires saved { Saved 128 cells.old }
    requires placed { Placed classes.old }
    requires call_ranges { CallRanges count methods.now initialisers.now chosen.now }
    requires crosses { Crosses next first at part.now }
    ensures landed { Landed result }
    ensures never_result { (result.how ≡ 2 → ⊥) }
    ensures leaves { ((P : ModelTables) (c : Work) → Lends P count methods.now initialisers.now ancestors.now chosen.now →
        let before = on_leave c (regs_at y row at sp made) cells.old kinds.old marks.old classes.old in
        Leaves result.how result.row (value_due before (due_of_byte (get_or methods.now (y.mp + 26) 0)))
        (on_leave c (regs_of result) cells.new kinds.new marks.new classes.new)
        before (crossing P part.now y before next first)) }
{
    let registers = Registers {
        stay: y,
        at: at,
        sp: sp,
        made: made,
        row: row,
    };
    let tables = Tables {
        count: count,
        methods: methods,
        initialisers: initialisers,
        ancestors: ancestors,
        chosen: chosen,
    };
    registers.after(step(
        next, first, registers, part, cells, kinds, marks, classes, &tables,
    ))
}
