// The steps that change the frame, by their numbers.
ghost use Rattle.std.specs.Prelude.{◌≡◌, ◌+◌, ◌<◌, length, get_or};
ghost use Rattle.state.specs.View.{Work};
ghost use Rattle.state.specs.Work.{Tables as ModelTables, due_of_byte, value_due, acts_w};
ghost use Rattle.state.specs.Order.{Saved};
ghost use Rattle.state.specs.Meets.{Placed, regs_of, Leaves};
ghost use Rattle.across_frames.specs.Lent.{regs_in, on_leave, moved, LendsAll, opcode_of, InRange, Standing, Landed};

use crate::calls::{Way, call};
use crate::change::Change;
use crate::objects::newobj;
use crate::registers::Registers;
use crate::returns::ret;
use crate::tables::Tables;
use code::operands::{four_after, whole};
use state::columns::{CALLVIRT, NEWOBJ, RET};
use state::ending::Ending;
use state::tokens::row_named;

// An opcode and its token.
const BYTES: usize = 5;

// The kind of a method's token.
const METHOD: u64 = 6;

// The step whose number is `next`: ret, newobj, callvirt or call.
pub fn leave(
    next: u8,
    registers: Registers,
    part: &[u8],
    cells: &mut [u64; 2048],
    kinds: &mut [u8; 2048],
    marks: &mut [u8; 33],
    classes: &mut [u8; 256],
    tables: &Tables,
) -> Result<Change, Ending>
    requires standing { Standing registers }
    requires at_range { (registers.at < length part.now) × (get_or part.now registers.at 0 ≡ opcode_of next) }
    requires saved { Saved 128 cells.old }
    requires placed { Placed classes.old }
    requires in_range { InRange tables.now }
    ensures landed { Landed (moved registers result) }
    ensures leaves { ((P : ModelTables) (c : Work) → LendsAll P tables.now
        → let before = on_leave c (regs_in registers) cells.old kinds.old marks.old classes.old in
        let m = moved registers result in
        Leaves m.how m.row (value_due before (due_of_byte (get_or tables.now.methods.now (registers.stay.mp + 26) 0)))
        (on_leave c (regs_of m) cells.new kinds.new marks.new classes.new) before
        (acts_w P part.now registers.stay before)) }
{
    if next == RET {
        return ret(registers, cells, kinds, classes, tables);
    }
    if !whole(part, registers.at, BYTES) {
        return Err(Ending::Undecodable);
    }
    let n = row_named(four_after(part, registers.at) as u64, METHOD) as usize;
    if tables.count <= n {
        return Err(Ending::BadOperand);
    }
    let named = n + 1;
    if next == NEWOBJ {
        return newobj(registers, cells, kinds, marks, classes, tables, named);
    }
    let instruction = if next == CALLVIRT {
        Way::Callvirt
    } else {
        Way::Call
    };
    call(
        registers,
        cells,
        kinds,
        marks,
        classes,
        tables,
        named,
        instruction,
    )
}
