// The loop over the steps, within the budget.
#![tactic(auto)]

ghost use Rattle.std.specs.Prelude.{◌≡◌, length, ◌+◌, ◌*◌, ◌≤◌, ◌<◌};
ghost use Rattle.model.specs.Tables.{part_of, Module};
ghost use Rattle.loaded.specs.Holds.{method_cell, part_offset, part_length, Holds};
ghost use Rattle.state.specs.Order.{Fine, Good};
ghost use Rattle.state.specs.Meets.{regs_of};
ghost use Rattle.state.specs.Layout.{work_of};
ghost use Rattle.machine.specs.Ending.{Sets, ended_by, Ends};

use crossing::cross;
use loaded::Loaded;
use loaded::columns::{LENGTH, MAX_STACK, METHOD, PART};
use prepare::{Prepared, prepare};
use same_frame::same_frame;
use state::columns::{ON, STACK};
use state::fit::wide;
use state::{Moved, State, Stay};

// How the loop was left: what is left of the budget, and the last registers, whose `how` is the number of the ending, 1 a return from the entry.
// Stays: `how` is a number, since a stay and a crossing hand on the same one and the loop compares it once; an enum would only be made of it and taken apart.
#[derive(Clone, Copy)]
pub struct Stopped {
    pub left: u64,
    pub last: Moved,
}

// The stay in the frame at `fp`, of the method at a row.
fn stay(fp: usize, row: usize, methods: &[u8; 4128]) -> Stay
    requires { (fp ≤ 1984) × (row ≤ 128) }
    ensures { result ≡ record { fp = fp; mp = row * 32; floor = fp + 24; limit = fp + 24 + method_cell methods.now row 27 } }
{
    let mp = row * METHOD;
    let floor = fp + STACK;
    Stay {
        fp: fp,
        mp: mp,
        floor: floor,
        limit: floor + wide(methods[mp + MAX_STACK]),
    }
}

// The code of the method at a row.
fn body<'a>(code: &'a [u8], parts: &[usize; 258], row: usize) -> &'a [u8]
    requires { (row ≤ 128) × (0 < part_length parts.now row → part_offset parts.now row + part_length parts.now row ≤ length code.now) }
    ensures { result.now ≡ part_of code.now (part_offset parts.now row) (part_length parts.now row) }
{
    let at = row * PART;
    let from = parts[at];
    if code.len() <= from {
        return &code[..0];
    }
    let end = from + parts[at + LENGTH];
    &code[from..end]
}

// At most `budget` steps from the first registers on. What the steps do is left in the state.
pub fn steps(state: &mut State, loaded: &Loaded, code: &[u8], first: Moved, budget: u64) -> Stopped
    requires { Sets code.now loaded.now (work_of (regs_of first) state.old) }
    ensures result_range { (result.left ≤ budget) × (result.last.how ≡ 1 → 0 < result.left) }
    ensures live { state.new.live ≡ state.old.live }
    ensures ends { ((M : Module) → Fine M → Holds M code.now loaded.now →
        let before = work_of (regs_of first) state.old in
        let after = work_of (regs_of result.last) state.new in
        Good M before → Ends M loaded.now.counts.methods budget before (ended_by loaded.now.methods budget result after)) }
{
    let counts = loaded.counts;
    let mut made = Prepared::new();
    prepare(loaded, &mut made);
    let mut last = first;
    let mut left = budget;
    last.how = ON;
    while last.how == ON {
        let y = stay(last.fp, last.row, &loaded.methods);
        let part = body(code, &loaded.parts, last.row);
        let s = same_frame(
            y,
            part,
            last.at,
            last.sp,
            left,
            &mut state.cells,
            &mut state.kinds,
            &mut state.marks,
            &state.classes,
            &mut state.heap,
            &mut state.statics,
            &loaded.methods,
            &made.variables,
            &loaded.fields,
            &loaded.initialisers,
            &made.ancestors,
            counts.classes,
            counts.fields,
        );
        last.at = s.at;
        last.sp = s.sp;
        left = s.left;
        if s.next == 0 {
            last.how = s.how;
        } else {
            let r = cross(
                s.next,
                s.first,
                y,
                part,
                last.at,
                last.sp,
                last.made,
                last.row,
                &mut state.cells,
                &mut state.kinds,
                &mut state.marks,
                &mut state.classes,
                &loaded.methods,
                &loaded.initialisers,
                &made.ancestors,
                &made.chosen,
                counts.methods,
            );
            last.how = r.how;
            if r.how == ON {
                last = r;
                left -= 1;
            }
        }
    }
    Stopped { left, last }
}
