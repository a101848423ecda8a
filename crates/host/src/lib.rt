// What a host program calls, in C's form: numbers and lent slices, a slice as a pointer and a length. Answers go to cells that the host lends;
// where it lends too few, the call answers 1 and writes nothing.
#![tactic(auto)]

mod answers; // the cells of a fault and of an answer
mod parts; // where each part of a state begins
mod states; // the cells of a state
mod shape; // the cells of a shape

ghost use Rattle.std.specs.Prelude.{◌≡◌};
ghost use Rattle.model.specs.Check.{check as check_of, shape_found};
ghost use Rattle.model.specs.Run.{run as run_of};
ghost use Rattle.loitsupar.specs.Public.{checked, told_of, numbered};
ghost use Rattle.host.specs.Hosting.{enough_to_check, enough_to_run, enough_to_tell, status, written, fault_cells, ended_by, answer_cells, state_cells, found_in, shape_cells};

use answers::{ANSWER, FAULT, lay_answer, lay_fault};
use loitsupar::checking::check;
use loitsupar::lent::run;
use loitsupar::numbered::numbered;
use loitsupar::telling::tell;
use parts::STATE;
use shape::{SHAPE, lay_shape};
use state::State;
use states::lay_state;

// What is said of the cells that were lent.
// Stays: a number, which C reads (the C interface).
const WRITTEN: u32 = 0;

const TOO_FEW: u32 = 1;

// Loads and checks a module: number, 0 where it passes, method row and offset.
#[unsafe(no_mangle)]
pub extern "C" fn loitsupar_check(tables: &[u8], code: &[u8], fault: &mut [u64]) -> u32
    ensures value { result ≡ status (enough_to_check fault.old) }
    ensures fault_after { fault.new
        ≡ written (enough_to_check fault.old) (fault_cells (numbered (checked (check_of tables.now code.now)))) fault.old }
{
    if fault.len() < FAULT {
        return TOO_FEW;
    }
    lay_fault(fault, numbered(&check(tables, code)));
    WRITTEN
}

// Loads a module and runs its entry with arguments, int64 as bits, and a budget of steps. The answer has ending, method row, offset, steps, and the
// value's sort and bits; the state has 5,314 cells, all 0 after a refusal.
#[unsafe(no_mangle)]
pub extern "C" fn loitsupar_run(
    tables: &[u8],
    code: &[u8],
    arguments: &[u64],
    budget: u64,
    answer: &mut [u64],
    state: &mut [u64],
) -> u32
    ensures value { result ≡ status (enough_to_run answer.old state.old) }
    ensures answer_after { answer.new ≡ written (enough_to_run answer.old state.old)
        (answer_cells (ended_by (run_of tables.now code.now arguments.now budget))) answer.old }
    ensures state_after { state.new ≡ written (enough_to_run answer.old state.old)
        (state_cells (ended_by (run_of tables.now code.now arguments.now budget)).state) state.old }
{
    if answer.len() < ANSWER {
        return TOO_FEW;
    }
    if state.len() < STATE {
        return TOO_FEW;
    }
    let mut lent = State::new();
    let summary = run(tables, code, arguments, budget, &mut lent);
    lay_answer(answer, summary);
    lay_state(state, &lent);
    WRITTEN
}

// Loads and checks a module and tells the shape that was found before the instruction at an offset of the method at a row: the fault, and 34 cells of the
// shape: 1 where an instruction starts there, else 0, its depth, and 32 types as bytes, the bottom first.
#[unsafe(no_mangle)]
pub extern "C" fn loitsupar_tell(
    tables: &[u8],
    code: &[u8],
    row: u64,
    offset: u64,
    fault: &mut [u64],
    shape: &mut [u64],
) -> u32
    ensures value { result ≡ status (enough_to_tell fault.old shape.old) }
    ensures fault_after { fault.new ≡ written (enough_to_tell fault.old shape.old)
        (fault_cells (numbered (told_of (shape_found tables.now code.now row offset)))) fault.old }
    ensures shape_after { shape.new ≡ written (enough_to_tell fault.old shape.old)
        (shape_cells (found_in (told_of (shape_found tables.now code.now row offset)))) shape.old }
{
    if fault.len() < FAULT {
        return TOO_FEW;
    }
    if shape.len() < SHAPE {
        return TOO_FEW;
    }
    let told = tell(tables, code, row as usize, offset as usize);
    lay_fault(fault, numbered(&told));
    lay_shape(shape, &told.unwrap_or(None));
    WRITTEN
}
