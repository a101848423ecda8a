// The functions of crate `host` under the names by which C calls them. A crate is a library or a static library, so they are exported from here; each
// says what the function that it calls says.
// Stays: the functions of `host` once more, since what a static library exports has to stand in it (the C interface).
#![tactic(auto)]

ghost use Rattle.std.specs.Prelude.{◌≡◌};
ghost use Rattle.model.specs.Check.{check as check_of, shape_found};
ghost use Rattle.model.specs.Run.{run as run_of};
ghost use Rattle.loitsupar.specs.Public.{checked, told_of, numbered};
ghost use Rattle.host.specs.Hosting.{enough_to_check, enough_to_run, enough_to_tell, status, written, fault_cells, ended_by, answer_cells, state_cells, found_in, shape_cells};

// Loads and checks a module: number, 0 where it passes, method row and offset.
#[unsafe(no_mangle)]
pub extern "C" fn loitsupar_check(tables: &[u8], code: &[u8], fault: &mut [u64]) -> u32
    ensures value { result ≡ status (enough_to_check fault.old) }
    ensures fault_after { fault.new
        ≡ written (enough_to_check fault.old) (fault_cells (numbered (checked (check_of tables.now code.now)))) fault.old }
{
    host::loitsupar_check(tables, code, fault)
}

// Loads a module and runs its entry with arguments, int64 as bits, and a budget of steps. The answer has ending, method row, offset, steps, and the
// value's sort and bits; the state has 5,314 cells, all 0 after a refusal.
#[unsafe(no_mangle)]
pub extern "C" fn loitsupar_run(
    tables: &[u8],
    code: &[u8],
    arguments: &[u64],
    budget: u64,
    answer: &mut [u64],
    state: &mut [u64],
) -> u32
    ensures value { result ≡ status (enough_to_run answer.old state.old) }
    ensures answer_after { answer.new ≡ written (enough_to_run answer.old state.old)
        (answer_cells (ended_by (run_of tables.now code.now arguments.now budget))) answer.old }
    ensures state_after { state.new ≡ written (enough_to_run answer.old state.old)
        (state_cells (ended_by (run_of tables.now code.now arguments.now budget)).state) state.old }
{
    host::loitsupar_run(tables, code, arguments, budget, answer, state)
}

// Loads and checks a module and tells the shape that was found before the instruction at an offset of the method at a row: the fault, and 34 cells of the
// shape: 1 where an instruction starts there, else 0, its depth, and 32 types as bytes, the bottom first.
#[unsafe(no_mangle)]
pub extern "C" fn loitsupar_tell(
    tables: &[u8],
    code: &[u8],
    row: u64,
    offset: u64,
    fault: &mut [u64],
    shape: &mut [u64],
) -> u32
    ensures value { result ≡ status (enough_to_tell fault.old shape.old) }
    ensures fault_after { fault.new ≡ written (enough_to_tell fault.old shape.old)
        (fault_cells (numbered (told_of (shape_found tables.now code.now row offset)))) fault.old }
    ensures shape_after { shape.new ≡ written (enough_to_tell fault.old shape.old)
        (shape_cells (found_in (told_of (shape_found tables.now code.now row offset)))) shape.old }
{
    host::loitsupar_tell(tables, code, row, offset, fault, shape)
}
