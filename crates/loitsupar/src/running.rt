// The run over tables and code: it loads first and passes a refusal on. It does not check.
ghost use Rattle.model.specs.Run.{run as run_of};
ghost use Rattle.runner.specs.Answers.{Answers};

use crate::lent;
use runner::Ended;
use state::State;

// Loads the tables and runs the entry with arguments, int64 as bits, and a budget of steps.
pub fn run(tables: &[u8], code: &[u8], arguments: &[u64], budget: u64) -> Ended
    ensures { Answers (run_of tables.now code.now arguments.now budget) result }
{
    let mut state = State::new();
    let summary = lent::run(tables, code, arguments, budget, &mut state);
    summary.with_state(state)
}
