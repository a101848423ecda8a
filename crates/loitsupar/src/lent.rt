// The run over tables and code in a state that the caller lends: it loads first and passes a refusal on. It does not check.
ghost use Rattle.model.specs.Run.{run as run_of};
ghost use Rattle.runner.specs.Answers.{Answers};
ghost use Rattle.runner.specs.Playing.{ended_with};

use loaded::Loaded;
use loader::load_into;
use runner::{Summary, run_lent};
use state::State;

// Loads the tables and runs the entry with arguments, int64 as bits, and a budget of steps. The state that the run ends in is left in the one that is lent,
// whatever that held; after a refusal all of it is 0.
pub fn run(tables: &[u8], code: &[u8], arguments: &[u64], budget: u64, state: &mut State) -> Summary
    ensures { Answers (run_of tables.now code.now arguments.now budget) (ended_with result state.new) }
{
    state.clear();
    let mut loaded = Loaded::default();
    match load_into(tables, code, &mut loaded) {
        Ok(()) => run_lent(&loaded, code, arguments, budget, state),
        Err(refusal) => Summary::refused(refusal.number, refusal.offset),
    }
}
