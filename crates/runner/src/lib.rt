// A loaded module run with arguments and a budget: admission, the loop over the steps, and the answer with the whole state.
#![tactic(auto)]

mod playing; // the loop from the arguments laid, and what is told of its end
mod summary; // what is told of a run beside its state

ghost use Rattle.std.specs.Prelude.{◌≡◌};
ghost use Rattle.model.specs.Tables.{Module};
ghost use Rattle.model.specs.Run.{run_module};
ghost use Rattle.loaded.specs.Holds.{Holds};
ghost use Rattle.state.specs.Order.{Fine};
ghost use Rattle.runner.specs.Answers.{Loads, Answers, refused_by, number_of};
ghost use Rattle.runner.specs.Playing.{ended_with, AllZero};

use crate::playing::played;
pub use crate::summary::Summary;
use begin_end::admission::admit;
use line::line::Value;
use loaded::{Fault, Loaded};
use state::State;

// Why a run is refused, by the numbers of the refusals: arguments that the entry does not take, and a budget that is too high.
#[derive(Clone, Copy)]
enum Reason {
    Arguments = 21,
    Budget = 22,
}

const MOST_BUDGET: u64 = 1_000_000;

// How a run ended: its ending with its place, steps made, value and the whole state. A refusal has number and place, and all else is 0.
#[derive(Drop)]
pub struct Ended {
    pub end: Fault,
    pub steps: u64,
    pub value: Value,
    pub state: State,
}

// A refusal leaves no state.
fn refused(reason: Reason, state: &mut State) -> Summary
    ensures { ended_with result state.new ≡ refused_by (record { number = number_of reason; place = 0 }) }
{
    state.clear();
    Summary::refused(reason as u8, 0)
}

// A run whose state is left in one that the caller lends, all 0 before. Arguments are admitted first, then the budget; after a refusal all is 0 still.
pub fn run_lent(
    loaded: &Loaded,
    code: &[u8],
    given: &[u64],
    budget: u64,
    state: &mut State,
) -> Summary
    requires loads { Loads code.now loaded.now }
    requires zeros { AllZero state.old }
    ensures { (M : Module) → Fine M → Holds M code.now loaded.now
        → Answers (run_module M given.now budget) (ended_with result state.new) }
{
    if !admit(loaded, given, state) {
        return refused(Reason::Arguments, state);
    }
    if MOST_BUDGET < budget {
        return refused(Reason::Budget, state);
    }
    played(loaded, code, budget, state)
}

// The run with its whole state, which is made here and lent to all that changes it.
pub fn run(loaded: &Loaded, code: &[u8], given: &[u64], budget: u64) -> Ended
    requires { Loads code.now loaded.now }
    ensures { (M : Module) → Fine M → Holds M code.now loaded.now
        → Answers (run_module M given.now budget) result }
{
    let mut state = State::new();
    let summary = run_lent(loaded, code, given, budget, &mut state);
    summary.with_state(state)
}
