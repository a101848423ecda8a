// What is told of a run beside its state.
ghost use Rattle.std.specs.Prelude.{◌≡◌};
ghost use Rattle.state.specs.Layout.{no_state};
ghost use Rattle.runner.specs.Answers.{refused_by};
ghost use Rattle.runner.specs.Playing.{ended_with};

use crate::Ended;
use line::line::Value;
use loaded::Fault;
use state::State;

// The ending with its place, the steps made, and the value.
#[derive(Clone, Copy)]
pub struct Summary {
    pub end: Fault,
    pub steps: u64,
    pub value: Value,
}

impl Summary {
    // A refusal by its number and place: nothing was run.
    pub fn refused(number: u8, place: usize) -> Summary
        ensures { ended_with result no_state ≡ refused_by (record { number = number; place = place }) }
    {
        Summary {
            end: Fault {
                number,
                method: 0,
                offset: place,
            },
            steps: 0,
            value: Value::None,
        }
    }

    // With the state that the run ended in.
    pub fn with_state(self, state: State) -> Ended
        ensures { result ≡ ended_with self state }
    {
        Ended {
            end: self.end,
            steps: self.steps,
            value: self.value,
            state,
        }
    }
}
