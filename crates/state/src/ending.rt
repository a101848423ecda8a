// Why a run ends in a step, by the numbers of 01.
ghost use Rattle.std.specs.Prelude.{◌≡◌};
ghost use Rattle.state.specs.declared.Step.TheVariants.{Ends};
ghost use Rattle.state.specs.Steps.{number};

use crate::Step;

#[derive(Clone, Copy, PartialEq, Eq)]
pub enum Ending {
    NullReference = 34,
    InvalidCast = 35,
    // no frame is left, and no place for an object
    UsedFrames = 36,
    UsedObjects = 37,
    UsedBudget = 38,
    // the bytes are no instruction
    Undecodable = 41,
    // the operand names nothing that the instruction takes
    BadOperand = 42,
    TooFew = 43,
    TooMany = 44,
    // a value is of another type
    WrongType = 45,
    // the code ends before the offset
    PastEnd = 46,
}

// The run ends.
pub fn ends(ending: Ending) -> Step
    ensures { result ≡ Ends (number ending) }
{
    Step::Ends(ending as u8)
}
