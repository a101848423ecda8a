// The public functions over house tables and code; none has a `requires`.
#![tactic(auto)]

pub mod checking; // the check of a module, which loads it first
pub mod lent; // the run of a module, whose state is left in one that is lent
pub mod numbered; // an answer by numbers
pub mod running; // the run of a module, which loads it first
pub mod telling; // the shape that the check found before an instruction
