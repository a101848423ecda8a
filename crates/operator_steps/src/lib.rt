// Operators as steps.
#![tactic(auto)]

pub mod operations; // by the number of operands
