// The instructions that touch only the running frame's variables and stack, on lent arrays: each does to the work what its definition says.
#![tactic(auto)]

pub mod operands; // what a signed operand stands for
pub mod stack; // pushes, pops and constants
pub mod variables; // arguments and locals
pub mod branches; // branches
