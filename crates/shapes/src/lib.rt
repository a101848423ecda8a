// Shapes by number, and what each group of instructions does to them.
#![tactic(auto)]

pub mod effect; // what an instruction does to a shape
pub mod fault; // what the check finds wrong
pub mod fit; // types as bytes
pub mod kind; // what operators see of types
pub mod numbers; // types as bytes
pub mod shape; // shapes by number
