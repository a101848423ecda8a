// One instruction that is no branch: its group, its operand, then its effect on a shape.
#![tactic(auto)]

pub mod group; // groups of instructions that the check treats alike
pub mod operand; // declared types, and rows that tokens name
pub mod step; // operand and effect
