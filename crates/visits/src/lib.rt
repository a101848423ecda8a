// One instruction of the check.
#![tactic(auto)]

pub mod instruction; // its operand, its effect, where its shape arrives
pub mod notes; // what the check notes of a method
pub mod tables; // lengths and groups
pub mod visit; // arrivals and branches
