// Reading code: lengths, parts, operands, and the instruction at an offset.
#![tactic(auto)]

pub mod decode;
pub mod insn;
pub mod lengths;
pub mod little;
pub mod operand;
pub mod operands;
pub mod part;
