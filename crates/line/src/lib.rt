// The line that `turn` prints, and the reading of its input.
#![tactic(auto)]

pub mod input;
pub mod line;
pub mod text;
