// The beginning of a run and its end: arguments are admitted and laid in the first frame, and the state that is handed back has every dead cell 0.
#![tactic(auto)]

pub mod admission; // which arguments the entry takes
pub mod beginning; // the first frames
pub mod ending; // the state that is handed back
