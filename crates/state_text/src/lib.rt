// The text of a state, in the form that the answer line of a case has. `whole::state` is what others use.
#![tactic(auto)]

mod cell; // one cell, and cells joined by commas
mod frame; // the frames from the entry's to the running one
mod members; // static fields, marks of started classes, objects
pub mod whole; // the four parts together
