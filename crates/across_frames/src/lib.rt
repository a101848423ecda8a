// The steps that change the frame: calls, newobj, ret, and the start of a class.
#![tactic(auto)]

pub mod arguments; // what a call takes from the stack
pub mod calls; // call and callvirt
pub mod change; // how a step went
pub mod enter; // a new frame
pub mod leave; // the step of a number
pub mod objects; // newobj
pub mod registers; // where a stay is
pub mod returns; // ret
pub mod tables; // what the steps read
