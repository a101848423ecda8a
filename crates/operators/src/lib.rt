// What the operators of document 01 give for cells of the stack.
#![tactic(auto)]

pub mod codes; // the operators and relations by name
pub mod comparisons; // whether a comparison of two cells holds
pub mod operators; // kind and bits of the result, or the number that the run ends with
pub mod stacked; // operators on the stack of the running frame
