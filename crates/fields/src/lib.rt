// Fields and casts: the instructions with a token that stay in their frame.
#![tactic(auto)]

pub mod members; // fields of objects and static fields
pub mod named; // the rows that their tokens name
pub mod casts; // castclass and isinst
pub mod starting; // the initialiser that comes before a class is used
