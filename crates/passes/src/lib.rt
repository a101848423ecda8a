// The check of one method.
#![tactic(auto)]

pub mod pass; // decoding, then operands and shapes by rising offset
