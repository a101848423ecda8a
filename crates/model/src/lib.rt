#![tactic(auto)]

// The definitions of document 01 stand in specs/; they hold no code.
