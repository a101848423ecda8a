// What holds between two steps of a run: the proofs stand in proofs/; there is no code here.

#![tactic(auto)]
