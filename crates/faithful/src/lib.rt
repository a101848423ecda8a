// A run on the arrays is the model's run: the proofs stand in proofs/; there is no code here.

#![tactic(auto)]
