// Theorems only: a table of refusals, of which the first cause found gives the answer. See specs/ and proofs/.

#![tactic(auto)]
