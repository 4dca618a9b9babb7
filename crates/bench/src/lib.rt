// Theorems only: the bench of the paper, and a history to which demand 3 applies. See specs/ and proofs/.

#![tactic(auto)]
