// Theorems only: demand 2, what is written from whole packets reads back, and the writer is a sender of demand 3. See specs/ and proofs/.

#![tactic(auto)]
