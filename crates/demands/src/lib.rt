// Theorems only: the three demands, of reading and writing on real octets as the contracts of `read_core`, `read`, `read_kept` and `write` state
// them (`Read`, `Wrote`). See specs/ and proofs/. That each public operation has one answer is the crate `one_answer`.

#![tactic(auto)]
