// A theorem only: no packet is handed out that is glued together from two. See specs/ and proofs/.

#![tactic(auto)]
