// The theorem that each public operation has one answer for each input. It is a contract, so that the crate is proved only with it: see specs/
// and proofs/.

#![tactic(auto)]

ghost use Rattle.one_answer.specs.OneAnswer.{OneAnswer};

pub fn one_answer()
    ensures { OneAnswer }
{}
